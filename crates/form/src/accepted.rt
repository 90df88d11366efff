// The problem of an accepted record, which contracts see as its puzzle.

ghost use Rattle.std.specs.Prelude.{◌≡◌, true};
ghost use Rattle.refusal.specs.Refusals.{outcome_of};
ghost use Rattle.record.specs.Record.{Puzzle, read_record};
ghost use Rattle.record.specs.Problem.{puzzle_of};
ghost use Rattle.form.specs.Form.{problem_formed};

use record::Problem;
use refusal::Refusal;
use std::marker::Model;

#[derive(Drop)]
pub struct Accepted {
    pub problem: Problem,
}

impl Model for Accepted {
    ghost Value = { Puzzle };

    ghost view = { λ accepted. puzzle_of accepted.problem };

    ghost invariant = { λ accepted. problem_formed accepted.problem ≡ true };
}

impl Accepted {
    // The puzzle of a record, or the refusal of its first fault.
    pub fn read(bytes: &[u8]) -> Result<Accepted, Refusal>
        ensures { outcome_of result ≡ read_record bytes.now }
    {
        let mut problem = Problem::new();
        problem.read_record_in(bytes)?;
        Ok(Accepted { problem })
    }
}
