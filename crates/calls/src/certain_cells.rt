// The call `evolmino_certain`: a record is opened, decisions are made in order, and it is told which cells are certain; and `evolmino_certain_with`, which
// opens the record in an edition with sizes.
ghost use Rattle.std.specs.Prelude.{◌≡◌, ◌+◌, ◌≤◌, ◌++◌, length, drop, pos};
ghost use Rattle.refusal.specs.Refusals.{returned_of};
ghost use Rattle.record.specs.Record.{ok};
ghost use Rattle.exported.specs.Written.{output_with};
ghost use Rattle.certain.specs.Told.{facts_as};
ghost use Rattle.calls.specs.Told.{step_bytes, said_of, host_certain, host_certain_with, said_number, said_bytes};
ghost use Rattle.calls.specs.Inside.{leaf_certain};

use crate::Question;
use certain::{Certainty, Facts};
use refusal::Refusal;
use sizes::LentLeaf;

// Writes a number of steps to the output's first eight bytes, most significant first.
#[tactic(auto, unfolding(crate::specs::Told::step_bytes, exported::specs::Written::bytes_of, grid::specs::Lists::flat_map))]
fn write_steps(steps: u64, output: &mut [u8])
    requires { 8 ≤ length output.old }
    ensures { output.new ≡ step_bytes steps ++ drop 8 output.old }
{
    output[..8].copy_from_slice(&steps.to_be_bytes());
}

// Writes an answer for n cells to the output, which is long enough: the steps, and behind them the cells where they are told, one byte a cell. Returns the
// answer's number: 0 the cells are told, 1 no such board, 2 spent.
pub fn write_certain(facts: &Facts, n: usize, output: &mut [u8]) -> usize
    requires { (n ≤ 1024) × (8 + n ≤ length output.old) }
    ensures number { pos result ≡ said_number (ok (said_of n (facts_as facts.now))) }
    ensures few { result ≤ 2 }
    ensures bytes { output.new ≡ output_with (said_bytes (ok (said_of n (facts_as facts.now)))) output.old }
{
    write_steps(facts.steps, output);
    match &facts.answer {
        Certainty::Told(cells) => {
            exported::write_behind(cells, n, 8, output);
            0
        }
        Certainty::Impossible => 1,
        Certainty::Spent => 2,
    }
}

// Which cells of a leaf are certain: it decides in order and searches, by at most `budget` steps. 11 for an output that is too short, then the decisions'
// refusals, then the answer's number. Nothing is tested, as in `first_reason`.
#[derive(Clone, Copy)]
struct CertainCells<'a> {
    decisions: &'a [u8],
    budget: u64,
}

impl Question for CertainCells<'_> {
    ghost told = { λ cells l before after answer.
        (returned_of answer ≡ said_number (leaf_certain cells.decisions.now cells.budget (length before) l))
        × (after ≡ output_with (said_bytes (leaf_certain cells.decisions.now cells.budget (length before) l)) before) };

    fn ask(&self, leaf: &LentLeaf<'_>, output: &mut [u8]) -> Result<usize, Refusal> {
        let grid = leaf.grid();
        let n = grid.size();
        if output.len() < 8 + n {
            return Err(Refusal::OutputShort);
        }
        let mut cells = crate::decide_in_order(grid, self.decisions)?;
        let facts = certain::certain_cells(leaf, &mut cells, self.budget);
        Ok(write_certain(&facts, n, output))
    }
}

// Opens the record in an edition with sizes, as `first_reason::find_with` does, decides in order and tells which cells are certain, by a search of at most
// `budget` steps. Returns 0 where the cells are told, 1 where no finished board agrees with the decisions, 2 where the budget is spent, or the negated
// number of a refusal, which leaves the output as it was. The output's first eight bytes are the number of steps, most significant first; where the cells
// are told one byte for each follows, in row order: 0 empty, 1 square, 2 open. The refusals come in `first_reason`'s order.
pub fn certain_with(
    record: &[u8],
    edition: u32,
    sizes: &[u8],
    decisions: &[u8],
    budget: u64,
    output: &mut [u8],
) -> i32
    ensures { (result ≡ said_number (host_certain_with «record».now edition sizes.now decisions.now budget (length output.old)))
        × (output.new ≡ output_with (said_bytes (host_certain_with «record».now edition sizes.now decisions.now budget (length output.old))) output.old) }
{
    let question = CertainCells { decisions, budget };
    refusal::returned(crate::ask(record, edition, sizes, &question, output))
}

// Tells which cells are certain in edition 1 and without sizes, as `certain_with` does.
pub fn certain(record: &[u8], decisions: &[u8], budget: u64, output: &mut [u8]) -> i32
    ensures { (result ≡ said_number (host_certain «record».now decisions.now budget (length output.old)))
        × (output.new ≡ output_with (said_bytes (host_certain «record».now decisions.now budget (length output.old))) output.old) }
{
    certain_with(record, 1, &[], decisions, budget, output)
}
