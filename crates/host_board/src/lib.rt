// The calls on a board that a caller lends, and the numbers that they return: open into the board's memory, and what finished, certain and hints tell of it.
// Decide, undo and find on a lent board are in `lent`. `host` puts the two together, and `host_c` exports them.
#![tactic(auto)]

ghost use Rattle.std.specs.Prelude.{◌≡◌, ℕ, ◌<◌, ◌^◌, length, Some};
ghost use Rattle.std.specs.Result.{ForOk};
ghost use Rattle.refusal.specs.Refusals.{ok, outcome_of, returned_of};
ghost use Rattle.exported.specs.Written.{output_with};
ghost use Rattle.record.specs.Problem.{Answer};
ghost use Rattle.board.specs.Answers.{done_as, after_open};
ghost use Rattle.board.specs.Kept.{open_of};
ghost use Rattle.literals.specs.Buffer.{Finding};
ghost use Rattle.reasons.specs.Find.{found_as};
ghost use Rattle.finished.specs.Verdicts.{finished_of};
ghost use Rattle.calls.specs.Told.{said_number, said_bytes};
ghost use Rattle.host_board.specs.Lent.{answer_number, finding_number, verdict_number, board_certain, hints_of, count_number};

use board::Board;
use refusal::{Refusal, returned};

// What a call returns that has nothing to tell: 0, or the negated number of a refusal. No `From`: both types are std's.
pub fn answer_number(answer: Result<(), Refusal>) -> i32
    ensures { (a : Answer) → outcome_of answer ≡ done_as a → result ≡ answer_number a }
{
    returned(answer.and(Ok(0)))
}

// What find returns: how many literals there are, 0 for none, or the negated number of a refusal. No `From`, as `refusal::returned`.
pub fn finding_number(finding: Result<Option<usize>, Refusal>) -> i32
    requires { (k : ℕ) → outcome_of finding ≡ ok (Some k) → k < 2 ^ 31 }
    ensures { (f : Finding) → outcome_of finding ≡ found_as f → result ≡ finding_number f }
{
    returned(finding.map(|found| found.unwrap_or(0)))
}

// Opens a record in an edition with sizes, in the memory of a board that a refusal leaves as it was. Refused: 1 to 5 for the record, 16 for another edition
// than 1 and 2, 22 for sizes that may not stand.
pub fn open_in(board: &mut Board, record: &[u8], edition: u32, sizes: &[u16]) -> Result<(), Refusal>
    ensures { (outcome_of result ≡ done_as (open_of «record».now edition sizes.now).answer)
        × (board.new ≡ after_open board.old (open_of «record».now edition sizes.now)) }
{
    // 0 is no edition either.
    let edition = u8::try_from(edition).unwrap_or(0);
    board.open_in(record, edition, sizes)
}

// What `finished` returns: 1 for yes, 0 for no, or the negated number of a refusal, 6.
pub fn finished_number(board: &Board) -> i32
    ensures { result ≡ verdict_number (finished_of board.now) }
{
    returned(finished::finished(*board).map(usize::from))
}

// Writes to the output which cells are certain, as `calls::certain_cells` does, and tells the answer's number. Refused: 6, then 11 for an output below 8 + H × W
// bytes.
fn tell_certain(board: &Board, budget: u64, output: &mut [u8]) -> Result<usize, Refusal>
    ensures told { (returned_of result ≡ said_number (board_certain board.now budget (length output.old)))
        × (output.new ≡ output_with (said_bytes (board_certain board.now budget (length output.old))) output.old) }
    ensures few { ForOk result (λ n. n < 2 ^ 31) }
{
    let n = board.leaf()?.grid().size();
    if output.len() < 8 + n {
        return Err(Refusal::OutputShort);
    }
    let facts = certain::certain(*board, budget)?;
    Ok(calls::certain_cells::write_certain(&facts, n, output))
}

// The same as a number: 0 where the cells are told, 1 where no finished board agrees with the decisions, 2 where the budget is spent, or the negated number
// of the refusal, which leaves the output as it was.
pub fn certain_number(board: &Board, budget: u64, output: &mut [u8]) -> i32
    ensures { (result ≡ said_number (board_certain board.now budget (length output.old)))
        × (output.new ≡ output_with (said_bytes (board_certain board.now budget (length output.old))) output.old) }
{
    returned(tell_certain(board, budget, output))
}

// How many hints the player has taken. Refused: 6, then 17 for a player above 3.
#[tactic(auto, using(crate::proofs::LentLaws::hints_ill, crate::proofs::LentLaws::hints_stranger, crate::proofs::LentLaws::hints_told))]
fn hints_taken(board: &Board, player: u8) -> Result<usize, Refusal>
    ensures told { outcome_of result ≡ hints_of board.now player }
    ensures few { ForOk result (λ n. n < 2 ^ 31) }
{
    if !board.is_formed() {
        return Err(Refusal::Board);
    }
    if Board::PLAYERS <= usize::from(player) {
        return Err(Refusal::Player);
    }
    Ok(usize::from(board.hints[usize::from(player)]))
}

// The same as a number: the count, or the negated number of the refusal.
pub fn hints_number(board: &Board, player: u8) -> i32
    ensures { result ≡ count_number (hints_of board.now player) }
{
    returned(hints_taken(board, player))
}
