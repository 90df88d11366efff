// Decide, undo and find on one board lent by the caller. The calls of `host` pass the board that they are lent on to these; decide and undo are the board's own,
// and stand here beside find, which a board can't have, since it searches for a reason.
#![tactic(auto)]

ghost use Rattle.std.specs.Prelude.{◌≡◌, length};
ghost use Rattle.refusal.specs.Refusals.{outcome_of};
ghost use Rattle.board.specs.Answers.{done_as};
ghost use Rattle.board.specs.Decide.{decide_of, undo_of};
ghost use Rattle.board.specs.Hints.{after_find};
ghost use Rattle.reasons.specs.Find.{find_of, found_as, buffer_after};

use board::Board;
use refusal::Refusal;

// `decide` on a lent board.
pub fn decide_in(board: &mut Board, index: usize, value: u8) -> Result<(), Refusal>
    ensures { (outcome_of result ≡ done_as (decide_of board.old index value).answer) × (board.new ≡ (decide_of board.old index value).board) }
{
    board.decide_in(index, value)
}

// `undo` on a lent board.
pub fn undo_in(board: &mut Board) -> Result<(), Refusal>
    ensures { (outcome_of result ≡ done_as (undo_of board.old).answer) × (board.new ≡ (undo_of board.old).board) }
{
    board.undo_in()
}

// `find` on a lent board.
pub fn find_in(board: &mut Board, player: u8, buffer: &mut [u16]) -> Result<Option<usize>, Refusal>
    ensures { (outcome_of result ≡ found_as (find_of board.old player buffer.old))
        × (board.new ≡ after_find board.old player (length buffer.old))
        × (buffer.new ≡ buffer_after board.old player buffer.old) }
{
    reasons::find_in(board, player, buffer)
}
