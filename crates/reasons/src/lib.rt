// Find: the first reason that applies to a board, written as literals into a lent buffer, and counted on the board as a hint of the player
// who asks.
#![tactic(auto)]

pub mod inconsistency;

ghost use Rattle.std.specs.Prelude.{◌≡◌, ◌≤◌, length, replicate};
ghost use Rattle.board.specs.Hints.{after_find};
ghost use Rattle.refusal.specs.Refusals.{outcome_of};
ghost use Rattle.reasons.specs.Find.{find_of, found_as, buffer_after};

use board::Board;
use refusal::Refusal;

// The answer of `find`, with the board as find leaves it: a refusal comes with the board too, so that the two are no `Result` of one another.
#[derive(Clone, Copy)]
pub struct Asked {
    pub finding: Result<Option<usize>, Refusal>,
    pub board: Board,
}

// A buffer with room for the longest reason, for a caller that has none. A function, and no array where it is wanted, so that what such a buffer starts with
// is promised once.
pub fn no_literals() -> [u16; Board::LITERALS]
    ensures { result ≡ replicate 3073 0 }
{
    [0; Board::LITERALS]
}

// Why the board can't be finished: how many literals the first reason that applies has, written to the buffer's first places, and none where no reason
// does. Refused: 6 a board that no list of calls could leave, 17 a player above 3, 11 a buffer shorter than 3 × H × W + 1 literals.
fn reason_against(board: &Board, player: u8, buffer: &mut [u16]) -> Result<Option<usize>, Refusal>
    ensures { (outcome_of result ≡ found_as (find_of board.now player buffer.old)) × (buffer.new ≡ buffer_after board.now player buffer.old) }
{
    let leaf = board.leaf()?;
    if Board::PLAYERS <= usize::from(player) {
        return Err(Refusal::Player);
    }
    if buffer.len() < 3 * leaf.grid().size() + 1 {
        return Err(Refusal::OutputShort);
    }
    let found = inconsistency::find_inconsistency(&leaf, &board.cells, buffer);
    Ok(found)
}

// The reason, as above, on a board that is lent. A find that is not refused raises its player's count of hints, and changes nothing else on the board; the reason
// doesn't depend on the player. It writes in place, as `Board::decide_in`.
#[tactic(auto, using(crate::proofs::FindLaws::find_counted, crate::proofs::FindLaws::find_kept), unfolding(board::specs::Hints::hinted, board::specs::Hints::with_hints))]
pub fn find_in(board: &mut Board, player: u8, buffer: &mut [u16]) -> Result<Option<usize>, Refusal>
    ensures { (outcome_of result ≡ found_as (find_of board.old player buffer.old)) × (board.new ≡ after_find board.old player (length buffer.old))
        × (buffer.new ≡ buffer_after board.old player buffer.old) }
{
    let found = reason_against(board, player, buffer)?;
    let at = usize::from(player);
    board.hints[at] = board::raised(board.hints[at]);
    Ok(found)
}

// The same of a board by value.
pub fn find(board: Board, player: u8, buffer: &mut [u16]) -> Asked
    ensures { (outcome_of result.finding ≡ found_as (find_of board player buffer.old)) × (result.board ≡ after_find board player (length buffer.old))
        × (buffer.new ≡ buffer_after board player buffer.old) }
{
    let mut left = board;
    let finding = find_in(&mut left, player, buffer);
    Asked {
        finding,
        board: left,
    }
}
