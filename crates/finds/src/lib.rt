// Find with a lent part of a longer buffer, by value and on a lent board, held against what a list says of it: nothing behind its literals
// may be written, nor anything by a refused one.
#![tactic(auto)]

ghost use Rattle.std.specs.Prelude.{◌≡◌, ◌≤◌, false, length, MatchResult};
ghost use Rattle.board.specs.Hints.{after_find};
ghost use Rattle.refusal.specs.Refusals.{outcome_of, ok, refused};
ghost use Rattle.reasons.specs.Find.{find_of, found_as, buffer_after};
ghost use Rattle.replay.specs.Comparisons.{DiffersUnless};
ghost use Rattle.replay.specs.Lists.{number_in, differs};
ghost use Rattle.finds.specs.Finds.{fresh, reason_of, FindsSo, RefusesSo};

use board::Board;
use reasons::Asked;
use refusal::Refusal;
use replay::Cursor;

// Finds this many times and at least once, each time on the same board and in the same buffer; the last answer, which is that of the first,
// with the board that the first left.
fn find_in_rounds(rounds: usize, board: Board, player: u8, buffer: &mut [u16]) -> Asked
    ensures { (outcome_of result.finding ≡ found_as (find_of board player buffer.old)) × (result.board ≡ after_find board player (length buffer.old))
        × (buffer.new ≡ buffer_after board player buffer.old) }
{
    let first = reasons::find(board, player, buffer);
    let mut found = first.finding;
    let left = first.board;
    for _i in 1..rounds {
        found = reasons::find(board, player, buffer).finding;
    }
    Asked {
        finding: found,
        board: left,
    }
}

// `find` on a lent board: what it answers, with the board that it leaves. As `reasons::find`, but by `lent`: that is what is tried here.
fn find_lent(board: Board, player: u8, buffer: &mut [u16]) -> Asked
    ensures { (outcome_of result.finding ≡ found_as (find_of board player buffer.old)) × (result.board ≡ after_find board player (length buffer.old))
        × (buffer.new ≡ buffer_after board player buffer.old) }
{
    let mut lent = board;
    let finding = lent::find_in(&mut lent, player, buffer);
    Asked {
        finding,
        board: lent,
    }
}

// How a find is made: on the board by value, this many times and at least once, or once on a lent board. An enum, and no closure in its place: `find_differs`
// promises what `find` answers, and would have to ask that of each closure that it is handed.
#[derive(Clone, Copy, Debug, PartialEq, Eq)]
pub enum Way {
    Value(usize),
    Lent,
}

// Finds in this way.
fn make(way: Way, board: Board, player: u8, buffer: &mut [u16]) -> Asked
    ensures { (outcome_of result.finding ≡ found_as (find_of board player buffer.old)) × (result.board ≡ after_find board player (length buffer.old))
        × (buffer.new ≡ buffer_after board player buffer.old) }
{
    match way {
        Way::Value(rounds) => find_in_rounds(rounds, board, player, buffer),
        Way::Lent => find_lent(board, player, buffer),
    }
}

// A find of a player that is lent so many first places of a fresh buffer.
#[derive(Clone, Copy)]
pub struct Find {
    pub player: u8,
    pub size: usize,
    ghost room: { size ≤ 4096 },
}

// The literals that a list says of a find: so many, from a place on, none for no reason.
#[derive(Clone, Copy)]
pub struct Said<'a> {
    pub from: Cursor<'a>,
    pub count: usize,
}

// Whether a find with this answer, in a buffer that was fresh, is another than a list says: its literals, or the number of its refusal.
// No `==`, here and in `find_differs`: a finding and its buffer are held against bytes of a list. A number, and no `Refusal`: a list may say any byte.
fn finding_differs(
    finding: Result<Option<usize>, Refusal>,
    buffer: &[u16; 4096],
    said: Result<Said<'_>, u8>,
) -> bool
    ensures { MatchResult said.entry
        (λ literals. DiffersUnless result ((outcome_of finding ≡ ok (reason_of literals.count)) × (differs buffer.now (number_in literals.from.list.now literals.from.at literals.count 65535) 0 ≡ false)))
        (λ refusal. DiffersUnless result ((outcome_of finding ≡ refused refusal) × (buffer.now ≡ fresh))) }
{
    match said {
        Ok(Said { from, count }) => {
            let reason = if count == 0 { None } else { Some(count) };
            replay::answer_differs(finding, Ok(reason)) || from.literals_differ(count, buffer)
        }
        Err(refusal) => {
            replay::answer_differs(finding, Err(refusal)) || *buffer != [replay::NO_LITERAL; 4096]
        }
    }
}

// A find that was made: whether it differs from what a list says of it, and the board that it left, of which more is asked whatever the first says.
#[derive(Clone, Copy)]
pub struct Made {
    pub differs: bool,
    pub board: Board,
}

// Makes the find on the board in this way: whether it differs from these literals, or from the refusal of this number, and the board that it leaves.
pub fn find_differs(board: Board, find: Find, way: Way, said: Result<Said<'_>, u8>) -> Made
    ensures left { result.board ≡ after_find board find.player find.size }
    ensures told { MatchResult said.entry
        (λ literals. DiffersUnless result.differs (FindsSo board find.player find.size literals.count (number_in literals.from.list.now literals.from.at literals.count 65535)))
        (λ refusal. DiffersUnless result.differs (RefusesSo board find.player find.size refusal)) }
{
    let mut buffer = [replay::NO_LITERAL; 4096];
    let asked = make(way, board, find.player, &mut buffer[..find.size]);
    Made {
        differs: finding_differs(asked.finding, &buffer, said),
        board: asked.board,
    }
}
