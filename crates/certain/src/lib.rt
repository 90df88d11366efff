// Cells that are certain: what holds in every finished board that agrees with the standing decisions.
#![tactic(auto)]

ghost use Rattle.std.specs.Prelude.{◌≡◌, true, ◌<◌, ◌≤◌, take};
ghost use Rattle.std.specs.Option.{ForSome};
ghost use Rattle.refusal.specs.Refusals.{outcome_of};
ghost use Rattle.form.specs.Form.{problem_formed};
ghost use Rattle.sizes.specs.LeafOf.{leaf_of};
ghost use Rattle.reasons.specs.Lent.{cell_count, leaf_cells};
ghost use Rattle.finished.specs.Lent.{passes};
ghost use Rattle.certain.specs.Tree.{lowest, search_of};
ghost use Rattle.certain.specs.Facts.{certain_by, certain_of};
ghost use Rattle.certain.specs.Told.{facts_as, told_as};
ghost use Rattle.certain.specs.Inside.{lowest_or, left_number, States, joined_of, Noted, Beyond, Meets, Searched};

use board::Board;
use grid::{EMPTY, SQUARE, UNDECIDED};
use refusal::Refusal;
use sizes::LentLeaf;

// What a search tells: of each cell, 1 where it is square in every finished board, 0 where it is empty in every one and 2 where it is open, with 3 behind the
// grid; that there is no finished board that agrees with the decisions; or that the budget is spent.
#[derive(Clone, Copy, Debug, PartialEq, Eq)]
pub enum Certainty {
    Told([u8; 1024]),
    Impossible,
    Spent,
}

// The answer, and the number of steps, which is told whatever the answer is: so the two are no enum.
#[derive(Clone, Copy)]
pub struct Facts {
    pub answer: Certainty,
    pub steps: u64,
}

// Stands for a cell of which nothing is known, and for one that is open.
const UNKNOWN: u8 = 3;

const OPEN: u8 = 2;

// What is known of a cell, where one more board has the value there. By numbers: those of `Certainty::Told`, which a call writes as they are.
#[tactic(auto, unfolding(crate::specs::Inside::joined_of))]
fn joined(known: u8, value: u8) -> u8
    ensures { result ≡ joined_of known value }
{
    if known == UNKNOWN {
        value
    } else if known == value {
        known
    } else {
        OPEN
    }
}

// Joins a board to what is known of the first n cells. No `iter_mut().zip(..)`: of places that are
// written through it a proof does not know what they hold then.
fn note_board(cells: &[u8; 1024], n: usize, facts: &mut [u8; 1024])
    requires { n ≤ 1024 }
    ensures { Noted n cells.now facts.old facts.new }
{
    for i in 0..n {
        facts[i] = joined(facts[i], cells[i]);
    }
}

// The lowest undecided of the first n cells, if one is undecided.
fn lowest_undecided(cells: &[u8; 1024], n: usize) -> Option<usize>
    requires { n ≤ 1024 }
    ensures lowest { lowest_or n result ≡ lowest (take n cells.now) }
    ensures below { ForSome result (λ i. i < n) }
{
    (0..n).find(|&i| cells[i] == UNDECIDED)
}

// What lies beyond a board with no reason: its lowest undecided cell, or none where it is full. Then it is noted, if it meets all that is asked of a
// finished board but the block rules, which hold where there is no reason.
fn beyond(leaf: &LentLeaf<'_>, cells: &[u8; 1024], facts: &mut [u8; 1024]) -> Option<usize>
    ensures met { Beyond (cell_count leaf.now) cells.now (passes leaf.now.problem.now cells.now) facts.old facts.new result }
    ensures small { ForSome result (λ i. i < 1024) }
{
    let n = leaf.grid().size();
    if let Some(i) = lowest_undecided(cells, n) {
        return Some(i);
    }
    let counts = finished::all_but_rules(leaf.problem, cells);
    if counts {
        note_board(cells, n, facts);
    }
    None
}

// One step of the search: find on a board, and the lowest undecided cell, from which the search goes on; none where there is a reason or the board is full.
fn step(
    leaf: &LentLeaf<'_>,
    cells: &[u8; 1024],
    facts: &mut [u8; 1024],
    buffer: &mut [u16; Board::LITERALS],
) -> Option<usize>
    requires formed { problem_formed leaf.now.problem.now ≡ true }
    requires states { States cells.now }
    ensures met { Meets (leaf_of leaf.now) (cell_count leaf.now) cells.now facts.old facts.new result }
    ensures small { ForSome result (λ i. i < 1024) }
{
    match reasons::inconsistency::find_inconsistency(leaf, cells, buffer) {
        None => beyond(leaf, cells, facts),
        Some(_) => None,
    }
}

// The search from a board with at most `left` steps: what is left of them, or None where it has more. What it sets in the cells it takes back.
// It is as deep as there are undecided cells, and each call of it keeps what it is lent.
// The cells come apart: they are lent, and of an array behind a `&mut` in a struct that is behind a `&mut` a proof knows no length (`reach::near::unmark`). Facts and
// buffer do too: a struct of the two would state no fact, and two functions would take it.
fn search_from(
    leaf: &LentLeaf<'_>,
    cells: &mut [u8; 1024],
    facts: &mut [u8; 1024],
    buffer: &mut [u16; Board::LITERALS],
    left: u64,
) -> Option<u64>
    requires formed { problem_formed leaf.now.problem.now ≡ true }
    requires states { States cells.old }
    ensures { Searched (cell_count leaf.now) left
        (search_of (leaf_of leaf.now) (leaf_cells leaf.now cells.old)) (left_number result)
        cells.old cells.new facts.old facts.new }
{
    if left == 0 {
        return None;
    }
    let Some(i) = step(leaf, cells, facts, buffer) else {
        return Some(left - 1);
    };
    cells[i] = SQUARE;
    let first = search_from(leaf, cells, facts, buffer, left - 1);
    match first {
        None => {
            cells[i] = UNDECIDED;
            None
        }
        Some(rest) => {
            cells[i] = EMPTY;
            let second = search_from(leaf, cells, facts, buffer, rest);
            cells[i] = UNDECIDED;
            second
        }
    }
}

// What `certain` answers, on the leaf that is lent, whose problem is known to be accepted, and the states of its cells, which are left as they were: for
// `certain`, which has tested its board, and for `calls::certain_cells`, which goes by an accepted record.
pub fn certain_cells(leaf: &LentLeaf<'_>, cells: &mut [u8; 1024], budget: u64) -> Facts
    requires formed { problem_formed leaf.now.problem.now ≡ true }
    requires states { States cells.old }
    ensures facts { facts_as result ≡ certain_by (cell_count leaf.now) budget
        (search_of (leaf_of leaf.now) (leaf_cells leaf.now cells.old)) }
    ensures cells { cells.new ≡ cells.old }
{
    let mut facts = [UNKNOWN; 1024];
    let mut buffer = reasons::no_literals();
    match search_from(leaf, cells, &mut facts, &mut buffer, budget) {
        None => Facts {
            answer: Certainty::Spent,
            steps: budget,
        },
        Some(rest) => {
            // Nothing was noted where the first cell is unknown still. A flag for it would be lent through the search beside the cells.
            let answer = if facts[0] == UNKNOWN {
                Certainty::Impossible
            } else {
                Certainty::Told(facts)
            };
            Facts {
                answer,
                steps: budget - rest,
            }
        }
    }
}

// For each cell, whether it is square in every finished board that agrees with the standing decisions, empty in every one, or open; or that
// there is no such board; or that the search has more steps than the budget. Refused: 6 a board that no list of calls could leave. The board
// is unchanged, and nothing counts as a hint.
pub fn certain(board: Board, budget: u64) -> Result<Facts, Refusal>
    ensures { told_as (outcome_of result) ≡ certain_of board budget }
{
    let leaf = board.leaf()?;
    let mut cells = board.cells;
    Ok(certain_cells(&leaf, &mut cells, budget))
}
