// Whether a board is finished.
#![tactic(auto)]

ghost use Rattle.std.specs.Prelude.{◌≡◌, true, Bool, ℕ, ◌≤◌, ◌<◌, length, get_or};
ghost use Rattle.grid.specs.Lists.{all, filter};
ghost use Rattle.form.specs.Form.{problem_formed};
ghost use Rattle.finished.specs.Finished.{keeps, finished_test};
ghost use Rattle.finished.specs.Counting.{Tells, two_of};
ghost use Rattle.finished.specs.Lent.{cells_in, arrows_in, IsDrawn, all_kept, passes};
ghost use Rattle.finished.specs.Verdicts.{finished_of, judged_as};
ghost use Rattle.sizes.specs.LeafOf.{leaf_of};
ghost use Rattle.reasons.specs.Lent.{leaf_cells};
ghost use Rattle.refusal.specs.Refusals.{outcome_of};

use board::Board;
use grid::{EMPTY, SQUARE, UNDECIDED};
use record::{BLACK, GIVEN, Problem};
use refusal::Refusal;
use sizes::LentLeaf;

// Whether a cell of this code and state is decided, empty where it is black and square where that is given.
#[tactic(auto, unfolding(crate::specs::Finished::keeps))]
fn keeps_given(code: u8, state: u8) -> bool
    ensures { result ≡ keeps code state }
{
    match code {
        BLACK => state == EMPTY,
        GIVEN => state == SQUARE,
        _ => state < UNDECIDED,
    }
}

// Whether each cell of a problem is decided so. By `fold` and `&`, without a way out, as `form::filled`: nearly every board that is asked
// for is full, and then each cell is looked at.
fn all_keep_given(problem: &Problem, cells: &[u8; 1024]) -> bool
    requires small { cells_in problem.now ≤ 1024 }
    ensures { result ≡ all_kept problem.now cells.now }
{
    // The product by hand: `Problem::size` asks that both sides are at most 32, and here only their product is known to be small.
    let codes = &problem.cells[..problem.height * problem.width];
    codes.iter().zip(cells).fold(
        true,
        |good, (&code, &state)| good & keeps_given(code, state),
    )
}

// How many cells of an arrow count. No `filter`: a closure is known to tell a test of the cells below 1,024 alone, and what is known of a filter is by a test
// of every number.
fn count_on<F: Fn(usize) -> bool>(arrow: &[u16], counts: &F) -> usize
    requires cells { (k : ℕ) → k < length arrow.now → get_or arrow.now k 0 < 1024 }
    requires callable { (i : ℕ) → i < 1024 → F.pre counts.now i }
    ensures { (test : ℕ → Bool) → Tells (F.post counts.now) test → result ≡ length (filter test arrow.now) }
{
    let mut count = 0;
    for &cell in arrow {
        if counts(usize::from(cell)) {
            count += 1;
        }
    }
    count
}

// Whether two cells or more of each arrow count.
pub fn two_on_each<F: Fn(usize) -> bool>(problem: &Problem, counts: F) -> bool
    requires drawn { (n : ℕ) × IsDrawn problem.now n }
    requires callable { (i : ℕ) → i < 1024 → F.pre counts i }
    ensures { (test : ℕ → Bool) → Tells (F.post counts) test → result ≡ all (two_of test) (arrows_in problem.now) }
{
    // No `all`: its closure would be one more that calls `counts`, of which it would have to say again what is known.
    for k in 0..problem.count {
        if count_on(problem.arrow(k), &counts) < 2 {
            return false;
        }
    }
    true
}

// All that is asked of a finished board but the block rules, on a problem and the states of its cells: every cell is decided, black cells are empty, given
// squares are square, and two squares or more stand on each arrow.
pub fn all_but_rules(problem: &Problem, cells: &[u8; 1024]) -> bool
    requires small { cells_in problem.now ≤ 1024 }
    requires drawn { IsDrawn problem.now (cells_in problem.now) }
    ensures { result ≡ passes problem.now cells.now }
{
    all_keep_given(problem, cells) && two_on_each(problem, |i| cells[i] == SQUARE)
}

// Whether a board is finished, on the leaf that is lent, whose problem is known to be accepted, and the states of its cells. On a board whose cells are all
// decided the block rules hold exactly when there is no reason against it.
pub fn is_finished(leaf: &LentLeaf<'_>, cells: &[u8; 1024]) -> bool
    requires formed { problem_formed leaf.now.problem.now ≡ true }
    ensures { result ≡ finished_test (leaf_of leaf.now) (leaf_cells leaf.now cells.now) }
{
    if !all_but_rules(leaf.problem, cells) {
        return false;
    }
    let mut buffer = reasons::no_literals();
    reasons::inconsistency::find_inconsistency(leaf, cells, &mut buffer).is_none()
}

// Whether the board is finished. Refused: 6 a board that no list of calls could leave. The board is unchanged.
pub fn finished(board: Board) -> Result<bool, Refusal>
    ensures { outcome_of result ≡ judged_as (finished_of board) }
{
    let leaf = board.leaf()?;
    Ok(is_finished(&leaf, &board.cells))
}
