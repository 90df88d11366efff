// The test of a board's decisions: whether the states of its cells and their order are those of decisions on them.

ghost use Rattle.std.specs.Prelude.{◌≡◌, cond, ◌&&◌, List, ℕ, ◌≤◌, eqb, leb, take};
ghost use Rattle.grid.specs.Lists.{all, upto, member};
ghost use Rattle.grid.specs.Marks.{Marks};
ghost use Rattle.form.specs.Form.{shown, stated, ordered};

use grid::UNDECIDED;

// Whether the state is right for a cell with this mark: empty or square where it is marked, else undecided.
fn right(mark: u8, state: u8) -> bool
    ensures { result ≡ cond (eqb mark 0) (eqb state 2) (leb state 1) }
{
    if mark == 0 {
        return state == UNDECIDED;
    }
    state < UNDECIDED
}

// Whether just the marked cells of the first n are decided. By `fold`, as `form::filled`.
fn all_right(cells: &[u8; 1024], marks: &[u8; 1024], n: usize) -> bool
    requires { n ≤ 1024 }
    ensures { (listed : List ℕ) → Marks marks.now (λ i. member i listed) → result ≡ all (shown listed cells.now) (upto n) }
{
    marks[..n]
        .iter()
        .zip(&cells[..n])
        .fold(true, |good, (&mark, &state)| good & right(mark, state))
}

// Whether the states of the n cells and the order of the decisions agree. It is lent the arrays and not the board: behind a call that is lent the whole board
// `is_formed` no longer knows that the counts of hints are of 16 bits.
#[tactic(auto, using(crate::proofs::DecisionLaws::decision_tests))]
pub fn good_decisions(n: usize, decided: usize, cells: &[u8; 1024], order: &[u16; 1024]) -> bool
    requires { n ≤ 1024 }
    ensures { result ≡ (ordered n decided order.now && stated n (take decided order.now) cells.now) }
{
    if 1024 < decided {
        return false;
    }
    let Some(marks) = form::mark(&order[..decided], n) else {
        return false;
    };
    form::zeros(order, decided) && all_right(cells, &marks, n) && form::filled(cells, n, UNDECIDED)
}
