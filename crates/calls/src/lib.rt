// The calls that open a record, in an edition with sizes, and ask something of its leaf, a module for each; and here what they share: how the record is
// opened and its leaf lent, and how decisions are made in order on its fresh board. Of the board they keep no more than the states of its cells.
#![tactic(auto)]

pub mod board_shades;
pub mod certain_cells;
pub mod first_reason;
pub mod is_finished;

ghost use Rattle.std.specs.Prelude.{◌≡◌, true, ℕ, ◌<◌, ◌^◌, [], List};
ghost use Rattle.std.specs.Result.{ForOk};
ghost use Rattle.std.specs.declared.result.Result.{Result};
ghost use Rattle.grid.specs.Lists.{array_of};
ghost use Rattle.grid.specs.Side.{sized};
ghost use Rattle.refusal.specs.declared.Refusal.{Refusal};
ghost use Rattle.fields.specs.Inside.{Agrees};
ghost use Rattle.record.specs.Leaf.{Leaf, in_edition, leaf_with};
ghost use Rattle.record.specs.Problem.{puzzle_of};
ghost use Rattle.form.specs.Form.{problem_formed};
ghost use Rattle.sizes.specs.Edition.{edition_number};
ghost use Rattle.sizes.specs.LeafOf.{leaf_of};
ghost use Rattle.board.specs.Board.{cells_after};
ghost use Rattle.calls.specs.Call.{decide_bytes, leaf_from};
ghost use Rattle.calls.specs.Inside.{leaf_in, Told, SizesFit, sized_leaf};

use board::Board;
use grid::{Grid, UNDECIDED};
use record::Problem;
use refusal::Refusal;
use sizes::{Bytes, CellSizes, Edition, LentLeaf, SizeRanges};

// The states of the cells of a grid's fresh board, which are all undecided, after the decisions in order.
pub fn decide_in_order(grid: Grid, decisions: &[u8]) -> Result<[u8; 1024], Refusal>
    requires { (0 < grid.height) × (0 < grid.width) }
    ensures { Agrees (decide_bytes (sized grid.height grid.width) [] decisions.now) (λ ds cells. cells ≡ array_of 2 (cells_after (sized grid.height grid.width) ds)) result }
{
    let mut cells = [UNDECIDED; 1024];
    let mut order = [0; Board::CELLS];
    let mut decided = 0;
    board::place_all(&mut cells, &mut order, grid.size(), &mut decided, decisions)?;
    Ok(cells)
}

// What a call asks of the leaf that it opened. The calls themselves, `find_with`, `certain_with` and `finished_with`, are one line each over `ask` and differ
// in what their results mean: one function for the three would have to say it in the question's words, and each call again in its own.
pub trait Question {
    // what is said of a leaf: the output before and after, and the answer
    ghost told: { Self → Leaf → List ℕ → List ℕ → Result ℕ Refusal → Type 0 };

    fn ask(&self, leaf: &LentLeaf<'_>, output: &mut [u8]) -> Result<usize, Refusal>
        requires { problem_formed leaf.now.problem.now ≡ true }
        ensures told { told self.now (leaf_of leaf.now) output.old output.new result }
        ensures few { ForOk result (λ n. n < 2 ^ 31) };
}

// The leaf of an accepted record in an edition, without sizes.
pub fn bare(problem: &Problem, edition: Edition) -> LentLeaf<'_>
    requires formed { problem_formed problem.now ≡ true }
    ensures leaf { leaf_of result ≡ in_edition (edition_number edition) (puzzle_of problem.now) }
    ensures problem { result.problem.now ≡ problem.now }
{
    LentLeaf {
        problem,
        edition: edition.number(),
        sizes: SizeRanges {
            lowest: &[],
            highest: &[],
        },
    }
}

// Asks of the leaf with these sizes. It is put together here, of parts that are lent for one time: where the sizes are read, the check of borrows covers no
// leaf, since its sizes are lent for less than the problem.
fn ask_on<Q: Question>(
    problem: &Problem,
    edition: Edition,
    sizes: SizeRanges<'_>,
    question: &Q,
    output: &mut [u8],
) -> Result<usize, Refusal>
    requires formed { problem_formed problem.now ≡ true }
    requires sized { SizesFit problem.now sizes }
    ensures told { Q.told question.now (sized_leaf problem.now (edition_number edition) sizes.entry) output.old output.new result }
    ensures few { ForOk result (λ n. n < 2 ^ 31) }
{
    let leaf = LentLeaf {
        problem,
        edition: edition.number(),
        sizes,
    };
    question.ask(&leaf, output)
}

// Reads the sizes, and asks of the leaf with them: 22, then as without. It is a function of its own so that a call without sizes has no arrays for them.
#[inline(never)]
#[tactic(auto, using(crate::proofs::Opening::formed_few))]
fn ask_sized<Q: Question>(
    problem: &Problem,
    edition: Edition,
    sizes: &[u8],
    question: &Q,
    output: &mut [u8],
) -> Result<usize, Refusal>
    requires formed { problem_formed problem.now ≡ true }
    ensures told { Told (leaf_in (edition_number edition) sizes.now (puzzle_of problem.now)) (Q.told question.now) output.old output.new result }
    ensures few { ForOk result (λ n. n < 2 ^ 31) }
{
    let sizes = CellSizes::read(problem, &Bytes(sizes))?;
    // The product by hand: `Problem::size` would ask for the two limits of a formed problem, each by an answer of its own.
    let n = problem.height * problem.width;
    let ranges = SizeRanges {
        lowest: &sizes.lowest[..n],
        highest: &sizes.highest[..n],
    };
    ask_on(problem, edition, ranges, question, output)
}

// Opens the record in an edition with sizes, and asks of its leaf: the record's refusals, 1 to 5, then 16 for another edition than 1 and 2, then 22 for
// sizes that may not stand, each of which leaves the output as it was, then what the question answers. `edition` and `sizes` are the parameters of the exported
// calls, as C has them.
pub fn ask<Q: Question>(
    record: &[u8],
    edition: u32,
    sizes: &[u8],
    question: &Q,
    output: &mut [u8],
) -> Result<usize, Refusal>
    ensures told { Told (leaf_from «record».now edition sizes.now) (Q.told question.now) output.old output.new result }
    ensures few { ForOk result (λ n. n < 2 ^ 31) }
{
    let mut problem = Problem::new();
    problem.read_record_in(record)?;
    let edition = Edition::try_from(edition)?;
    if sizes.is_empty() {
        return question.ask(&bare(&problem, edition), output);
    }
    ask_sized(&problem, edition, sizes, question, output)
}
