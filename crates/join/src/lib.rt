// Joining the records of two leaves of equal height: the left grid, a column of black cells and the right grid, written as one record.
#![tactic(auto)]

ghost use Rattle.std.specs.Prelude.{◌≡◌, map, ℕ, ◌+◌, ◌*◌, ◌≤◌, length, All};
ghost use Rattle.grid.specs.Lists.{upto, array_of};
ghost use Rattle.record.specs.Problem.{problem_of};
ghost use Rattle.exported.specs.Written.{written, output_with, Writes};
ghost use Rattle.join.specs.Join.{placed, code_beside, joined, join_puzzles, join_record};
ghost use Rattle.join.specs.Inside.{SideBySide, Spot, Placing, code_on, Gives, Behind};

use form::accepted::Accepted;
use record::{BLACK, Problem};
use refusal::Refusal;

// A grid of `width` columns that stands from the column `from` on among `total` columns.
#[derive(Clone, Copy, Debug, PartialEq, Eq)]
struct Stand {
    from: usize,
    width: usize,
    total: usize,
}

impl Stand {
    // Where the cell i of the grid comes.
    #[tactic(auto, unfolding(crate::specs::Join::placed))]
    fn place(self, i: u16) -> u16
        requires { Placing self.from self.width self.total i }
        ensures { result ≡ placed self.from self.width self.total i }
    {
        let i = usize::from(i);
        (i / self.width * self.total + (self.from + i % self.width)) as u16
    }
}

// The code at a row and a column of the joined grid: the left's, black in the column between, the right's.
#[tactic(auto, unfolding(crate::specs::Join::code_beside))]
fn code_at(left: &Problem, right: &Problem, y: usize, x: usize) -> u8
    requires { Spot left.now.width right.now.width y x }
    ensures { result ≡ code_beside left.now.cells left.now.width right.now.cells right.now.width y x }
{
    if x < left.width {
        return left.cells[y * left.width + x];
    }
    if x == left.width {
        return BLACK;
    }
    right.cells[y * right.width + (x - (left.width + 1))]
}

// The codes of the joined grid. By index: of places that are written through `iter_mut().enumerate()` a proof does not know what they hold.
fn join_codes(left: &Problem, right: &Problem) -> [u8; 1024]
    requires { SideBySide left.now.height left.now.width right.now.width }
    ensures { result ≡ array_of 0 (map (code_on left.now right.now) (upto (left.now.height * (left.now.width + 1 + right.now.width)))) }
{
    let width = left.width + 1 + right.width;
    let mut codes = [0; 1024];
    for j in 0..left.height * width {
        codes[j] = code_at(left, right, j / width, j % width);
    }
    codes
}

// Puts what F makes of each number of a list behind the first `at` numbers of an array, by their places as in `join_codes`. A place `at`,
// and no slice from there: the promise speaks of the whole array.
fn append<F: Fn(u16) -> u16>(list: &[u16], at: usize, line: &mut [u16; 1024], each: F)
    requires { (at + length list.now ≤ 1024) × All (F.pre each) list.now }
    ensures { (G : ℕ → ℕ) → Gives (F.post each) G list.now → Behind at G list.now line.old line.new }
{
    for (k, &number) in list.iter().enumerate() {
        line[at + k] = each(number);
    }
}

// The joined puzzle, in arrays.
fn put_beside(left: &Accepted, right: &Accepted) -> Problem
    requires level { left.now.grid.height ≡ right.now.grid.height }
    requires wide { left.now.grid.width + 1 + right.now.grid.width ≤ 32 }
    ensures { result ≡ problem_of (joined left.now right.now) }
{
    let first = &left.problem;
    let second = &right.problem;
    let width = first.width + 1 + second.width;
    let left_total = first.arrow_total();
    let right_total = second.arrow_total();
    let here = Stand {
        from: 0,
        width: first.width,
        total: width,
    };
    let there = Stand {
        from: first.width + 1,
        width: second.width,
        total: width,
    };
    let mut arrows = [0; 1024];
    append(&first.arrows[..left_total], 0, &mut arrows, |i| {
        here.place(i)
    });
    append(
        &second.arrows[..right_total],
        left_total,
        &mut arrows,
        |i| { there.place(i) },
    );
    let by = left_total as u16;
    let mut ends = first.ends;
    append(
        &second.ends[..second.count],
        first.count,
        &mut ends,
        |end| { by + end },
    );
    Problem {
        height: first.height,
        width,
        cells: join_codes(first, second),
        arrows,
        ends,
        count: first.count + second.count,
    }
}

// Joins two puzzles into a lent output: 18 for unequal heights, 19 for a joined width above 32, 15 for an output that is too short.
fn write_joined(left: &Accepted, right: &Accepted, output: &mut [u8]) -> Result<usize, Refusal>
    ensures { Writes (join_puzzles (length output.old) left.now right.now) result output.old output.new }
{
    let width = left.problem.width + 1 + right.problem.width;
    if left.problem.height != right.problem.height {
        return Err(Refusal::UnequalHeights);
    }
    if 32 < width {
        return Err(Refusal::TooWide);
    }
    let whole = Accepted {
        problem: put_beside(left, right),
    };
    let length = whole.problem.record_length();
    if output.len() < length {
        return Err(Refusal::RecordOutputShort);
    }
    Ok(writer::write(&whole, output))
}

// Joins two records into a lent output: the left's own refusals, the right's, and then those of the two puzzles.
fn join_records(left: &[u8], right: &[u8], output: &mut [u8]) -> Result<usize, Refusal>
    ensures { Writes (join_record (length output.old) left.now right.now) result output.old output.new }
{
    let first = Accepted::read(left)?;
    let second = Accepted::read(right)?;
    write_joined(&first, &second, output)
}

// Joins two records into a lent output: the left grid, a column of black cells, the right grid, the left's arrows and then the right's. Returns the
// number of bytes of the joined record, or the negated number of a refusal, which leaves the output as it was.
pub fn join(left: &[u8], right: &[u8], output: &mut [u8]) -> i32
    ensures { (result ≡ written (join_record (length output.old) left.now right.now))
        × (output.new ≡ output_with (join_record (length output.old) left.now right.now) output.old) }
{
    refusal::returned(join_records(left, right, output))
}
