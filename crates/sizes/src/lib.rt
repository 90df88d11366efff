// Sizes beside arrow cells: a list of 16-bit numbers, cell, lowest and highest for each, read into two arrays by cell; and the test of such arrays.
// And the edition that a puzzle is played in.
#![tactic(auto)]

ghost use Rattle.std.specs.Prelude.{◌≡◌, ◌≤◌, ◌*◌, cond, ◌&&◌, ℕ, List, [], eqb, leb, length, set, take};
ghost use Rattle.refusal.specs.Refusals.{Outcome, ok};
ghost use Rattle.fields.specs.Fields.{unless};
ghost use Rattle.fields.specs.Inside.{Agrees};
ghost use Rattle.groups.specs.Arrays.{marked, lines_of};
ghost use Rattle.grid.specs.Lists.{all, upto, last};
ghost use Rattle.record.specs.Record.{Puzzle};
ghost use Rattle.record.specs.Arrows.{on_arrow};
ghost use Rattle.record.specs.Leaf.{range_at, range_test};
ghost use Rattle.sizes.specs.Edition.{EditionOf, edition_number};
ghost use Rattle.sizes.specs.Bytes.{numbers_in};
ghost use Rattle.sizes.specs.Form.{sized_cell};
ghost use Rattle.sizes.specs.Lent.{ArrowArrays, SizesOn};
ghost use Rattle.sizes.specs.Kept.{Keeps};
ghost use Rattle.sizes.specs.Inside.{Drawn, HasNumber, number_at, ranges_said, sizes_said};

use grid::Grid;
use record::Problem;
use refusal::Refusal;

// The edition that a puzzle is played in: 1, or 2 for free growth.
#[derive(Clone, Copy, Debug, PartialEq, Eq)]
pub enum Edition {
    One = 1,
    Two,
}

impl Edition {
    // Its number. A method, as `Refusal::number`.
    pub fn number(self) -> u8
        ensures { result ≡ edition_number self }
    {
        self as u8
    }
}

impl TryFrom<u32> for Edition {
    type Error = Refusal;

    ghost try_from_gives = { EditionOf };

    #[tactic(auto, unfolding(record::specs::Leaf::is_edition))]
    fn try_from(number: u32) -> Result<Edition, Refusal> {
        match number {
            1 => Ok(Edition::One),
            2 => Ok(Edition::Two),
            _ => Err(Refusal::Edition),
        }
    }
}

impl TryFrom<u8> for Edition {
    type Error = Refusal;

    ghost try_from_gives = { EditionOf };

    fn try_from(number: u8) -> Result<Edition, Refusal> {
        Edition::try_from(u32::from(number))
    }
}

// The lowest and the highest size of each of the first cells, 0 at one that has none: two slices, since they are lent by a board, whose arrays come apart for C.
#[derive(Clone, Copy)]
pub struct SizeRanges<'a> {
    pub lowest: &'a [u16],
    pub highest: &'a [u16],
}

// A leaf as it is lent to what searches it: its problem, its edition and its sizes. A leaf without sizes lends empty slices. That the problem is formed is no fact
// of it: the search for a reason asks for less, and who needs it says so in a clause. The states of its cells come beside it: a search changes them while the leaf stays
// lent (`certain::search_from`).
#[derive(Clone, Copy)]
pub struct LentLeaf<'a> {
    pub problem: &'a Problem,
    // A number and no `Edition`: the search for a reason takes every number but 0, and plays all but 1 as 2, so that the enum would ask more of callers.
    pub edition: u8,
    pub sizes: SizeRanges<'a>,
    pub ghost tall: { problem.now.height ≤ 32 },
    pub ghost wide: { problem.now.width ≤ 32 },
    pub ghost arrows: { ArrowArrays (problem.now.height * problem.now.width) problem.now.arrows problem.now.ends problem.now.count
        (last 0 (take problem.now.count problem.now.ends)) },
    pub ghost played: { edition ≡ 0 → ⊥ },
    pub ghost sized: { SizesOn (problem.now.height * problem.now.width) (lines_of problem.now.arrows problem.now.ends problem.now.count) sizes.lowest.now sizes.highest.now },
}

impl LentLeaf<'_> {
    // Its grid.
    pub fn grid(&self) -> Grid
        ensures { (result.height ≡ self.now.problem.now.height) × (result.width ≡ self.now.problem.now.width) }
    {
        self.problem.grid()
    }
}

// A list of 16-bit numbers, however it stands in memory.
pub trait Numbers {
    ghost numbers: { Self → Outcome (List ℕ) };

    // How many there are, unless the list ends inside one.
    fn count(&self) -> Result<usize, Refusal>
        ensures { Agrees (numbers self.now) (λ ns count. count ≡ length ns) result };

    fn number(&self, k: usize) -> u16
        requires { HasNumber (numbers self.now) k }
        ensures { result ≡ number_at (numbers self.now) k };
}

// Numbers in words of 16 bits.
#[derive(Clone, Copy)]
pub struct Words<'a>(pub &'a [u16]);

impl Numbers for Words<'_> {
    ghost numbers = { λ words. ok words.0.now };

    fn count(&self) -> Result<usize, Refusal> {
        Ok(self.0.len())
    }

    fn number(&self, k: usize) -> u16 {
        self.0[k]
    }
}

// Numbers in bytes, two each, the most significant first; an odd byte is a list that ends inside one.
#[derive(Clone, Copy)]
pub struct Bytes<'a>(pub &'a [u8]);

impl Numbers for Bytes<'_> {
    ghost numbers = { λ bytes. numbers_in bytes.0.now };

    fn count(&self) -> Result<usize, Refusal> {
        if self.0.len() % 2 != 0 {
            return Err(Refusal::Sizes);
        }
        Ok(self.0.len() / 2)
    }

    #[tactic(auto, using(crate::proofs::NumbersLaws::number_inside, crate::proofs::NumbersLaws::number_read))]
    fn number(&self, k: usize) -> u16 {
        u16::from_be_bytes([self.0[2 * k], self.0[2 * k + 1]])
    }
}

// A range to be put beside a cell.
#[derive(Clone, Copy)]
struct CellRange {
    cell: usize,
    least: u16,
    most: u16,
}

// The lowest and the highest size of each cell, 0 at one that has none, as the two arrays of a board have them for C.
#[derive(Clone, Copy, Debug, PartialEq, Eq)]
pub struct CellSizes {
    pub lowest: [u16; 1024],
    pub highest: [u16; 1024],
}

impl CellSizes {
    // Those of cells that have none.
    #[tactic(auto, using(crate::proofs::KeptLaws::array_none))]
    fn none() -> CellSizes
        ensures { Keeps [] result }
    {
        CellSizes {
            lowest: [0; 1024],
            highest: [0; 1024],
        }
    }

    // Reads the sizes of a puzzle: cell, lowest and highest for each, cells rising. Refused: a list that ends inside a range, or a range that starts at
    // 0, is upside down, sits off an arrow or doesn't rise above the cell before it.
    pub fn read<N: Numbers>(problem: &Problem, numbers: &N) -> Result<CellSizes, Refusal>
        requires drawn { (p : Puzzle) × Drawn p problem.now.arrows problem.now.ends problem.now.count }
        ensures { (p : Puzzle) → Drawn p problem.now.arrows problem.now.ends problem.now.count
            → Agrees (sizes_said p (N.numbers numbers.now)) Keeps result }
    {
        if numbers.count()? == 0 {
            return Ok(CellSizes::none());
        }
        let marks = groups::mark_arrow_cells(&problem.arrows[..problem.arrow_total()]);
        CellSizes::read_ranges(numbers, &marks)
    }

    // Reads the ranges in the numbers, three numbers each, up to the first that may not stand.
    fn read_ranges<N: Numbers>(numbers: &N, marks: &[u8; 1024]) -> Result<CellSizes, Refusal>
        ensures { Agrees (ranges_said (marked marks.now) (N.numbers numbers.now)) Keeps result }
    {
        let count = numbers.count()?;
        let mut sizes = CellSizes::none();
        let mut from = 0;
        // By index: `Numbers` tells its numbers one by one, and has no slice of which `chunks` could be taken.
        for k in 0..count / 3 {
            let range = CellRange {
                cell: usize::from(numbers.number(3 * k)),
                least: numbers.number(3 * k + 1),
                most: numbers.number(3 * k + 2),
            };
            sizes.take_range(marks, from, range)?;
            from = range.cell + 1;
        }
        if count % 3 != 0 {
            return Err(Refusal::Sizes);
        }
        Ok(sizes)
    }

    // Puts one range beside its cell, if it may stand: it sits on an arrow, its cell is `from` or more, it does not start at 0 and is not upside down.
    #[tactic(auto, using(crate::proofs::ReadLaws::range_tests))]
    fn take_range(
        &mut self,
        marks: &[u8; 1024],
        from: usize,
        range: CellRange,
    ) -> Result<(), Refusal>
        ensures { Agrees (unless (range_test (marked marks.now) from (range_at range.cell range.least range.most)) 22)
            (λ _ _. (self.new.lowest ≡ set self.old.lowest range.cell range.least) × (self.new.highest ≡ set self.old.highest range.cell range.most)) result }
    {
        let CellRange { cell, least, most } = range;
        if 1024 <= cell || marks[cell] != 1 || cell < from || least == 0 || most < least {
            return Err(Refusal::Sizes);
        }
        self.lowest[cell] = least;
        self.highest[cell] = most;
        Ok(())
    }
}

// ---- the test of the arrays

// Whether a cell with this mark may have these sizes: both are 0, or it is marked and they are not upside down.
fn sized(mark: u8, low: u16, high: u16) -> bool
    ensures { result ≡ cond (eqb low 0) (eqb high 0) (leb low high && eqb mark 1) }
{
    if low == 0 {
        return high == 0;
    }
    if high < low {
        return false;
    }
    mark == 1
}

// Whether the arrays keep sizes that may stand on a puzzle. Where no cell has a lowest size, as on a leaf without sizes, its arrows are not asked for.
// They come apart, as the fields of a board do for C. By `fold`, as `form::filled`.
pub fn may_stand(problem: &Problem, lowest: &[u16; 1024], highest: &[u16; 1024]) -> bool
    requires drawn { (p : Puzzle) × Drawn p problem.now.arrows problem.now.ends problem.now.count }
    ensures { (p : Puzzle) → Drawn p problem.now.arrows problem.now.ends problem.now.count
        → result ≡ all (sized_cell (on_arrow p.arrows) lowest.now highest.now) (upto 1024) }
{
    if form::zeros(lowest, 0) {
        return form::zeros(highest, 0);
    }
    let marks = groups::mark_arrow_cells(&problem.arrows[..problem.arrow_total()]);
    marks
        .iter()
        .zip(lowest)
        .zip(highest)
        .fold(true, |good, ((&mark, &low), &high)| {
            good & sized(mark, low, high)
        })
}
