// Turning the record of a leaf: the cells and arrows of its puzzle go to their turned places, and the record is written again.
#![tactic(auto)]

ghost use Rattle.std.specs.Prelude.{◌≡◌, map, ℕ, ◌+◌, ◌-◌, ◌*◌, ◌≤◌, ◌<◌, leb, length, get_or};
ghost use Rattle.grid.specs.Lists.{array_of};
ghost use Rattle.grid.specs.Side.{sized};
ghost use Rattle.record.specs.Valid.{Valid};
ghost use Rattle.exported.specs.Written.{written, output_with, Writes};
ghost use Rattle.turn.specs.Turn.{turned_by, carried, flip_if, turned, turn_record};
ghost use Rattle.turn.specs.Inside.{step_of, spun};

use form::accepted::Accepted;
use grid::Grid;
use record::Problem;
use refusal::Refusal;

// A step of a turning: a quarter turn clockwise, or left and right flipped.
#[derive(Clone, Copy, Debug, PartialEq, Eq)]
enum Move {
    Quarter,
    Flip,
}

// The cell at row y, column x.
fn cell_at(grid: Grid, y: usize, x: usize) -> usize
    requires { (y < grid.height) × (x < grid.width) }
    ensures { (result ≡ y * grid.width + x) × (result < 1024) }
{
    y * grid.width + x
}

// As far from the end as x is from the start.
fn mirrored(x: usize, n: usize) -> usize
    requires { x < n }
    ensures { (result ≡ n - 1 - x) × (result < n) }
{
    n - 1 - x
}

// Rows for columns.
fn swapped(grid: Grid) -> Grid
    ensures { (result.height ≡ grid.width) × (result.width ≡ grid.height) }
{
    Grid {
        height: grid.width,
        width: grid.height,
    }
}

impl Move {
    // The moved grid.
    fn to_grid(self, grid: Grid) -> Grid
        ensures { sized result.height result.width ≡ (step_of self (sized grid.height grid.width)).grid }
    {
        match self {
            Move::Quarter => swapped(grid),
            Move::Flip => grid,
        }
    }

    // The cell that the cell i goes to.
    #[tactic(auto, unfolding(crate::specs::Turn::flip_cell, crate::specs::Turn::quarter_cell, grid::specs::Grid::row, grid::specs::Grid::col))]
    fn to_cell(self, grid: Grid, i: usize) -> usize
        requires { i < grid.height * grid.width }
        ensures { (result ≡ (step_of self (sized grid.height grid.width)).to i) × (result < 1024) }
    {
        let y = grid.row(i);
        let x = grid.column(i);
        match self {
            Move::Quarter => cell_at(swapped(grid), x, mirrored(y, grid.height)),
            Move::Flip => cell_at(grid, y, mirrored(x, grid.width)),
        }
    }

    // The cell that comes to the cell j.
    #[tactic(auto, unfolding(crate::specs::Turn::flip_cell, crate::specs::Turn::quarter_from, grid::specs::Grid::row, grid::specs::Grid::col))]
    fn from_cell(self, grid: Grid, j: usize) -> usize
        requires { j < grid.height * grid.width }
        ensures { (result ≡ (step_of self (sized grid.height grid.width)).from j) × (result < 1024) }
    {
        match self {
            Move::Quarter => {
                let turned = swapped(grid);
                let y = mirrored(turned.column(j), grid.height);
                cell_at(grid, y, turned.row(j))
            }
            Move::Flip => cell_at(grid, grid.row(j), mirrored(grid.column(j), grid.width)),
        }
    }

    // The codes of the cells, each at its new place. By index, as `line` below: of places that are written through `iter_mut().enumerate()` a proof does not
    // know what they hold.
    #[tactic(auto, using(grid::proofs::FilledLaws::filled_more))]
    fn codes(self, grid: Grid, cells: &[u8; 1024]) -> [u8; 1024]
        ensures { result ≡ array_of 0 (carried (step_of self (sized grid.height grid.width)) cells.now) }
    {
        let mut moved = [0; 1024];
        for j in 0..grid.size() {
            moved[j] = cells[self.from_cell(grid, j)];
        }
        moved
    }

    // The cells of the arrows, moved.
    #[tactic(auto, using(crate::proofs::ArrayLaws::moved_more))]
    fn line(self, grid: Grid, line: &[u16]) -> [u16; 1024]
        requires { (length line.now ≤ 1024) × ((t : ℕ) → t < length line.now → get_or line.now t 0 < grid.height * grid.width) }
        ensures { result ≡ array_of 0 (map (step_of self (sized grid.height grid.width)).to line.now) }
    {
        let mut moved = [0; 1024];
        for (t, &cell) in line.iter().enumerate() {
            moved[t] = self.to_cell(grid, usize::from(cell)) as u16;
        }
        moved
    }

    // Moves the puzzle. In place, and not returned: what is returned is cleared and copied, and a turning on 6 by 6 cells, which takes 22,000 instructions, would
    // take 7,000 more.
    fn step(self, puzzle: &mut Accepted)
        ensures { puzzle.new ≡ turned_by (step_of self puzzle.old.grid) puzzle.old }
    {
        let grid = puzzle.problem.grid();
        let moved = self.to_grid(grid);
        let total = puzzle.problem.arrow_total();
        puzzle.problem.cells = self.codes(grid, &puzzle.problem.cells);
        puzzle.problem.arrows = self.line(grid, &puzzle.problem.arrows[..total]);
        puzzle.problem.height = moved.height;
        puzzle.problem.width = moved.width;
    }
}

// Flips the puzzle where k is 4 or more.
#[tactic(auto, using(crate::proofs::AnswerLaws::flip_taken, crate::proofs::AnswerLaws::flip_left))]
fn flip(puzzle: &mut Accepted, k: u32)
    ensures { Valid puzzle.old → puzzle.new ≡ turned_by (flip_if (leb 4 k) puzzle.old.grid) puzzle.old }
{
    if 4 <= k {
        Move::Flip.step(puzzle);
    }
}

// Makes some quarter turns of the puzzle.
#[tactic(auto, using(crate::proofs::AnswerLaws::spun_none, crate::proofs::AnswerLaws::spun_more))]
fn spin(puzzle: &mut Accepted, times: u32)
    ensures { puzzle.new ≡ spun times puzzle.old }
{
    for _ in 0..times {
        Move::Quarter.step(puzzle);
    }
}

// Turns the puzzle by k.
#[tactic(auto, using(crate::proofs::StepLaws::turned_steps))]
fn turn_puzzle(puzzle: &mut Accepted, k: u32)
    ensures { Valid puzzle.old → puzzle.new ≡ turned k puzzle.old }
{
    flip(puzzle, k);
    spin(puzzle, k % 4);
}

// Turns a record by k into a lent output: the record's refusals, then 14 for k above 7, then 15 for an output that is shorter than the record.
fn write_turned(record: &[u8], k: u32, output: &mut [u8]) -> Result<usize, Refusal>
    ensures { Writes (turn_record k (length output.old) «record».now) result output.old output.new }
{
    let mut puzzle = Accepted::read(record)?;
    if 7 < k {
        return Err(Refusal::Turning);
    }
    if output.len() < record.len() {
        return Err(Refusal::RecordOutputShort);
    }
    turn_puzzle(&mut puzzle, k);
    Ok(writer::write(&puzzle, output))
}

// Turns a record by k, from 0 to 7, into a lent output: flipped left and right first if k is 4 or more, then k modulo 4 quarter turns
// clockwise. Returns the number of bytes, which is the record's, or the negated number of a refusal, which leaves the output as it was.
pub fn turn(record: &[u8], k: u32, output: &mut [u8]) -> i32
    ensures { (result ≡ written (turn_record k (length output.old) «record».now))
        × (output.new ≡ output_with (turn_record k (length output.old) «record».now) output.old) }
{
    refusal::returned(write_turned(record, k, output))
}
