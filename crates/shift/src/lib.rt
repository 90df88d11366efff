// The shift test of reason 3: whether some shift of one arrow block lies wholly in the reach of another.
#![tactic(auto)]

ghost use Rattle.std.specs.Prelude.{◌≡◌, List, ℕ, ◌+◌, ◌*◌, ◌/◌, ◌%◌, ◌<◌, length};
ghost use Rattle.std.specs.Int.Signed.{mag};
ghost use Rattle.grid.specs.Lists.{any};
ghost use Rattle.kinds.specs.Kinds.{block};
ghost use Rattle.kinds.specs.Board.{cell_count, board_with, KindsAre, NamesBlock};
ghost use Rattle.reach.specs.Board.{BlockSize};
ghost use Rattle.shift.specs.Fits.{shift_fits};
ghost use Rattle.shift.specs.Shift.{block_on, Places, BlockPlaces, lands_in};

use kinds::ARROW_BLOCK;
use reach::near::Floats;
use reach::{Linked, NO_CELL};

// What the shift test works in, whatever stands there: floating groups, and the rows and the columns of a block's cells. These are two arrays of numbers and none of
// places, since they are arrays that have served for something else and are lent on: no memory is taken for them.
#[derive(Drop)]
pub struct Work<'a> {
    pub floats: Floats<'a>,
    pub rows: &'a mut [u16; 1024],
    pub columns: &'a mut [u16; 1024],
}

// The cells of an arrow block, by their rows and their columns.
#[derive(Clone, Copy)]
struct Block<'a, 'b> {
    linked: Linked<'a>,
    rows: &'b [u16],
    columns: &'b [u16],
    ghost places: { Places linked.info.grid.height linked.info.grid.width rows.now columns.now },
}

// A block whose first cell is at this row and column, and that is to be shifted into the reach of the block named e, in which `near` marks the floating groups.
#[derive(Clone, Copy)]
struct ShiftTest<'a, 'b> {
    block: Block<'a, 'b>,
    row: usize,
    column: usize,
    near: &'b [u8; 1024],
    e: u16,
    ghost first: { (row < block.linked.info.grid.height) × (column < block.linked.info.grid.width) },
}

// The rows and the columns of the cells of the arrow block named f, by rising index. They are the cells of kind 1 of its chain, and the slices have room for just
// these, so that the walk along the chain ends with the last of them.
fn gather_block(linked: &Linked<'_>, f: u16, rows: &mut [u16], columns: &mut [u16])
    requires name { f < cell_count linked.now.info }
    requires rows { length rows.old ≡ length (block_on linked.now.info f) }
    requires columns { length columns.old ≡ length rows.old }
    ensures { BlockPlaces linked.now.info.grid.width (block_on linked.now.info f) rows.new columns.new }
{
    // By `w` and not by `Grid::row` and `Grid::column`: these ask that i is on the grid, and the walk knows of its next cell that it is below 1,024.
    let w = linked.info.grid.width;
    let mut k = 0;
    let mut i = usize::from(linked.head[usize::from(f)]);
    // A `while`: the next cell stands in the chain, and in no range.
    while k < rows.len() {
        if linked.info.kinds[i] == ARROW_BLOCK {
            rows[k] = (i / w) as u16;
            columns[k] = (i % w) as u16;
            k += 1;
        }
        i = usize::from(linked.next[i]);
    }
}

impl ShiftTest<'_, '_> {
    ghost use Rattle.shift.specs.Test.{board, HasPlace, shifted, in_reach, fits_by, fits_at, group};

    // Whether the cell at row y, column x comes into the reach by the offset.
    #[tactic(auto, using(crate::proofs::Shifts::shifted_inside, grid::proofs::SideLaws::area), unfolding(crate::specs::Shift::lands_in))]
    fn lands_in(&self, y: usize, x: usize, dy: i32, dx: i32) -> bool
        requires place { HasPlace self.now y x }
        requires offsets { (mag dy < 1024) × (mag dx < 1024) }
        ensures { result ≡ lands_in (in_reach self.now) (shifted self.now y x dy dx) }
    {
        let info = self.block.linked.info;
        // A `match`: the test asks that the cell is on the grid, which a closure of `is_some_and` would have to ask again.
        match info.grid.shifted(y, x, dy, dx) {
            Some(d) => reach::in_reach(&info, self.near, self.e, d),
            None => false,
        }
    }

    // Whether all cells of the block come into the reach by the offset.
    fn fits_by(&self, dy: i32, dx: i32) -> bool
        requires offsets { (mag dy < 1024) × (mag dx < 1024) }
        ensures { result ≡ fits_by self.now dy dx }
    {
        let Block { rows, columns, .. } = self.block;
        let mut places = rows.iter().zip(columns);
        places.all(|(&y, &x)| self.lands_in(usize::from(y), usize::from(x), dy, dx))
    }

    // Whether the shift that takes the block's first cell to cell t takes all of its cells into the reach.
    #[tactic(auto, unfolding(crate::specs::Shift::fits_at))]
    fn fits_at(&self, t: usize) -> bool
        requires cell { t < cell_count (board self.now) }
        ensures { result ≡ fits_at self.now t }
    {
        let info = self.block.linked.info;
        let dy = grid::offset(self.row, info.grid.row(t));
        let dx = grid::offset(self.column, info.grid.column(t));
        self.fits_by(dy, dx)
    }

    // The same for some cell t of the group named m.
    fn fits_chain(&self, m: u16) -> bool
        requires name { m < 1024 }
        ensures { result ≡ any (fits_at self.now) (group self.now m) }
    {
        let mut t = usize::from(self.block.linked.head[usize::from(m)]);
        // A `while`: the next cell stands in the chain, and in no range.
        while t < usize::from(NO_CELL) {
            if self.fits_at(t) {
                return true;
            }
            t = usize::from(self.block.linked.next[t]);
        }
        false
    }
}

impl Block<'_, '_> {
    // Whether some shift of the block, whose first cell is f, lies wholly in the reach of the block named e. The reach has the cells of the chain of that block and
    // those of the chains of the floating groups near it.
    fn fits(&self, f: usize, e: u16, floats: &mut Floats<'_>) -> bool
        requires first { f < cell_count self.now.linked.info }
        requires name { e < 1024 }
        ensures { let info = self.now.linked.info in (lines : List (List ℕ)) (cells : List ℕ) → KindsAre info (board_with info lines cells)
            → NamesBlock info e
            → BlockPlaces info.grid.width (block (board_with info lines cells) f) self.now.rows.now self.now.columns.now
            → result ≡ shift_fits (board_with info lines cells) f e }
    {
        let count = floats.list_near(&self.linked, e);
        let groups = &*floats.groups;
        let test = ShiftTest {
            block: *self,
            row: self.linked.info.grid.row(f),
            column: self.linked.info.grid.column(f),
            near: floats.near,
            e,
        };
        test.fits_chain(e) || groups[..count].iter().any(|&m| test.fits_chain(m))
    }
}

// Whether some shift of the arrow block named f lies wholly in the reach of the arrow block named e. `squares` has the size of the block f.
#[tactic(auto, using(crate::proofs::Shifts::block_small, crate::proofs::Shifts::gathered_inside), unfolding(crate::specs::Shift::block_in))]
pub fn shift_fits(
    linked: &Linked<'_>,
    squares: &[u16; 1024],
    f: u16,
    e: u16,
    work: &mut Work<'_>,
) -> bool
    requires blocks { (f < cell_count linked.now.info) × (e < 1024) }
    requires squares { BlockSize linked.now.info squares.now f }
    ensures { let info = linked.now.info in (lines : List (List ℕ)) (cells : List ℕ) → KindsAre info (board_with info lines cells)
        → NamesBlock info e → result ≡ shift_fits (board_with info lines cells) f e }
{
    let count = usize::from(squares[usize::from(f)]);
    // Each array by itself first: of one behind two references the check of borrows covers no part.
    let all_rows = &mut *work.rows;
    let all_columns = &mut *work.columns;
    let rows = &mut all_rows[..count];
    let columns = &mut all_columns[..count];
    gather_block(linked, f, rows, columns);
    let block = Block {
        linked: *linked,
        rows,
        columns,
    };
    block.fits(usize::from(f), e, &mut work.floats)
}
