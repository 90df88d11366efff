// A grid's cells, their four neighbours, and signed moves that stop at the edges.
#![tactic(auto)]

ghost use Rattle.std.specs.Prelude.{◌≡◌, cond, ◌+◌, ◌*◌, ◌/◌, ◌%◌, ◌≤◌, ◌<◌, pos, ◌-ℤ◌, IfSome};
ghost use Rattle.std.specs.Int.Signed.{mag};
ghost use Rattle.grid.specs.Side.{sized, moved_of, shifted_of, beside_of};

// The states of a cell. Numbers, and no enum: C is lent them in a `Board`.
// Where a proof has that a number fits, `as` makes it narrower (a cell in 16 bits, a bit, a byte of a sum): `try_from` would have an arm that can't come.
pub const EMPTY: u8 = 0;

pub const SQUARE: u8 = 1;

pub const UNDECIDED: u8 = 2;

// Marks of cells and of names are bytes, 1 where something is marked and 0 elsewhere, and no bools: the definitions have them as numbers (grid/specs/Marks), one
// definition tells squares and marked cells (groups/specs/Arrays, marked), and `replay::Cursor::cells_differ` holds either against the bytes of a list.

// A grid of at most 32 by 32 cells.
#[derive(Clone, Copy, Debug, PartialEq, Eq)]
pub struct Grid {
    pub height: usize,
    pub width: usize,
    pub ghost tall: { height ≤ 32 },
    pub ghost wide: { width ≤ 32 },
}

// The four directions, by their codes in a record. Numbers, and no enum: the definitions have them so (grid/specs/Side, beside_of, towards), and each contract would
// turn an enum into its number. It would be no slower: over an array of one a flood takes 54,200 instructions against 52,900, and as long.
pub const UP: usize = 0;

pub const DOWN: usize = 1;

pub const LEFT: usize = 2;

pub const RIGHT: usize = 3;

// The row and the column offset of each direction.
const OFFSETS: [[i32; 2]; 4] = [[-1, 0], [1, 0], [0, -1], [0, 1]];

// One of two numbers. A function of its own, so that it can be compiled without a branch: the choice is hard to predict where it is used.
pub fn pick(first: bool, a: u16, b: u16) -> u16
    ensures { result ≡ cond first a b }
{
    if first { a } else { b }
}

// The place `d` steps on, if it is not before the first and is below `limit`.
#[tactic(auto, using(crate::proofs::Signed::code_before, crate::proofs::Signed::code_past, crate::proofs::Signed::code_reached))]
fn moved(at: usize, d: i32, limit: usize) -> Option<usize>
    requires { (at < 1024) × (mag d < 1024) }
    ensures { result ≡ moved_of at d limit }
{
    let y = at as i32 + d;
    if y < 0 {
        return None;
    }
    let to = y as usize;
    if to < limit { Some(to) } else { None }
}

// The signed way from one place to another.
pub fn offset(from: usize, to: usize) -> i32
    requires { (from < 1024) × (to < 1024) }
    ensures { result ≡ pos to -ℤ pos from }
{
    to as i32 - from as i32
}

impl Grid {
    // How many cells it has. Who goes over all cells does so by `for i in 0..grid.size()`: a cell is named by its number, and by it its neighbours, its kind and
    // its owner are asked for.
    pub fn size(self) -> usize
        ensures value { result ≡ self.height * self.width }
        ensures small { result ≤ 1024 }
    {
        self.height * self.width
    }

    // The cell that the one at row y, column x comes to by a signed row and column offset. Row, column and the two
    // offsets are numbers, and no structs: `moved` takes a row or a column by itself.
    #[tactic(auto, using(crate::proofs::SideLaws::off_column, crate::proofs::SideLaws::off_row))]
    pub fn shifted(self, y: usize, x: usize, dy: i32, dx: i32) -> Option<usize>
        requires place { (y < self.height) × (x < self.width) }
        requires offsets { (mag dy < 1024) × (mag dx < 1024) }
        ensures { result ≡ shifted_of self.height self.width y x dy dx }
    {
        let to_y = moved(y, dy, self.height)?;
        let to_x = moved(x, dx, self.width)?;
        Some(to_y * self.width + to_x)
    }

    // The row of cell i.
    #[tactic(auto, using(crate::proofs::SideLaws::row_of))]
    pub fn row(self, i: usize) -> usize
        requires { i < self.height * self.width }
        ensures value { result ≡ i / self.width }
        ensures place { result < self.height }
    {
        i / self.width
    }

    // The column of cell i.
    #[tactic(auto, using(crate::proofs::SideLaws::column_of))]
    pub fn column(self, i: usize) -> usize
        requires { i < self.height * self.width }
        ensures value { result ≡ i % self.width }
        ensures place { result < self.width }
    {
        i % self.width
    }

    // The neighbour of cell i in direction k, if there is one. Who needs all four asks for each by `for k in 0..4`: an iterator over them takes a third more
    // in a flood (15.7 against 11.9 us on 32 by 32 cells), and of a closure that is called for each neighbour a proof has the chain of its calls, of which each
    // walk would have to say what its loop says.
    // The column is found from the row: by `column` the compiler divides again in three of the four directions.
    #[tactic(auto, using(crate::proofs::SideLaws::leads_from, crate::proofs::SideLaws::column_left, crate::proofs::SideLaws::row_before))]
    pub fn toward(self, i: usize, k: usize) -> Option<usize>
        requires cell { i < self.height * self.width }
        requires direction { k < 4 }
        ensures neighbour { result ≡ beside_of (sized self.height self.width) i k }
        ensures inside { IfSome result (λ j. j < self.height * self.width) }
        ensures small { IfSome result (λ j. j < 1024) }
    {
        let d = OFFSETS[k];
        let y = self.row(i);
        let x = i - y * self.width;
        self.shifted(y, x, d[0], d[1])
    }
}
