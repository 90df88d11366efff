// The parts of reasons 3 and 4: the literals of blocks, cells and fences, and the sizes of blocks and reaches.
#![tactic(auto)]

ghost use Rattle.std.specs.Prelude.{◌≡◌, ◌+◌, ◌-◌, ◌<◌, ◌≤◌, ℕ, ◌*◌, length, get_or, List};
ghost use Rattle.grid.specs.Grid.{size};
ghost use Rattle.kinds.specs.Kinds.{View, block, reach};
ghost use Rattle.literals.specs.Literals.{each};
ghost use Rattle.growth.specs.Growth.{cell_fence, block_cell_fence};
ghost use Rattle.literals.specs.Inside.{Wrote};
ghost use Rattle.kinds.specs.Inside.{Held};
ghost use Rattle.kinds.specs.Board.{cell_count, board_of, HasArrows, NamesBlock};
ghost use Rattle.reach.specs.Board.{OwnerSizes};
ghost use Rattle.growth.specs.Pairs.{IsShown, HasRoom, BlockSizes};

use kinds::BoardInfo;
use literals::{Literal, Literals};
use reach::Linked;
use reach::near::{self, Floats};

// A board's cells in their groups: what is known of them, linked, and how many cells each group has. `sizes` has the cells of each owner beside the
// squares of arrow blocks, and `squares` those, at the name of each. They are references to arrays of 1,024 places, as names are below that, and are lent: the arrays
// stand where they are filled, since no memory is taken here.
#[derive(Clone, Copy)]
pub struct Scene<'a> {
    pub linked: Linked<'a>,
    pub sizes: &'a [u16; 1024],
    pub squares: &'a [u16; 1024],
    pub ghost counts: { OwnerSizes linked.info sizes.now },
    pub ghost blocks: { BlockSizes linked.info squares.now },
}

impl Scene<'_> {
    // How many cells the arrow block named f has.
    pub fn block_size(&self, f: u16) -> usize
        requires name { f < 1024 }
        ensures { let info = self.now.linked.info in (lines : List (List ℕ)) → HasArrows info lines → NamesBlock info f
            → result ≡ length (block (board_of info lines) f) }
    {
        usize::from(self.squares[usize::from(f)])
    }

    // How many cells the reach of the arrow block named f has.
    pub fn count_reach(&self, f: u16, floats: &mut Floats<'_>) -> usize
        requires name { f < 1024 }
        ensures { let info = self.now.linked.info in (lines : List (List ℕ)) → HasArrows info lines → NamesBlock info f
            → result ≡ length (reach (board_of info lines) f) }
    {
        let count = floats.list_near(&self.linked, f);
        let groups = &*floats.groups;
        near::reach_size(self.sizes, self.squares, &groups[..count], f)
    }
}

// Two squares of an arrow with none between: the cells of the arrow from the one to the other.
#[derive(Clone, Copy)]
pub struct SquarePair<'a> {
    pub cells: &'a [u16],
}

impl SquarePair<'_> {
    // The cell of the first of them.
    pub fn last_cell(&self) -> usize
        requires some { 0 < length self.now.cells.now }
        ensures { result ≡ get_or self.now.cells.now 0 0 }
    {
        usize::from(self.cells[0])
    }

    // The cell of the second.
    pub fn cur_cell(&self) -> usize
        requires some { 0 < length self.now.cells.now }
        ensures { result ≡ get_or self.now.cells.now (length self.now.cells.now - 1) 0 }
    {
        usize::from(self.cells[self.cells.len() - 1])
    }
}

// The cells of the arrow block named f, rising, as squares, on a board of n cells. It takes arrays and n, and no `BoardInfo`: n may be any number up to 1,024, also
// one that is no grid's size, so that a `BoardInfo` would ask for more.
pub fn reason_for_arrow_block(
    kinds: &[u8; 1024],
    owners: &[u16; 1024],
    n: usize,
    f: u16,
    buffer: &mut [u16],
) -> usize
    requires cells { n ≤ 1024 }
    requires room { n ≤ length buffer.old }
    ensures wrote { (v : View) → Held v kinds.now owners.now → n ≡ size v.grid → Wrote (each 1 (block v f)) buffer.old buffer.new result }
    ensures few { result ≤ n }
{
    let mut squares = Literals {
        out: buffer,
        count: 0,
    };
    for i in 0..n {
        if kinds::in_block(kinds, owners, f, i) {
            squares.push(Literal {
                index: i as u16,
                value: 1,
            });
        }
    }
    squares.count
}

// The arrow cell i and the fence of the arrow block named f.
pub fn reason_for_cell(info: &BoardInfo<'_>, i: usize, f: u16, buffer: &mut [u16]) -> usize
    requires shown { IsShown info.now }
    requires cell { i < cell_count info.now }
    requires room { cell_count info.now + 1 < length buffer.old }
    ensures { (lines : List (List ℕ)) → HasArrows info.now lines → Wrote (cell_fence (board_of info.now lines) i f) buffer.old buffer.new result }
{
    let reach = reach::compute_reach(info, f);
    buffer[0] = u16::from(Literal {
        index: i as u16,
        value: 1,
    });
    let more = fence::reason_for_adjacent_floating_boundary(
        info,
        &reach.marks,
        f,
        &mut buffer[1..],
    );
    1 + more
}

// The literals of a pair to which a reason applies: the cells of the arrow block named b, the arrow cell i and the fence of the arrow
// block named f.
pub fn reason_for_pair(info: &BoardInfo<'_>, b: u16, i: usize, f: u16, buffer: &mut [u16]) -> usize
    requires shown { IsShown info.now }
    requires cell { i < cell_count info.now }
    requires room { HasRoom info.now buffer.old }
    ensures wrote { (lines : List (List ℕ)) → HasArrows info.now lines → Wrote (block_cell_fence (board_of info.now lines) b i f) buffer.old buffer.new result }
    ensures few { result ≤ 2 * cell_count info.now + 1 }
{
    let count = reason_for_arrow_block(info.kinds, info.owners, info.grid.size(), b, buffer);
    let more = reason_for_cell(info, i, f, &mut buffer[count..]);
    count + more
}
