// Reason 2: a block with two arrow cells, and the squares of a shortest way between them.
#![tactic(auto)]

ghost use Rattle.std.specs.Prelude.{◌≡◌, ℕ, ◌+◌, ◌-◌, ◌<◌, ◌≤◌, length, get_or, List, find, All};
ghost use Rattle.std.specs.Option.{ForSome};
ghost use Rattle.arrayvec.specs.ArrayVec.{array_vec_len};
ghost use Rattle.grid.specs.Lists.{range};
ghost use Rattle.grid.specs.Grid.{size};
ghost use Rattle.record.specs.Record.{Puzzle};
ghost use Rattle.groups.specs.Arrays.{Names};
ghost use Rattle.literals.specs.Literals.{each};
ghost use Rattle.literals.specs.Inside.{Wrote, FoundAs};
ghost use Rattle.units.specs.Lent.{cells_in, puzzle_on, states_on, HasRoom};
ghost use Rattle.paths.specs.Paths.{reason2};
ghost use Rattle.paths.specs.Search.{unlisted};
ghost use Rattle.paths.specs.Ends.{crossed, arrow_cell_of, Crossing};
ghost use Rattle.paths.specs.Lent.{way_on, HasTable, HasBlocks, AreJoined, BlocksAreThere};

use arrayvec::ArrayVec;
use grid::Grid;
use groups::Groups;
use literals::{Literal, Literals};

// Stands for the parent of a cell that is not listed. A number, and no `Option`, as `groups::NO_GROUP`: it has the place of one number.
const UNLISTED: u16 = 1024;

// A breadth-first list of squares: `order` has its cells, and `from` the parent of each.
#[derive(Drop)]
struct BreadthFirstList {
    from: [u16; 1024],
    order: ArrayVec<u16, 1024>,
    // There is room for every cell that is not listed.
    ghost room: { array_vec_len order + unlisted from ≤ 1024 },
}

impl BreadthFirstList {
    ghost use Rattle.paths.specs.Paths.{Entry};
    ghost use Rattle.paths.specs.Lists.{IsEmpty, Offers, Lists, with_neighbours, listed_from};

    fn new() -> BreadthFirstList
        ensures { IsEmpty result }
    {
        BreadthFirstList {
            from: [UNLISTED; 1024],
            order: ArrayVec::new(),
        }
    }

    // Lists cell j with its parent p, if it is a square that is not listed yet.
    #[tactic(auto, using(crate::proofs::Listings::room_left, grid::proofs::ArrayLaws::fewer_set))]
    fn list_cell(&mut self, cells: &[u8; 1024], j: usize, p: u16)
        requires { (j < 1024) × (p < 1024) }
        ensures { Offers cells.now self.old j p self.new }
    {
        if cells[j] != grid::SQUARE {
            return;
        }
        if self.from[j] != UNLISTED {
            return;
        }
        self.from[j] = p;
        self.order.push(j as u16);
    }

    // Lists the square neighbours of cell p, which is a listed one.
    fn list_neighbours(&mut self, grid: Grid, cells: &[u8; 1024], p: u16)
        requires { p < cells_in grid }
        ensures { (cs : List Entry) → Lists grid self.old cs → Lists grid self.new (with_neighbours grid cells.now cs p) }
    {
        let cell = usize::from(p);
        for k in 0..4 {
            if let Some(j) = grid.toward(cell, k) {
                self.list_cell(cells, j, p);
            }
        }
    }

    // Lists the squares joined to b, breadth first. The list comes empty.
    fn list_from(&mut self, grid: Grid, cells: &[u8; 1024], b: usize)
        requires empty { IsEmpty self.old }
        requires square { (b < cells_in grid) × (get_or cells.now b 0 ≡ 1) }
        ensures { Lists grid self.new (listed_from grid cells.now b) }
    {
        self.list_cell(cells, b, b as u16);
        let mut t = 0;
        // No `for`: the list grows while it is gone through, and the loop ends where it stops to grow.
        while let Some(&p) = self.order.get(t) {
            self.list_neighbours(grid, cells, p);
            t += 1;
        }
    }
}

// The squares of a shortest way from a to b, which are squares of one block, by the parents of the breadth-first list from b.
fn reason_for_path(grid: Grid, cells: &[u8; 1024], a: usize, b: usize, buffer: &mut [u16]) -> usize
    requires ends { AreJoined grid cells.now b a }
    requires room { cells_in grid ≤ length buffer.old }
    ensures { Wrote (each 1 (way_on grid cells.now a b)) buffer.old buffer.new result }
{
    let mut list = BreadthFirstList::new();
    list.list_from(grid, cells, b);
    let mut cell = a;
    let mut way = Literals {
        out: buffer,
        count: 0,
    };
    // No `for`: the way goes from parent to parent, and has no index.
    while cell != b {
        way.push(Literal {
            index: cell as u16,
            value: 1,
        });
        cell = usize::from(list.from[cell]);
    }
    way.push(Literal {
        index: cell as u16,
        value: 1,
    });
    way.count
}

// The name of the lowest numbered block with two arrow cells or more, of those that are listed.
#[tactic(auto, unfolding(crate::specs::Ends::crossed))]
fn first_crossed(names: &[u16], arrowed: &[u16; 1024]) -> Option<u16>
    requires { All (λ f. f < 1024) names.now }
    ensures { result ≡ find (crossed arrowed.now) names.now }
{
    names
        .iter()
        .copied()
        .find(|&f| 2 <= arrowed[usize::from(f)])
}

// The first arrow cell of the block named f from cell `from` on, if there is one below n.
fn next_arrow_cell(
    blocks: &Groups,
    onarrow: &[u8; 1024],
    n: usize,
    f: u16,
    from: usize,
) -> Option<usize>
    requires { n ≤ 1024 }
    ensures first { result ≡ find (arrow_cell_of blocks.now.labels onarrow.now f) (range from (n - from)) }
    ensures below { ForSome result (λ i. i < n) }
{
    (from..n).find(|&i| blocks.labels[i] == f && onarrow[i] == 1)
}

// The first two arrow cells of the lowest numbered block that has two or more, if there is one.
fn find_crossing(grid: Grid, blocks: &Groups, onarrow: &[u8; 1024]) -> Option<(usize, usize)>
    requires { Names blocks.now.firsts blocks.now.count }
    ensures { (p : Puzzle) (cells squares : List ℕ) → HasTable p cells squares onarrow.now blocks.now
        → cells_in grid ≡ size p.grid → Crossing p cells result }
{
    let f = first_crossed(&blocks.firsts[..blocks.count], &blocks.arrowed)?;
    let n = grid.size();
    let a = next_arrow_cell(blocks, onarrow, n, f, 0)?;
    let b = next_arrow_cell(blocks, onarrow, n, f, a + 1)?;
    Some((a, b))
}

// How many literals reason 2 has, which stand in the buffer then, or none where it does not apply.
pub fn check_blocks(
    grid: Grid,
    cells: &[u8; 1024],
    blocks: &Groups,
    onarrow: &[u8; 1024],
    buffer: &mut [u16],
) -> Option<usize>
    requires blocked { BlocksAreThere grid cells.now onarrow.now blocks.now }
    requires room { HasRoom grid buffer.old }
    ensures { (lines : List (List ℕ)) (squares : List ℕ) → HasBlocks grid lines cells.now squares onarrow.now blocks.now
        → FoundAs (reason2 (puzzle_on grid lines) (states_on grid cells.now)) buffer.old buffer.new result }
{
    let (a, b) = find_crossing(grid, blocks, onarrow)?;
    Some(reason_for_path(grid, cells, a, b, buffer))
}
