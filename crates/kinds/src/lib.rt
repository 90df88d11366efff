// The kinds of a board's cells.
#![tactic(auto)]

ghost use Rattle.std.specs.Prelude.{◌≡◌, ℕ, ◌*◌, ◌≤◌, ◌<◌, Bool, ◌&&◌, ◌||◌, List, [], ◌∷◌, ◌++◌, eqb, get_or, take, replicate};
ghost use Rattle.grid.specs.Marks.{Marks};
ghost use Rattle.grid.specs.Grid.{neighbours};
ghost use Rattle.grid.specs.Side.{sized};
ghost use Rattle.groups.specs.Flood.{free, Only, Unlabelled, Walked, Sofar};
ghost use Rattle.kinds.specs.Kinds.{view};
ghost use Rattle.kinds.specs.Arrays.{kind_code, owner_by};
ghost use Rattle.kinds.specs.Inside.{puzzle_with, Given, Held, kind_from, of_block, meet_of, Owned, block_named, arrow_block_at, arrow_blocks_at, kind_in, codes_in, owners_in, unnamed};

use grid::Grid;
use groups::{Groups, NO_GROUP, UNLABELLED};

// The kinds by their numbers, as they stand in an array and as the definitions (kinds/specs/Arrays) and those who are lent the array test them: an enum of them
// would be turned into its number in each contract.
pub const VACANT: u8 = 0;

pub const ARROW_BLOCK: u8 = 1;

pub const ARROW_BLOCK_NEIGHBOR: u8 = 2;

pub const BARRIER: u8 = 3;

pub const FLOATING: u8 = 4;

// What is known of the cells of a board: the state of each, its kind, and the group that it belongs to. Kinds and owners are two arrays of numbers: with one
// array of `DetailedCellKind` the kinds, names, chains and counts of 32 by 32 cells take 49.7 against 35.6 us, since an owner is then found by a branch.
// The name of a block comes beside it and in no struct with it: `growth::reason_for_pair` has two names on one board, and a fence meets others on its way.
#[derive(Clone, Copy)]
pub struct BoardInfo<'a> {
    pub grid: Grid,
    pub cells: &'a [u8; 1024],
    pub kinds: &'a [u8; 1024],
    pub owners: &'a [u16; 1024],
}

impl BoardInfo<'_> {
    // Marks the group of cell j if the cell is of this kind.
    pub fn mark_owner(&self, kind: u8, j: usize, marks: &mut [u8; 1024])
        requires cell { j < 1024 }
        ensures { (t : ℕ → Bool) → Marks marks.old t
            → Marks marks.new (λ m. t m || (eqb (get_or self.now.kinds.now j 0) kind && eqb (get_or self.now.owners.now j 0) m)) }
    {
        if self.kinds[j] != kind {
            return;
        }
        let f = self.owners[j];
        if NO_GROUP <= f {
            return;
        }
        marks[usize::from(f)] = 1;
    }
}

// Whether cell i is in the arrow block f. It takes arrays, and no `BoardInfo`: `growth::reason_for_arrow_block` asks it, which has none.
pub fn in_block(kinds: &[u8; 1024], owners: &[u16; 1024], f: u16, i: usize) -> bool
    requires { i < 1024 }
    ensures { result ≡ of_block kinds.now owners.now f i }
{
    kinds[i] == ARROW_BLOCK && owners[i] == f
}

// The arrow blocks that a cell touches.
#[derive(Clone, Copy, Debug, PartialEq, Eq)]
enum Touched {
    Nobody,
    One(u16),
    Many,
}

// The kind of a cell, with the name of its arrow block.
#[derive(Clone, Copy, Debug, PartialEq, Eq)]
enum DetailedCellKind {
    // Decided empty.
    Empty,
    // A square of an arrow block.
    ArrowBlock(u16),
    // Undecided, and touches one arrow block only.
    ArrowBlockNeighbor(u16),
    // Undecided, and touches two arrow blocks or more.
    Barrier,
    // Every other cell.
    Floating,
}

impl Touched {
    // One more arrow block is met.
    #[tactic(auto, unfolding(crate::specs::Inside::meet_of))]
    fn meet(self, f: u16) -> Touched
        ensures { result ≡ meet_of self f }
    {
        match self {
            Touched::Nobody => Touched::One(f),
            Touched::One(e) if e == f => self,
            Touched::One(_) | Touched::Many => Touched::Many,
        }
    }
}

impl DetailedCellKind {
    // The number of a kind.
    #[tactic(auto, unfolding(crate::specs::Arrays::kind_code, crate::specs::Inside::kind_from))]
    fn code(self) -> u8
        ensures { result ≡ kind_code (kind_from self) }
    {
        match self {
            DetailedCellKind::Empty => VACANT,
            DetailedCellKind::ArrowBlock(_) => ARROW_BLOCK,
            DetailedCellKind::ArrowBlockNeighbor(_) => ARROW_BLOCK_NEIGHBOR,
            DetailedCellKind::Barrier => BARRIER,
            DetailedCellKind::Floating => FLOATING,
        }
    }

    // The arrow block of a kind, NO_GROUP where it has none, and UNLABELLED for a floating group, which has no name yet. Apart from `code`: each goes to an array
    // of its own.
    #[tactic(auto, unfolding(crate::specs::Arrays::owner_by, crate::specs::Inside::kind_from))]
    fn owner(self) -> u16
        ensures { result ≡ owner_by unnamed (kind_from self) }
    {
        match self {
            DetailedCellKind::Empty => NO_GROUP,
            DetailedCellKind::ArrowBlock(f) => f,
            DetailedCellKind::ArrowBlockNeighbor(f) => f,
            DetailedCellKind::Barrier => NO_GROUP,
            DetailedCellKind::Floating => UNLABELLED,
        }
    }
}

// The name of the arrow block of cell j, if it is in one.
#[tactic(auto, using(std::proofs::lemmas::Bool::Decides::nat_tests), unfolding(crate::specs::Inside::block_named, crate::specs::Inside::arrow_block_at))]
fn arrow_block_at(blocks: &Groups, j: usize) -> Option<u16>
    requires { j < 1024 }
    ensures { result ≡ block_named (arrow_block_at blocks.now.labels blocks.now.arrowed j) }
{
    let f = blocks.labels[j];
    if NO_GROUP <= f {
        return None;
    }
    if blocks.arrowed[usize::from(f)] != 0 {
        Some(f)
    } else {
        None
    }
}

// One more neighbour j: its arrow block is met, if it is in one.
fn meet_at(blocks: &Groups, j: usize, touched: Touched) -> Touched
    requires { j < 1024 }
    ensures { (js : List ℕ) → Owned (arrow_blocks_at blocks.now.labels blocks.now.arrowed js) touched
        → Owned (arrow_blocks_at blocks.now.labels blocks.now.arrowed (js ++ (j ∷ []))) result }
{
    match arrow_block_at(blocks, j) {
        Some(f) => touched.meet(f),
        None => touched,
    }
}

// The arrow blocks that cell i touches.
fn look_around(grid: Grid, blocks: &Groups, i: usize) -> Touched
    requires { i < grid.height * grid.width }
    ensures { Owned (arrow_blocks_at blocks.now.labels blocks.now.arrowed (neighbours (sized grid.height grid.width) i)) result }
{
    let mut touched = Touched::Nobody;
    for k in 0..4 {
        if let Some(j) = grid.toward(i, k) {
            touched = meet_at(blocks, j, touched);
        }
    }
    touched
}

// The kind of cell i.
#[tactic(auto, using(crate::proofs::Owners::kinds_told), unfolding(crate::specs::Inside::kind_from))]
fn kind_at(grid: Grid, cells: &[u8; 1024], blocks: &Groups, i: usize) -> DetailedCellKind
    requires { i < grid.height * grid.width }
    ensures { kind_from result ≡ kind_in blocks.now.labels blocks.now.arrowed (sized grid.height grid.width) cells.now i }
{
    let cell = cells[i];
    if cell == grid::EMPTY {
        return DetailedCellKind::Empty;
    }
    if cell == grid::SQUARE {
        return match arrow_block_at(blocks, i) {
            Some(f) => DetailedCellKind::ArrowBlock(f),
            None => DetailedCellKind::Floating,
        };
    }
    match look_around(grid, blocks, i) {
        Touched::Nobody => DetailedCellKind::Floating,
        Touched::One(f) => DetailedCellKind::ArrowBlockNeighbor(f),
        Touched::Many => DetailedCellKind::Barrier,
    }
}

// The kind of each cell and its arrow block; floating groups have no name yet. The arrays come without kinds and owners: to return them, and the chains and sizes of
// `reach`, clears 9 kilobytes more in a find, by which one on 6 by 6 cells takes half a microsecond longer. By index, as the labels of `groups`.
#[tactic(auto, using(crate::proofs::Filled::codes_more, crate::proofs::Filled::codes_none, crate::proofs::Filled::owners_more, crate::proofs::Filled::owners_none, grid::proofs::SideLaws::area))]
fn compute_cell_kinds(
    grid: Grid,
    cells: &[u8; 1024],
    blocks: &Groups,
    kinds: &mut [u8; 1024],
    owners: &mut [u16; 1024],
)
    requires { (kinds.old ≡ replicate 1024 0) × (owners.old ≡ replicate 1024 1024) }
    ensures kinds { kinds.new ≡ codes_in blocks.now.labels blocks.now.arrowed (sized grid.height grid.width) cells.now (grid.height * grid.width) }
    ensures owners { owners.new ≡ owners_in blocks.now.labels blocks.now.arrowed (sized grid.height grid.width) cells.now (grid.height * grid.width) }
{
    for i in 0..grid.size() {
        let kind = kind_at(grid, cells, blocks, i);
        kinds[i] = kind.code();
        owners[i] = kind.owner();
    }
}

// Names the floating group of cell i, unless that is none or has a name, and goes on to the neighbours in turn.
fn traverse_grid(grid: Grid, owners: &mut [u16; 1024], i: usize, name: u16)
    requires cell { i < grid.height * grid.width }
    requires name { name < 1024 }
    ensures walked { (p : ℕ → Bool) → Only p owners.old → Walked (sized grid.height grid.width) p i name owners.old owners.new }
    ensures fewer_free { free owners.new ≤ free owners.old }
{
    if owners[i] != UNLABELLED {
        return;
    }
    owners[i] = name;
    for k in 0..4 {
        if let Some(j) = grid.toward(i, k) {
            traverse_grid(grid, owners, j, name);
        }
    }
}

// Names each floating group by its first cell. Most cells have a name, or are none of a floating group, when their turn comes: no walk is begun for them.
fn name_floating_groups(grid: Grid, owners: &mut [u16; 1024])
    ensures { (p : ℕ → Bool) → Unlabelled p owners.old
        → Sofar (sized grid.height grid.width) p owners.old (grid.height * grid.width) owners.new }
{
    for i in 0..grid.size() {
        if owners[i] == UNLABELLED {
            traverse_grid(grid, owners, i, i as u16);
        }
    }
}

// The kind of each cell and the group that it belongs to, from the blocks of a board. The arrays come without kinds and owners.
pub fn compute_board_info_detailed(
    grid: Grid,
    cells: &[u8; 1024],
    blocks: &Groups,
    kinds: &mut [u8; 1024],
    owners: &mut [u16; 1024],
)
    requires fresh { (kinds.old ≡ replicate 1024 0) × (owners.old ≡ replicate 1024 1024) }
    ensures { (arrows : List (List ℕ))
        → Given (puzzle_with (sized grid.height grid.width) arrows) (take (grid.height * grid.width) cells.now) blocks.now.labels blocks.now.arrowed
        → Held (view (puzzle_with (sized grid.height grid.width) arrows) (take (grid.height * grid.width) cells.now)) kinds.new owners.new }
{
    compute_cell_kinds(grid, cells, blocks, kinds, owners);
    name_floating_groups(grid, owners);
}
