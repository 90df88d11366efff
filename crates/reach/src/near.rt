// The reach of a block from its own cells: a walk over the block's chain finds the floating groups near it, and the sizes of
// the groups give the size of the reach, without a pass over the grid.
ghost use Rattle.std.specs.Prelude.{◌≡◌, Bool, ◌||◌, List, [], ◌∷◌, ℕ, ◌+◌, ◌≤◌, ◌<◌, length, take, replicate};
ghost use Rattle.std.specs.List.{All};
ghost use Rattle.kinds.specs.declared.BoardInfo.{BoardInfo};
ghost use Rattle.kinds.specs.Kinds.{reach};
ghost use Rattle.kinds.specs.Board.{cell_count, board_with, KindsAre, NamesBlock};
ghost use Rattle.reach.specs.Board.{has_float, touches_float, OwnerSizes, BlockSize};
ghost use Rattle.reach.specs.Near.{Sizes, Listed, Listing, NearFloats};

use crate::{Linked, NO_CELL};
use groups::NO_GROUP;
use kinds::{ARROW_BLOCK, ARROW_BLOCK_NEIGHBOR, BoardInfo, FLOATING};

// The floating groups near a block: marked by name, and their names in a list, whose length is told by who lists them. With the count as a field a `shift::Work`
// would hold what is no reference, and the borrow checker covers no function that takes such a one by value and lends it on (`reasons::inconsistency::search_arrows`).
#[derive(Drop)]
pub struct Floats<'a> {
    pub near: &'a mut [u8; 1024],
    pub groups: &'a mut [u16; 1024],
}

impl Floats<'_> {
    // Marks and lists the floating group of cell j, if it is in one that is not marked yet; the new count.
    fn list_float(&mut self, info: &BoardInfo<'_>, j: usize, count: usize) -> usize
        requires cell { j < 1024 }
        requires listing { Listing self.old.near.now self.old.groups.now count }
        ensures { (t : ℕ → Bool) → Listed t self.old.near.now self.old.groups.now count
            → Listed (λ m. t m || has_float info.now (j ∷ []) m) self.new.near.now self.new.groups.now result }
    {
        if info.kinds[j] != FLOATING {
            return count;
        }
        let name = info.owners[j];
        if NO_GROUP <= name {
            return count;
        }
        let m = usize::from(name);
        if self.near[m] == 1 {
            return count;
        }
        self.near[m] = 1;
        self.groups[count] = name;
        count + 1
    }

    // Marks and lists the floating groups that touch cell i, if that is a neighbour of its owner; the new count.
    fn list_floats_beside(&mut self, info: &BoardInfo<'_>, i: usize, count: usize) -> usize
        requires cell { i < cell_count info.now }
        requires listing { Listing self.old.near.now self.old.groups.now count }
        ensures { (t : ℕ → Bool) → Listed t self.old.near.now self.old.groups.now count
            → Listed (λ m. t m || touches_float info.now i m) self.new.near.now self.new.groups.now result }
    {
        if info.kinds[i] != ARROW_BLOCK_NEIGHBOR {
            return count;
        }
        let mut total = count;
        for k in 0..4 {
            if let Some(j) = info.grid.toward(i, k) {
                total = self.list_float(info, j, total);
            }
        }
        total
    }

    // Marks and lists those that touch a neighbour of the block f; how many they are.
    pub fn list_near(&mut self, linked: &Linked<'_>, f: u16) -> usize
        requires name { f < 1024 }
        ensures near { let info = linked.now.info in (arrows : List (List ℕ)) (cells : List ℕ) → KindsAre info (board_with info arrows cells)
            → NearFloats (board_with info arrows cells) f self.new.near.now self.new.groups.now result }
        ensures few { result ≤ 1024 }
        ensures names { All (λ m. m < 1024) (take result self.new.groups.now) }
    {
        unmark(self.near, self.groups);
        let mut total = 0;
        let mut i = usize::from(linked.head[usize::from(f)]);
        // A `while`: the next cell stands in the chain, and in no range.
        while i < usize::from(NO_CELL) {
            total = self.list_floats_beside(&linked.info, i, total);
            i = usize::from(linked.next[i]);
        }
        total
    }
}

// Unmarks all groups, before they are listed. It is lent the arrays by themselves, and says how long the list is: of an array behind a `&mut` in a struct that is
// behind a `&mut` a proof knows no length.
fn unmark(near: &mut [u8; 1024], groups: &[u16; 1024])
    ensures none { near.new ≡ replicate 1024 0 }
    ensures room { length groups.now ≡ 1024 }
{
    *near = [0; 1024];
}

// Counts cell i for its owner, unless it is a square of an arrow block: those the grouping step has counted. Otherwise the size that is read is
// written back, so that there is no branch to predict.
fn count_cell(kinds: &[u8; 1024], owners: &[u16; 1024], i: usize, sizes: &mut [u16; 1024])
    requires { (i < 1024) × Sizes kinds.now owners.now i sizes.old }
    ensures { Sizes kinds.now owners.now (i + 1) sizes.new }
{
    let f = owners[i];
    let other = kinds[i] != ARROW_BLOCK;
    let slot = usize::from(f % 1024);
    let size = sizes[slot];
    sizes[slot] = grid::pick((f < NO_GROUP) & other, size + 1, size);
}

// How many of the cells below n each owner has beside the squares of arrow blocks. The sizes come as zeros, lent as the arrays of `kinds::compute_cell_kinds`.
// It takes kinds, owners and n, and no `BoardInfo`: it asks for no neighbours, so that a grid would give it n alone. A loop of its own, as
// `reach::BlockReach::mark_near_floats`.
pub fn count_cells(kinds: &[u8; 1024], owners: &[u16; 1024], n: usize, sizes: &mut [u16; 1024])
    requires fresh { (n ≤ 1024) × (sizes.old ≡ replicate 1024 0) }
    ensures { Sizes kinds.now owners.now n sizes.new }
{
    for i in 0..n {
        count_cell(kinds, owners, i, sizes);
    }
}

// The size of the reach of the block f, near which are the floating groups of these names: its squares, its neighbours and the cells of those groups.
pub fn reach_size(sizes: &[u16; 1024], squares: &[u16; 1024], names: &[u16], f: u16) -> usize
    requires name { f < 1024 }
    requires names { All (λ m. m < 1024) names.now }
    requires few { length names.now ≤ 1024 }
    ensures { (info : BoardInfo) (arrows : List (List ℕ)) (cells near groups : List ℕ) (count : ℕ) → KindsAre info (board_with info arrows cells)
        → OwnerSizes info sizes.now → BlockSize info squares.now f → names.now ≡ take count groups
        → NearFloats (board_with info arrows cells) f near groups count → NamesBlock info f
        → result ≡ length (reach (board_with info arrows cells) f) }
{
    let f = usize::from(f);
    let mut total = usize::from(squares[f]) + usize::from(sizes[f]);
    for &m in names {
        total += usize::from(sizes[usize::from(m)]);
    }
    total
}
