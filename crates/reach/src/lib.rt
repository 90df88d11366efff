// The reach of an arrow block as marks, and the cells of each owner in chains. What C calls takes no memory: the arrays stand in the frame of who makes them.
#![tactic(auto)]

pub mod near;

ghost use Rattle.std.specs.Prelude.{◌≡◌, ℕ, ◌+◌, ◌≤◌, ◌<◌, Bool, ◌||◌, List, replicate};
ghost use Rattle.grid.specs.Marks.{Marks};
ghost use Rattle.reach.specs.Chains.{ChainsFrom, Chains};
ghost use Rattle.kinds.specs.Board.{cell_count, board_with, KindsAre};
ghost use Rattle.reach.specs.Inside.{reaches_at, Reached, Reach};
ghost use Rattle.reach.specs.Board.{float_beside, is_float_near, CellsLinked};

use groups::NO_GROUP;
use kinds::{ARROW_BLOCK, ARROW_BLOCK_NEIGHBOR, BoardInfo, FLOATING};

// What is known of a board's cells, with the cells of each owner linked by rising index: `head` has the first cell of each owner and `next` the one behind
// each cell; 1024 stands for none. A walk over one group then takes as many steps as the group has cells.
#[derive(Clone, Copy)]
pub struct Linked<'a> {
    pub info: BoardInfo<'a>,
    pub head: &'a [u16; 1024],
    pub next: &'a [u16; 1024],
    pub ghost chains: { CellsLinked info head.now next.now },
}

// Stands for a cell where there is none. A number, and no `Option`: definitions have it, and `grid::pick` chooses it without a branch.
pub const NO_CELL: u16 = 1024;

// Puts cell i in front of the chain of its owner, if it has one. Without one the places are written with what they hold.
fn chain_cell(owners: &[u16; 1024], i: usize, head: &mut [u16; 1024], next: &mut [u16; 1024])
    requires cell { i < 1024 }
    ensures { (n : ℕ) → i < n → ChainsFrom owners.now head.old next.old n (i + 1)
        → ChainsFrom owners.now head.new next.new n i }
{
    let f = owners[i];
    let owned = f < NO_GROUP;
    let slot = usize::from(f % 1024);
    let first = head[slot];
    let behind = next[i];
    next[i] = grid::pick(owned, first, behind);
    head[slot] = grid::pick(owned, i as u16, first);
}

// Links the cells of each owner by rising index, as `Linked` has them. Both arrays come with 1024 everywhere, lent as those of `kinds::compute_cell_kinds`. It
// takes owners and n, and no `BoardInfo`, of which it would read nothing else.
pub fn chain_cells(owners: &[u16; 1024], n: usize, head: &mut [u16; 1024], next: &mut [u16; 1024])
    requires fresh { (n ≤ 1024) × (head.old ≡ replicate 1024 1024) × (next.old ≡ replicate 1024 1024) }
    ensures { Chains owners.now head.new next.new n }
{
    for i in (0..n).rev() {
        chain_cell(owners, i, head, next);
    }
}

// The reach of an arrow block: marks of the floating groups in it, by name, marks of its cells, and how many these are.
#[derive(Clone, Copy)]
pub struct BlockReach {
    pub near: [u8; 1024],
    pub marks: [u8; 1024],
    pub size: usize,
}

// Whether cell i is in the reach of the block f, whose floating groups are marked.
#[tactic(auto, using(std::proofs::lemmas::Bool::Decides::nat_tests), unfolding(crate::specs::Inside::reaches, crate::specs::Inside::reaches_at))]
pub fn in_reach(info: &BoardInfo<'_>, near: &[u8; 1024], f: u16, i: usize) -> bool
    requires cell { i < 1024 }
    ensures { result ≡ reaches_at info.now.kinds.now info.now.owners.now near.now f i }
{
    let owner = info.owners[i];
    match info.kinds[i] {
        ARROW_BLOCK | ARROW_BLOCK_NEIGHBOR => owner == f,
        FLOATING => owner < NO_GROUP && near[usize::from(owner)] == 1,
        _ => false,
    }
}

// Marks the floating groups that touch cell i, if that is a neighbour of the block f. It goes over the directions as `Floats::list_floats_beside` does, which
// lists them too; a closure for what is done there would be as long as the loop.
fn mark_floats_beside(info: &BoardInfo<'_>, f: u16, i: usize, near: &mut [u8; 1024])
    requires cell { i < cell_count info.now }
    ensures { (t : ℕ → Bool) → Marks near.old t → Marks near.new (λ m. t m || float_beside info.now f i m) }
{
    if info.kinds[i] != ARROW_BLOCK_NEIGHBOR {
        return;
    }
    if info.owners[i] != f {
        return;
    }
    for k in 0..4 {
        if let Some(j) = info.grid.toward(i, k) {
            info.mark_owner(FLOATING, j, near);
        }
    }
}

impl BlockReach {
    // Marks the floating groups that touch a neighbour of the block f, where none is marked. A loop of its own, as the parts of `clauses::Sheet`: a closure in its
    // place would say that it was called, and it would still have to be said what its calls leave.
    fn mark_near_floats(&mut self, info: &BoardInfo<'_>, f: u16)
        requires fresh { self.old.near ≡ replicate 1024 0 }
        ensures near { Marks self.new.near (is_float_near info.now f) }
        ensures others { self.new ≡ record self.old { near = self.new.near } }
    {
        for i in 0..info.grid.size() {
            mark_floats_beside(info, f, i, &mut self.near);
        }
    }

    // Marks the cells of the reach of the block f, whose floating groups are marked, and counts them, where none is marked. By index, as the labels of `groups`.
    fn mark_reach(&mut self, info: &BoardInfo<'_>, f: u16)
        requires fresh { (self.old.marks ≡ replicate 1024 0) × (self.old.size ≡ 0) }
        ensures marked { Reached info.now.kinds.now info.now.owners.now self.new.near f (cell_count info.now) self.new.marks self.new.size }
        ensures near { self.new.near ≡ self.old.near }
    {
        for i in 0..info.grid.size() {
            if in_reach(info, &self.near, f, i) {
                self.marks[i] = 1;
                self.size += 1;
            }
        }
    }
}

// The reach of the block f. By passes over the grid: a fence asks for a mark of each cell, and is written only for the reason that is found.
pub fn compute_reach(info: &BoardInfo<'_>, f: u16) -> BlockReach
    ensures { (arrows : List (List ℕ)) (cells : List ℕ) → KindsAre info.now (board_with info.now arrows cells)
        → Reach (board_with info.now arrows cells) f result.near result.marks result.size }
{
    let mut reach = BlockReach {
        near: [0; 1024],
        marks: [0; 1024],
        size: 0,
    };
    reach.mark_near_floats(info, f);
    reach.mark_reach(info, f);
    reach
}
