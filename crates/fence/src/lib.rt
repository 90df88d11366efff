// The fence of an arrow block.
#![tactic(auto)]

ghost use Rattle.std.specs.Prelude.{◌≡◌, ℕ, ◌≤◌, ◌<◌, List, length};
ghost use Rattle.kinds.specs.Arrays.{reach_mask};
ghost use Rattle.kinds.specs.Board.{cell_count, board_of, HasArrows};
ghost use Rattle.fence.specs.Inside.{Fenced};
ghost use Rattle.fence.specs.Board.{is_touched};

use grid::UNDECIDED;
use kinds::{ARROW_BLOCK, BoardInfo, VACANT};
use literals::Literal;

// The literals of a fence, by rising index, in the front of the part that is lent for them. It is no `literals::Literals`, which only puts literals behind one
// another: these are inserted at their places, and C lends the memory.
#[derive(Drop)]
struct Fence<'a> {
    part: &'a mut [u16],
    count: usize,
    ghost in_part: { count ≤ length part.now },
}

impl Fence<'_> {
    ghost use Rattle.std.specs.Prelude.{Bool, ◌&&◌, ◌||◌, eqb};
    ghost use Rattle.std.specs.Borrow.{MutBor};
    ghost use Rattle.grid.specs.Cells.{word};
    ghost use Rattle.fence.specs.Inside.{Place, Ordered};
    ghost use Rattle.fence.specs.Board.{is_in, disturbs, disturbs_beside, brings, brought, HasWhole};
    ghost use Rattle.fence.specs.Part.{Put, Filled, Room};

    // The place of an index among those of the fence's literals.
    // By hand: the library's `partition_point` proves too, but takes 53 against 47 ns among 300 literals, and 8.3 against 6.1 among 12 in rising order.
    #[tactic(auto, using(crate::proofs::Insertion::key_index))]
    fn place(&self, index: u16) -> usize
        requires { index < 32768 }
        ensures { Place self.now.part.now self.now.count index result }
    {
        let mut low = 0;
        let mut high = self.count;
        while low < high {
            let mid = low + (high - low) / 2;
            if Literal::from(self.part[mid]).index < index {
                low = mid + 1;
            } else {
                high = mid;
            }
        }
        low
    }

    // Inserts a literal, unless its index is there.
    fn insert(&mut self, literal: Literal)
        requires room { self.old.count < length self.old.part.now }
        ensures { Put self.old (word (literal.index, literal.value)) self.new }
    {
        let p = self.place(literal.index);
        if p < self.count {
            if Literal::from(self.part[p]).index == literal.index {
                return;
            }
        }
        self.part.copy_within(p..self.count, p + 1);
        self.part[p] = u16::from(literal);
        self.count += 1;
    }

    // Whether the index i stands among the literals.
    fn contains(&self, i: u16) -> bool
        requires { i < 32768 }
        ensures { (kinds base : List ℕ) (n : ℕ) (t : ℕ → Bool) → Ordered kinds n base t self.now.part.now self.now.count → i < n → result ≡ t i }
    {
        let p = self.place(i);
        if self.count <= p {
            return false;
        }
        Literal::from(self.part[p]).index == i
    }

    // Inserts cell i as 1 if it is in the arrow block e.
    fn insert_cell(&mut self, info: &BoardInfo<'_>, e: u16, i: usize)
        requires cell { i < cell_count info.now }
        requires room { self.old.count < length self.old.part.now }
        ensures { (lent : MutBor (List ℕ)) (t : ℕ → Bool) → Filled info.now lent t self.old
            → Filled info.now lent (λ x. t x || (is_in info.now e i && eqb i x)) self.new }
    {
        if kinds::in_block(info.kinds, info.owners, e, i) {
            let index = i as u16;
            self.insert(Literal { index, value: 1 });
        }
    }

    // Inserts all cells of the arrow block e as 1. A loop of its own, as `reach::BlockReach::mark_near_floats`.
    fn insert_block(&mut self, info: &BoardInfo<'_>, e: u16)
        requires room { Room info.now self.old }
        ensures { (lent : MutBor (List ℕ)) (t : ℕ → Bool) → Filled info.now lent t self.old
            → Filled info.now lent (λ x. t x || is_in info.now e x) self.new }
    {
        for i in 0..info.grid.size() {
            self.insert_cell(info, e, i);
        }
    }

    // Inserts the arrow block of cell j, if it is in one other than f that is not there yet.
    #[tactic(auto, using(crate::proofs::Fences::disturbing_none, crate::proofs::Fences::disturbing_own, crate::proofs::Fences::none_added))]
    fn insert_disturbing_block(&mut self, info: &BoardInfo<'_>, f: u16, j: usize)
        requires cell { j < cell_count info.now }
        requires room { Room info.now self.old }
        ensures { (lent : MutBor (List ℕ)) (t : ℕ → Bool) → HasWhole info.now t → Filled info.now lent t self.old
            → Filled info.now lent (λ x. t x || disturbs info.now f j x) self.new }
    {
        if info.kinds[j] != ARROW_BLOCK {
            return;
        }
        let e = info.owners[j];
        if e == f {
            return;
        }
        if self.contains(j as u16) {
            return;
        }
        self.insert_block(info, e);
    }

    // Inserts the arrow blocks other than f that cell i touches.
    fn insert_disturbing_blocks(&mut self, info: &BoardInfo<'_>, f: u16, i: usize)
        requires cell { i < cell_count info.now }
        requires room { Room info.now self.old }
        ensures { (lent : MutBor (List ℕ)) (t : ℕ → Bool) → HasWhole info.now t → Filled info.now lent t self.old
            → Filled info.now lent (λ x. t x || disturbs_beside info.now f i x) self.new }
    {
        for k in 0..4 {
            if let Some(j) = info.grid.toward(i, k) {
                self.insert_disturbing_block(info, f, j);
            }
        }
    }

    // Inserts what cell i brings into the fence of the block f, whose reach is marked.
    #[tactic(auto, using(crate::proofs::Fences::adds_untouched, crate::proofs::Fences::none_added, crate::proofs::Ordering::ordered_room))]
    fn insert_fence_of(&mut self, info: &BoardInfo<'_>, marks: &[u8; 1024], f: u16, i: usize)
        requires cell { i < cell_count info.now }
        requires room { Room info.now self.old }
        ensures { (lent : MutBor (List ℕ)) (t : ℕ → Bool) → HasWhole info.now t → Filled info.now lent t self.old
            → Filled info.now lent (λ x. t x || brings info.now marks.now f i x) self.new }
    {
        if info.kinds[i] == VACANT {
            if touches_marked(info, marks, i) {
                let index = i as u16;
                self.insert(Literal { index, value: 0 });
            }
            return;
        }
        if info.cells[i] != UNDECIDED {
            return;
        }
        if touches_marked(info, marks, i) {
            self.insert_disturbing_blocks(info, f, i);
        }
    }

    // Inserts what the cells bring into the fence of the block f, whose reach is marked. A loop of its own, as `insert_block`.
    #[tactic(auto, using(crate::proofs::Fences::among_Whole))]
    fn insert_fence(&mut self, info: &BoardInfo<'_>, marks: &[u8; 1024], f: u16)
        requires room { cell_count info.now < length self.old.part.now }
        requires empty { self.old.count ≡ 0 }
        ensures { Filled info.now self.old.part (brought info.now marks.now f (cell_count info.now)) self.new }
    {
        for i in 0..info.grid.size() {
            self.insert_fence_of(info, marks, f, i);
        }
    }
}

// Whether cell i touches a marked cell. A loop, where `units` has `any`: that takes a second function, of one direction, by whose contract its closure goes. It is
// compiled into its callers: a host call on 32 by 32 cells makes 1,350 instructions fewer.
#[inline(always)]
fn touches_marked(info: &BoardInfo<'_>, marks: &[u8; 1024], i: usize) -> bool
    requires cell { i < cell_count info.now }
    ensures { result ≡ is_touched info.now marks.now i }
{
    for k in 0..4 {
        if let Some(j) = info.grid.toward(i, k) {
            if marks[j] == 1 {
                return true;
            }
        }
    }
    false
}

// Writes the fence of the arrow block f, whose reach is marked, into the part; the number of its literals.
pub fn reason_for_adjacent_floating_boundary(
    info: &BoardInfo<'_>,
    marks: &[u8; 1024],
    f: u16,
    part: &mut [u16],
) -> usize
    requires room { cell_count info.now < length part.old }
    ensures { (arrows : List (List ℕ)) → HasArrows info.now arrows → marks.now ≡ reach_mask (board_of info.now arrows) f
        → Fenced (board_of info.now arrows) f part.old part.new result }
{
    let mut fence = Fence { part, count: 0 };
    fence.insert_fence(info, marks, f);
    fence.count
}
