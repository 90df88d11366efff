// Groups and kinds, computed as often as the list says.
ghost use Rattle.std.specs.Prelude.{ℕ, List, ◌*◌, ◌<◌, ◌≡◌, length, take};
ghost use Rattle.grid.specs.Side.{sized};
ghost use Rattle.grid.specs.Cells.{square};
ghost use Rattle.groups.specs.Arrays.{counts, marked, Names, GroupTable};
ghost use Rattle.kinds.specs.Kinds.{view};
ghost use Rattle.kinds.specs.Inside.{puzzle_with, Given, Held};

use grid::Grid;
use groups::{Groups, Members, NO_GROUP};
use kinds::VACANT;

// What the groups and the kinds of a board are computed of: its grid, the state of each cell, and a mark of each that is on an arrow.
#[derive(Clone, Copy)]
pub struct Marked<'a> {
    pub grid: Grid,
    pub cells: &'a [u8; 1024],
    pub onarrow: &'a [u8; 1024],
}

// How often groups and kinds are computed.
#[derive(Clone, Copy)]
pub struct Rounds {
    pub labels: usize,
    pub kinds: usize,
}

// This loop, the next one and that of `finds` stay three: one over a closure would promise that it was called so many times, and each of the three would still have
// to prove of such a chain of calls what the last of them leaves. What is left of each is its one call.

impl Rounds {
    // Computes the blocks or the potential groups so many times, each time in the same arrays.
    pub fn label(self, board: &Marked<'_>, members: Members) -> Groups
        ensures names { Names result.firsts result.count }
        ensures computed { let n = board.now.grid.height * board.now.grid.width in 0 < self.labels
            → GroupTable (sized board.now.grid.height board.now.grid.width) (counts members (take n board.now.cells.now)) (square (take n board.now.cells.now))
            (marked board.now.onarrow.now) result.labels result.firsts result.squares result.arrowed result.count }
    {
        let mut groups = Groups::new();
        for _i in 0..self.labels {
            groups.compute_connected_components(board.grid, board.cells, board.onarrow, members);
        }
        groups
    }

    // Computes kinds and owners so many times, each time in arrays without any.
    pub fn compute_kinds(
        self,
        board: &Marked<'_>,
        blocks: &Groups,
        kinds: &mut [u8; 1024],
        owners: &mut [u16; 1024],
    )
        ensures { let n = board.now.grid.height * board.now.grid.width in 0 < self.kinds → (arrows : List (List ℕ))
            → let p = puzzle_with (sized board.now.grid.height board.now.grid.width) arrows in
            Given p (take n board.now.cells.now) blocks.now.labels blocks.now.arrowed → Held (view p (take n board.now.cells.now)) kinds.new owners.new }
    {
        for _i in 0..self.kinds {
            *kinds = [VACANT; 1024];
            *owners = [NO_GROUP; 1024];
            kinds::compute_board_info_detailed(board.grid, board.cells, blocks, kinds, owners);
        }
    }
}
