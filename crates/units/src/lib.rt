// Reason 1: a potential group with a square and no arrow cell.
#![tactic(auto)]

ghost use Rattle.std.specs.Prelude.{◌≡◌, ℕ, ◌<◌, length, List, find, All};
ghost use Rattle.std.specs.Option.{unwrap_or};
ghost use Rattle.groups.specs.Arrays.{Names};
ghost use Rattle.literals.specs.Inside.{Wrote, FoundAs};
ghost use Rattle.units.specs.Units.{reason1};
ghost use Rattle.units.specs.Arrays.{stranded};
ghost use Rattle.units.specs.Inside.{HasPotentials};
ghost use Rattle.units.specs.Lent.{cells_in, puzzle_on, states_on, HasRoom};

use grid::Grid;
use groups::Groups;
use literals::{Literal, Literals};

// One of the potential groups of a board, by its name: its first cell.
#[derive(Clone, Copy)]
struct PotentialGroup<'a> {
    grid: Grid,
    cells: &'a [u8; 1024],
    labels: &'a [u16; 1024],
    name: u16,
}

impl PotentialGroup<'_> {
    ghost use Rattle.units.specs.Inside.{has_square, last_square, touched_toward, touched, on_boundary, boundary, HasLabels};

    // Whether the neighbour of cell i in direction k, if there is one, is in the group.
    #[tactic(auto, using(crate::proofs::Sides::toward_some, crate::proofs::Sides::toward_none))]
    fn touches_toward(&self, i: usize, k: usize) -> bool
        requires { (i < cells_in self.now.grid) × (k < 4) }
        ensures { result ≡ touched_toward self.now i k }
    {
        match self.grid.toward(i, k) {
            Some(j) => self.labels[j] == self.name,
            None => false,
        }
    }

    // Whether cell i touches the group.
    fn touches(&self, i: usize) -> bool
        requires { i < cells_in self.now.grid }
        ensures { result ≡ touched self.now i }
    {
        (0..4).any(|k| self.touches_toward(i, k))
    }

    // Whether cell i is empty and touches the group.
    fn on_boundary(&self, i: usize) -> bool
        requires { i < cells_in self.now.grid }
        ensures { result ≡ on_boundary self.now i }
    {
        self.cells[i] == grid::EMPTY && self.touches(i)
    }

    // Whether cell i is a square of the group.
    fn has_square(&self, i: usize) -> bool
        requires { i < 1024 }
        ensures { result ≡ has_square self.now i }
    {
        self.labels[i] == self.name && self.cells[i] == grid::SQUARE
    }

    // The last square of the group, if there is one.
    fn last_square(&self) -> Option<usize>
        ensures { unwrap_or result 0 ≡ last_square self.now }
    {
        (0..self.grid.size()).rev().find(|&i| self.has_square(i))
    }

    // The literals of reason 1: the empty cells that touch the group, and then its last square.
    fn reason_for_boundary(&self, buffer: &mut [u16]) -> usize
        requires { cells_in self.now.grid < length buffer.old }
        ensures { HasLabels self.now → self.now.name < 1024 → Wrote (boundary self.now) buffer.old buffer.new result }
    {
        let mut boundary = Literals {
            out: buffer,
            count: 0,
        };
        for i in 0..self.grid.size() {
            if self.on_boundary(i) {
                boundary.push(Literal {
                    index: i as u16,
                    value: 0,
                });
            }
        }
        let last = self.last_square().unwrap_or(0);
        boundary.push(Literal {
            index: last as u16,
            value: 1,
        });
        boundary.count
    }
}

// The name of the lowest numbered group with a square and no arrow cell, of those that are listed. A group's name is its first cell.
#[tactic(auto, unfolding(crate::specs::Arrays::stranded))]
fn find_stranded(names: &[u16], squares: &[u16; 1024], arrowed: &[u16; 1024]) -> Option<u16>
    requires { All (λ f. f < 1024) names.now }
    ensures { result ≡ find (stranded squares.now arrowed.now) names.now }
{
    names.iter().copied().find(|&f| squares[usize::from(f)] != 0 && arrowed[usize::from(f)] == 0)
}

// How many literals reason 1 has, which stand in the buffer then, or none where it does not apply. The groups are the potential groups.
pub fn check_potential_groups(
    grid: Grid,
    cells: &[u8; 1024],
    groups: &Groups,
    buffer: &mut [u16],
) -> Option<usize>
    requires names { Names groups.now.firsts groups.now.count }
    requires room { HasRoom grid buffer.old }
    ensures { (lines : List (List ℕ)) → HasPotentials grid lines cells.now groups.now
        → FoundAs (reason1 (puzzle_on grid lines) (states_on grid cells.now)) buffer.old buffer.new result }
{
    let f = find_stranded(
        &groups.firsts[..groups.count],
        &groups.squares,
        &groups.arrowed,
    )?;
    let group = PotentialGroup {
        grid,
        cells,
        labels: &groups.labels,
        name: f,
    };
    Some(group.reason_for_boundary(buffer))
}
