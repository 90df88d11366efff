// Reasons 3 and 4: the search for them along the arrows.
#![tactic(auto)]

pub mod fourth;

ghost use Rattle.std.specs.Prelude.{List, ◌≡◌, ℕ, ◌+◌, ◌≤◌, ◌<◌, length, MatchOption};
ghost use Rattle.grid.specs.Lists.{flat_map};
ghost use Rattle.groups.specs.Arrows.{Pair, pairs};
ghost use Rattle.kinds.specs.Kinds.{View};
ghost use Rattle.literals.specs.Inside.{FoundAs};
ghost use Rattle.literals.specs.Literals.{Found, first_found_of};
ghost use Rattle.growth.specs.Pairs.{ArePlaces, NextSquare, HasRoom};
ghost use Rattle.growth.specs.Growth.{reason3_at, reason34};
ghost use Rattle.growth.specs.Scenes.{arrows_of, pair_of, scene_board, scene_cells, HasStretch, HasPair, HasLine, HasSquares, HasProblem};

use fourth::Fourth;
use growth::{Scene, SquarePair};
use record::Problem;
use shift::Work;

// A reason that may apply to two squares of an arrow with none between. It is searched for in a W, whatever stands there.
pub trait PairReason<W> {
    ghost finds: { Self → View → Pair → Found };

    // The reason for the two, if it applies.
    fn check(
        &self,
        scene: &Scene<'_>,
        pair: &SquarePair<'_>,
        work: &mut W,
        buffer: &mut [u16],
    ) -> Option<usize>
        requires squares { HasSquares scene.now pair.now }
        requires room { HasRoom scene.now.linked.info buffer.old }
        ensures { (lines : List (List ℕ)) → HasPair scene.now lines pair.now
            → FoundAs (finds self.now (scene_board scene.now lines) (pair_of pair.now)) buffer.old buffer.new result };
}

// Reason 3: no shift of the earlier square's block lies in the reach of the later one's.
#[derive(Clone, Copy)]
struct Third;

impl PairReason<Work<'_>> for Third {
    ghost finds = { λ _. reason3_at };

    fn check(
        &self,
        scene: &Scene<'_>,
        pair: &SquarePair<'_>,
        work: &mut Work<'_>,
        buffer: &mut [u16],
    ) -> Option<usize> {
        let info = &scene.linked.info;
        let last_block = info.owners[pair.last_cell()];
        let cell = pair.cur_cell();
        let block = info.owners[cell];
        if shift::shift_fits(&scene.linked, scene.squares, last_block, block, work) {
            return None;
        }
        let literals = growth::reason_for_pair(info, last_block, cell, block, buffer);
        Some(literals)
    }
}

// The first place from `from` on that holds a square.
fn next_square(cells: &[u8; 1024], arrow: &[u16], from: usize) -> Option<usize>
    requires places { ArePlaces arrow.now }
    requires from { from ≤ length arrow.now }
    ensures { MatchOption result (NextSquare cells.now arrow.now from (length arrow.now) (length arrow.now))
        (λ k. (k < length arrow.now) × NextSquare cells.now arrow.now from (length arrow.now) k) }
{
    (from..arrow.len()).find(|&k| cells[usize::from(arrow[k])] == grid::SQUARE)
}

// The first reason among the pairs of an arrow.
fn search_arrow<W, R: PairReason<W>>(
    by: &R,
    scene: &Scene<'_>,
    arrow: &[u16],
    work: &mut W,
    buffer: &mut [u16],
) -> Option<usize>
    requires line { HasLine scene.now arrow.now }
    requires room { HasRoom scene.now.linked.info buffer.old }
    ensures { (lines : List (List ℕ)) → HasStretch scene.now lines arrow.now
        → FoundAs (first_found_of (R.finds by.now (scene_board scene.now lines)) (pairs (scene_cells scene.now) arrow.now)) buffer.old buffer.new result }
{
    let cells = scene.linked.info.cells;
    let mut last = next_square(cells, arrow, 0)?;
    // A `while`: where the next square stands depends on the one that was found.
    while let Some(cur) = next_square(cells, arrow, last + 1) {
        let pair = SquarePair {
            cells: &arrow[last..=cur],
        };
        if let Some(literals) = by.check(scene, &pair, work, buffer) {
            return Some(literals);
        }
        last = cur;
    }
    None
}

// The first reason among the pairs of all arrows, in record order.
fn search_arrows<W, R: PairReason<W>>(
    by: &R,
    problem: &Problem,
    scene: &Scene<'_>,
    work: &mut W,
    buffer: &mut [u16],
) -> Option<usize>
    requires whole { HasProblem scene.now problem.now }
    requires room { HasRoom scene.now.linked.info buffer.old }
    ensures { let lines = arrows_of problem.now in
        FoundAs (first_found_of (R.finds by.now (scene_board scene.now lines)) (flat_map (pairs (scene_cells scene.now)) lines)) buffer.old buffer.new result }
{
    // No `find_map`: its closure would be lent `work` and `buffer`, and of what it leaves there a proof would know a chain of calls, in place of the one before.
    for k in 0..problem.count {
        let arrow = problem.arrow(k);
        if let Some(literals) = search_arrow(by, scene, arrow, work, buffer) {
            return Some(literals);
        }
    }
    None
}

// Reason 3 for every pair of every arrow; only where none meets it, reason 4.
pub fn search_pairs(
    edition: u8,
    problem: &Problem,
    scene: &Scene<'_>,
    work: &mut Work<'_>,
    buffer: &mut [u16],
) -> Option<usize>
    requires edition { edition ≡ 0 → ⊥ }
    requires whole { HasProblem scene.now problem.now }
    requires room { HasRoom scene.now.linked.info buffer.old }
    ensures { FoundAs (reason34 edition (scene_board scene.now (arrows_of problem.now))) buffer.old buffer.new result }
{
    // No `or_else`, as in `Fourth`.
    if let Some(literals) = search_arrows(&Third, problem, scene, work, buffer) {
        return Some(literals);
    }
    search_arrows(
        &Fourth { edition },
        problem,
        scene,
        &mut work.floats,
        buffer,
    )
}
