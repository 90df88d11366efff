// Reason 4 for two squares of an arrow with none between: (a) and (b).
ghost use Rattle.std.specs.Prelude.{◌≡◌, List, All, ℕ, ◌+◌, false, length, ◌<◌, ◌≤◌};
ghost use Rattle.grid.specs.Lists.{filter};
ghost use Rattle.grid.specs.Cells.{empty};
ghost use Rattle.literals.specs.Literals.{each};
ghost use Rattle.literals.specs.Inside.{Wrote, FoundAs};
ghost use Rattle.growth.specs.Pairs.{HasRoom};
ghost use Rattle.growth.specs.Growth.{most_apart, gap, reason4a_at, reason4b_at, reason4_at};
ghost use Rattle.growth.specs.Scenes.{pair_of, scene_board, HasPair, HasSquares};

use crate::PairReason;
use grid::{EMPTY, UNDECIDED};
use growth::{Scene, SquarePair};
use literals::{Literal, Literals};
use reach::near::Floats;

// Reason 4 (a): the later square's reach is too small for the earlier one's block and one more.
#[derive(Clone, Copy)]
pub struct Growth;

impl PairReason<Floats<'_>> for Growth {
    ghost finds = { λ _. reason4a_at };

    fn check(
        &self,
        scene: &Scene<'_>,
        pair: &SquarePair<'_>,
        floats: &mut Floats<'_>,
        buffer: &mut [u16],
    ) -> Option<usize> {
        let info = &scene.linked.info;
        let last_block = info.owners[pair.last_cell()];
        let cell = pair.cur_cell();
        let block = info.owners[cell];
        let reach = scene.count_reach(block, floats);
        if scene.block_size(last_block) < reach {
            return None;
        }
        Some(growth::reason_for_pair(info, last_block, cell, block, buffer))
    }
}

// The part of the arrow between the two squares, without the cell next to either: the gap of the pair.
#[tactic(auto, using(growth::proofs::PairChecks::gap_inner))]
fn gap_of<'a>(pair: &SquarePair<'a>) -> &'a [u16]
    requires { 1 < length pair.now.cells.now }
    ensures { result.now ≡ gap (pair_of pair.now) }
{
    match pair.cells {
        [_, _, gap @ .., _, _] => gap,
        _ => &[],
    }
}

// The most undecided cells of a part of an arrow, no two of them consecutive: an undecided cell is counted wherever the one before it was not.
#[tactic(auto, using(growth::proofs::Gap::apart_behind, growth::proofs::Gap::apart_counted, growth::proofs::Gap::apart_passed, growth::proofs::Gap::apart_end))]
pub fn gap_count(cells: &[u8; 1024], gap: &[u16]) -> usize
    requires places { All (λ i. i < 1024) gap.now }
    ensures most { result ≡ most_apart cells.now false gap.now }
    ensures few { result ≤ length gap.now }
{
    // With a flag: whether the cell before was counted is all that the next one asks. A `fold` would carry it beside the count as a pair.
    let mut count = 0;
    let mut counted = false;
    for &i in gap {
        counted = !counted && cells[usize::from(i)] == UNDECIDED;
        count += usize::from(counted);
    }
    count
}

// The empty cells of a part of an arrow, in its order.
pub fn reason_for_gap(cells: &[u8; 1024], gap: &[u16], buffer: &mut [u16]) -> usize
    requires places { All (λ i. i < 1024) gap.now }
    requires room { length gap.now ≤ length buffer.old }
    ensures { Wrote (each 0 (filter (empty cells.now) gap.now)) buffer.old buffer.new result }
{
    let mut literals = Literals {
        out: buffer,
        count: 0,
    };
    for &index in gap {
        if cells[usize::from(index)] == EMPTY {
            literals.push(Literal { index, value: 0 });
        }
    }
    literals.count
}

// Reason 4 (b): the later square's block is too large for the earlier one's reach, one more and the gap.
#[derive(Clone, Copy)]
pub struct Gap;

impl PairReason<Floats<'_>> for Gap {
    ghost finds = { λ _. reason4b_at };

    fn check(
        &self,
        scene: &Scene<'_>,
        pair: &SquarePair<'_>,
        floats: &mut Floats<'_>,
        buffer: &mut [u16],
    ) -> Option<usize> {
        let info = &scene.linked.info;
        let cell = pair.last_cell();
        let last_block = info.owners[cell];
        let block = info.owners[pair.cur_cell()];
        let reach = scene.count_reach(last_block, floats);
        let gap = gap_of(pair);
        let most = gap_count(info.cells, gap);
        if scene.block_size(block) <= reach + 1 + most {
            return None;
        }
        let literals = growth::reason_for_pair(info, block, cell, last_block, buffer);
        let more = reason_for_gap(info.cells, gap, &mut buffer[literals..]);
        Some(literals + more)
    }
}

// Reason 4 in an edition: (a), and in edition 1 then (b). The edition is a number, as that of a leaf that is lent: every one but 1 is played as 2.
#[derive(Clone, Copy)]
pub(crate) struct Fourth {
    pub(crate) edition: u8,
}

impl PairReason<Floats<'_>> for Fourth {
    ghost finds = { λ by view pair. reason4_at view pair by.edition };

    fn check(
        &self,
        scene: &Scene<'_>,
        pair: &SquarePair<'_>,
        floats: &mut Floats<'_>,
        buffer: &mut [u16],
    ) -> Option<usize> {
        let finding = Growth.check(scene, pair, floats, buffer);
        if self.edition != 1 {
            return finding;
        }
        // No `or_else`: its closure would be lent the buffer, and where there is a finding its contract does not say that the buffer was left as it was.
        if let Some(literals) = finding {
            return Some(literals);
        }
        Gap.check(scene, pair, floats, buffer)
    }
}
