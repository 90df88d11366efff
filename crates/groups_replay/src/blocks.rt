// The arrow blocks of a board: the reach and the fence of each, compared with those that the list has. No `==`: they are held against bytes of the list.
ghost use Rattle.std.specs.Prelude.{ℕ, ◌+◌, ◌*◌, ◌≤◌, List, length, false, IfSome};
ghost use Rattle.groups.specs.Arrays.{Names};
ghost use Rattle.kinds.specs.Board.{cell_count, board_of, HasArrows};
ghost use Rattle.replay.specs.Comparisons.{DiffersUnless};
ghost use Rattle.replay.specs.Lists.{number_at};
ghost use Rattle.replay.specs.Tallies.{run_of};
ghost use Rattle.groups_replay.specs.Blocks.{ReachSo, FenceSo, BlockSo, fence_at, BlockRun, BlockRuns, BlocksRun, arrowed_names};

use groups::Groups;
use kinds::BoardInfo;
use replay::{Cursor, Run};

// Whether the size and the marks of a reach differ from those of the block that the list has at the cursor, with a mark for each of n cells.
fn reach_differs(block: Cursor<'_>, n: usize, size: usize, marks: &[u8; 1024]) -> bool
    requires { block.at + 4 ≤ length block.list.now }
    ensures { DiffersUnless result (ReachSo block.entry.list.now block.entry.at n size marks.now) }
{
    block.number_at(2) != size || block.on(4).cells_differ(n, marks, 0)
}

// Whether a fence of this size in a fresh buffer differs from the one that the list has at the cursor, with so many literals.
fn fence_differs(fence: Cursor<'_>, count: usize, size: usize, part: &[u16; 4096]) -> bool
    requires { fence.at + 2 ≤ length fence.list.now }
    ensures { DiffersUnless result (FenceSo fence.entry.list.now fence.entry.at count size part.now) }
{
    count != size || fence.on(2).literals_differ(count, part)
}

// Whether the reach and the fence of the arrow block f differ from those of the block that the list has at the cursor.
fn block_differs(block: Cursor<'_>, info: &BoardInfo<'_>, f: u16) -> bool
    requires place { fence_at block.at (cell_count info.now) + 2 ≤ length block.list.now }
    ensures { let list = block.entry.list.now in let at = block.entry.at in let n = cell_count info.now in
        (arrows : List (List ℕ)) → HasArrows info.now arrows
        → DiffersUnless result (BlockSo (board_of info.now arrows) f list at n (fence_at at n) (number_at list (fence_at at n))) }
{
    let n = info.grid.size();
    let fence = block.on(4 + n);
    let reach = reach::compute_reach(info, f);
    let mut part = [replay::NO_LITERAL; 4096];
    let written = fence::reason_for_adjacent_floating_boundary(info, &reach.marks, f, &mut part);
    reach_differs(block, n, reach.size, &reach.marks)
        || fence_differs(fence, block.number_at(4 + n), written, &part)
}

// Compares the arrow block f with the block that the list has at the cursor.
fn run_block(block: Cursor<'_>, info: &BoardInfo<'_>, f: u16) -> Run
    ensures held { let n = cell_count info.now in
        (arrows : List (List ℕ)) → HasArrows info.now arrows
        → BlockRun (board_of info.now arrows) f block.entry.list.now block.entry.at n result }
    ensures within { IfSome result.end (λ place. place ≤ length block.entry.list.now) }
{
    let fence = 4 + info.grid.size();
    let end = block.at + fence + 2 + 2 * block.number_at(fence);
    if block.list.len() < end {
        return Run::broken();
    }
    let differs = block_differs(block, info, f);
    Run::of(
        differs || replay::number_at(block.list, block.at) != usize::from(f),
        end,
    )
}

// Compares the arrow blocks, from the first on that the list has behind their number at the cursor, as long as it goes on behind them: of the first cells of
// all blocks, those whose count of arrow cells is not 0.
fn run_names(start: Cursor<'_>, info: &BoardInfo<'_>, blocks: &Groups) -> Option<Run>
    requires place { start.at + 2 ≤ length start.list.now }
    requires names { Names blocks.now.firsts blocks.now.count }
    ensures { let n = cell_count info.now in
        (arrows : List (List ℕ)) → HasArrows info.now arrows
        → BlockRuns (board_of info.now arrows) start.entry.list.now n (arrowed_names blocks.now) (run_of false (start.entry.at + 2)) result }
{
    let list = start.list;
    let mut found = Run::of(false, start.at + 2);
    for &f in &blocks.firsts[..blocks.count] {
        if blocks.arrowed[usize::from(f)] != 0 {
            let at = found.end?;
            found = found.then(run_block(Cursor { list, at }, info, f));
        }
    }
    Some(found)
}

// Compares the arrow blocks with those of the list: it has their number at the cursor, and then the blocks.
pub fn run_blocks(start: Cursor<'_>, info: &BoardInfo<'_>, blocks: &Groups) -> Run
    requires place { start.at + 2 ≤ length start.list.now }
    requires names { Names blocks.now.firsts blocks.now.count }
    ensures { let n = cell_count info.now in
        (arrows : List (List ℕ)) → HasArrows info.now arrows
        → BlocksRun (board_of info.now arrows) start.entry.list.now start.entry.at n (arrowed_names blocks.now) result }
{
    match run_names(start, info, blocks) {
        Some(found) => found.also(replay::number_at(start.list, start.at) != found.parts),
        None => Run::broken(),
    }
}
