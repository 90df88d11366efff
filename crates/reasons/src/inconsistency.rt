// The first reason that applies, on a leaf that is lent and the states of its cells.
ghost use Rattle.literals.specs.Inside.{FoundAs};
ghost use Rattle.kinds.specs.Board.{board_of, HasArrows};
ghost use Rattle.reach.specs.Board.{OwnerSizes};
ghost use Rattle.growth.specs.Pairs.{BlockSizes};
ghost use Rattle.sizes.specs.LeafOf.{leaf_of};
ghost use Rattle.reasons.specs.Inconsistency.{find_reason};
ghost use Rattle.reasons.specs.Lent.{leaf_arrows, leaf_cells, leaf_board, HasGrid, HasBlocks, HasRoom, arrow_reasons};

use groups::{Groups, Members};
use growth::Scene;
use kinds::BoardInfo;
use reach::Linked;
use reach::near::{self, Floats};
use shift::Work;
use sizes::LentLeaf;

// Reasons 3 and 4, else 5, if one applies, on the linked cells of the leaf. The scene is put together here, of parts that are lent for one time: in
// `check_arrows`, which makes them, the check of borrows covers no scene, since its field `linked` holds references of other times, even with a copy of
// the states.
fn search_arrows(
    leaf: &LentLeaf<'_>,
    linked: Linked<'_>,
    sizes: &[u16; 1024],
    squares: &[u16; 1024],
    mut work: Work<'_>,
    buffer: &mut [u16],
) -> Option<usize>
    requires grid { HasGrid leaf.now linked.info.grid }
    requires arrows { HasArrows linked.info (leaf_arrows leaf.now) }
    requires counts { OwnerSizes linked.info sizes.now }
    requires blocks { BlockSizes linked.info squares.now }
    requires room { HasRoom leaf.now buffer.old }
    ensures { FoundAs (arrow_reasons leaf.now (board_of linked.entry.info (leaf_arrows leaf.now))) buffer.old buffer.new result }
{
    let scene = Scene {
        linked,
        sizes,
        squares,
    };
    let finding = pairs::search_pairs(leaf.edition, leaf.problem, &scene, &mut work, buffer);
    // No `or_else`, here and below, as in `pairs::fourth`: its closure would be lent the buffer.
    if let Some(literals) = finding {
        return Some(literals);
    }
    sized::check_sizes(&leaf.sizes, &scene, &mut work.floats, buffer)
}

// Reasons 3 and 4, else 5, if one applies, from the blocks of the leaf. The searches work in the arrays of their labels, names and arrow cells, which
// nothing reads any more then.
fn check_arrows(
    leaf: &LentLeaf<'_>,
    cells: &[u8; 1024],
    blocks: &mut Groups,
    buffer: &mut [u16],
) -> Option<usize>
    requires blocks { HasBlocks leaf.now cells.now blocks.old }
    requires room { HasRoom leaf.now buffer.old }
    ensures { FoundAs (arrow_reasons leaf.now (leaf_board leaf.now cells.now)) buffer.old buffer.new result }
{
    let grid = leaf.grid();
    let n = grid.size();
    let mut kinds = [kinds::VACANT; 1024];
    let mut owners = [groups::NO_GROUP; 1024];
    kinds::compute_board_info_detailed(grid, cells, &*blocks, &mut kinds, &mut owners);
    let mut head = [reach::NO_CELL; 1024];
    let mut next = [reach::NO_CELL; 1024];
    let mut sizes = [0u16; 1024];
    reach::chain_cells(&owners, n, &mut head, &mut next);
    near::count_cells(&kinds, &owners, n, &mut sizes);
    let squares = &blocks.squares;
    let info = BoardInfo {
        grid,
        cells,
        kinds: &kinds,
        owners: &owners,
    };
    let linked = Linked {
        info,
        head: &head,
        next: &next,
    };
    let mut near = [0u8; 1024];
    let floats = Floats {
        near: &mut near,
        groups: &mut blocks.firsts,
    };
    let work = Work {
        floats,
        rows: &mut blocks.labels,
        columns: &mut blocks.arrowed,
    };
    search_arrows(leaf, linked, &sizes, squares, work, buffer)
}

// The first reason that applies, if there is one, on the leaf that is lent and the states of its cells: how many literals of it stand in the buffer.
pub fn find_inconsistency(
    leaf: &LentLeaf<'_>,
    cells: &[u8; 1024],
    buffer: &mut [u16],
) -> Option<usize>
    requires room { HasRoom leaf.now buffer.old }
    ensures { FoundAs (find_reason (leaf_of leaf.now) (leaf_cells leaf.now cells.now)) buffer.old buffer.new result }
{
    let grid = leaf.grid();
    let onarrow = groups::mark_arrow_cells(&leaf.problem.arrows[..leaf.problem.arrow_total()]);
    let mut groups = Groups::new();
    groups.compute_connected_components(grid, cells, &onarrow, Members::Potential);
    let first = units::check_potential_groups(grid, cells, &groups, buffer);
    if let Some(count) = first {
        return Some(count);
    }
    groups.compute_connected_components(grid, cells, &onarrow, Members::Squares);
    let second = paths::check_blocks(grid, cells, &groups, &onarrow, buffer);
    if let Some(count) = second {
        return Some(count);
    }
    check_arrows(leaf, cells, &mut groups, buffer)
}
