// Reason 5: sized cells that are square, whose blocks can't become as large as the lowest size or are larger than the highest.
#![tactic(auto)]

ghost use Rattle.std.specs.Prelude.{List, ℕ, ◌<◌, length};
ghost use Rattle.literals.specs.Inside.{FoundAs};
ghost use Rattle.growth.specs.Pairs.{HasRoom};
ghost use Rattle.growth.specs.Scenes.{scene_board};
ghost use Rattle.sized.specs.Sized.{reason5};
ghost use Rattle.sized.specs.Inside.{Measured};
ghost use Rattle.sized.specs.Ranges.{ranges_of, reason5_on, SizesWith, SizesOf};

use growth::Scene;
use reach::near::Floats;
use sizes::SizeRanges;

// A block against the sizes of its cell: it may come to lie within them, its reach is too small, or it is too large.
#[derive(Clone, Copy, Debug, PartialEq, Eq)]
enum Measure {
    Within,
    Low,
    High,
}

// The size of a block's reach against the lowest size, and otherwise its own against the highest.
#[tactic(auto, using(crate::specs::Inside::too_high, crate::specs::Inside::too_low, crate::specs::Inside::within))]
fn measured(low: usize, high: usize, reach: usize, size: usize) -> Measure
    ensures { Measured low high reach size result }
{
    if reach < low {
        return Measure::Low;
    }
    if high < size {
        return Measure::High;
    }
    Measure::Within
}

// Reason 5 for cell i: none where it has no sizes or is not square.
fn check_size(
    sizes: &SizeRanges<'_>,
    scene: &Scene<'_>,
    i: usize,
    floats: &mut Floats<'_>,
    buffer: &mut [u16],
) -> Option<usize>
    requires board { SizesOf sizes.now scene.now }
    requires cell { i < length sizes.now.lowest.now }
    requires room { HasRoom scene.now.linked.info buffer.old }
    ensures { (lines : List (List ℕ)) → SizesWith sizes.now scene.now lines
        → FoundAs (reason5_on sizes.now (scene_board scene.now lines) i) buffer.old buffer.new result }
{
    let info = &scene.linked.info;
    let low = usize::from(sizes.lowest[i]);
    if low == 0 {
        return None;
    }
    if info.cells[i] != grid::SQUARE {
        return None;
    }
    let high = usize::from(sizes.highest[i]);
    let block = info.owners[i];
    let reach = scene.count_reach(block, floats);
    let size = scene.block_size(block);
    match measured(low, high, reach, size) {
        Measure::Low => Some(growth::reason_for_cell(info, i, block, buffer)),
        Measure::High => {
            let n = info.grid.size();
            Some(growth::reason_for_arrow_block(info.kinds, info.owners, n, block, buffer))
        }
        Measure::Within => None,
    }
}

// Reason 5 for the cells by index. A board without sizes lends none, and pays for none.
pub fn check_sizes(
    sizes: &SizeRanges<'_>,
    scene: &Scene<'_>,
    floats: &mut Floats<'_>,
    buffer: &mut [u16],
) -> Option<usize>
    requires board { SizesOf sizes.now scene.now }
    requires room { HasRoom scene.now.linked.info buffer.old }
    ensures { (lines : List (List ℕ)) → SizesWith sizes.now scene.now lines
        → FoundAs (reason5 (scene_board scene.now lines) (ranges_of sizes.now)) buffer.old buffer.new result }
{
    // Over a range: its numbers are the cells, which the reason names, and `lowest` and `highest` are read at them as the states and the owners are. No `find_map`: as in
    // `pairs::search_arrows`, its closure would be lent what is worked in.
    for i in 0..sizes.lowest.len() {
        if let Some(literals) = check_size(sizes, scene, i, floats, buffer) {
            return Some(literals);
        }
    }
    None
}
