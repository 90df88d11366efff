// Shades: for each cell the first cell of its block and the block's count of squares, by which the app numbers and tints blocks.
#![tactic(auto)]

ghost use Rattle.std.specs.Prelude.{◌≡◌, ◌*◌, ◌≤◌, take};
ghost use Rattle.grid.specs.Side.{sized};
ghost use Rattle.refusal.specs.Refusals.{outcome_of};
ghost use Rattle.shades.specs.Shades.{shades_on, in_places, shades_of, shaded_as};
ghost use Rattle.shades.specs.Inside.{pairs_by};

use board::Board;
use grid::Grid;
use groups::{Groups, Members, NO_GROUP};
use refusal::Refusal;

// The two numbers of each cell below n, from the name of its block and the counts of squares by name, with 0 behind them. By index: of pairs that are written
// through `chunks_exact_mut` a proof does not know what they hold.
#[tactic(auto, using(crate::proofs::PairLaws::pairs_next, crate::proofs::PairLaws::pairs_none, crate::proofs::PairLaws::pairs_placed))]
fn cell_pairs(groups: &[u16; 1024], squares: &[u16; 1024], n: usize) -> [u16; 2048]
    requires { n ≤ 1024 }
    ensures { result ≡ in_places (pairs_by groups.now squares.now n) }
{
    let mut shades = [0; 2048];
    for i in 0..n {
        let f = groups[i];
        let count = squares[usize::from(f) % 1024];
        let square = f < NO_GROUP;
        let at = 2 * i;
        shades[at] = grid::pick(square, f, 0);
        shades[at + 1] = grid::pick(square, count, 0);
    }
    shades
}

// The shades of a board on a grid, from the states of its cells, with 0 behind them. Arrows don't matter to it.
pub fn shade_cells(grid: Grid, cells: &[u8; 1024]) -> [u16; 2048]
    ensures { result ≡ in_places (shades_on (sized grid.height grid.width) (take (grid.height * grid.width) cells.now)) }
{
    let onarrow = [0u8; 1024];
    let mut blocks = Groups::new();
    blocks.compute_connected_components(grid, cells, &onarrow, Members::Squares);
    cell_pairs(&blocks.labels, &blocks.squares, grid.size())
}

// The shades of a board: two numbers for each cell of the grid in row order, the first cell of its block and the block's count of squares, with 0 behind
// them. Refused: 6 a board that no list of calls could leave.
pub fn shades(board: Board) -> Result<[u16; 2048], Refusal>
    ensures { outcome_of result ≡ shaded_as (shades_of board) }
{
    if !board.is_formed() {
        return Err(Refusal::Board);
    }
    Ok(shade_cells(board.problem.grid(), &board.cells))
}
