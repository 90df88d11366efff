// The call `evolmino_shades`: a record is opened, decisions are made in order, and the shades of the board are written.
ghost use Rattle.std.specs.Prelude.{◌≡◌, length};
ghost use Rattle.fields.specs.Inside.{Agrees};
ghost use Rattle.grid.specs.Side.{sized};
ghost use Rattle.record.specs.Record.{read_record};
ghost use Rattle.exported.specs.Written.{written, output_with, Writes};
ghost use Rattle.calls.specs.Shaded.{host_shades};

use grid::Grid;
use record::Problem;
use refusal::Refusal;

// Reads a record for its grid. It is a function of its own so that the arrays of the problem leave the stack before the board is shaded.
#[inline(never)]
fn measure(record: &[u8]) -> Result<Grid, Refusal>
    ensures { Agrees (read_record «record».now) (λ p grid. sized grid.height grid.width ≡ p.grid) result }
{
    let mut problem = Problem::new();
    problem.read_record_in(record)?;
    Ok(problem.grid())
}

// Opens the record in edition 1, decides in order and writes the shades: how many bytes they are. Nothing is tested, as in `first_reason`. It is no `Question` of `ask`:
// that keeps the problem on the stack while it asks, and here its grid alone is wanted.
fn shade(record: &[u8], decisions: &[u8], output: &mut [u8]) -> Result<usize, Refusal>
    ensures { Writes (host_shades «record».now decisions.now (length output.old)) result output.old output.new }
{
    let grid = measure(record)?;
    let count = 2 * grid.size();
    if output.len() < 2 * count {
        return Err(Refusal::OutputShort);
    }
    let cells = crate::decide_in_order(grid, decisions)?;
    let shades = shades::shade_cells(grid, &cells);
    exported::write_numbers(&shades, count, output);
    Ok(2 * count)
}

// Opens the record in edition 1, decides in order and writes for each cell of the grid in row order the first cell of its block and the block's count
// of squares, two bytes each, most significant first; 0 and 0 for a cell that is not square. Returns how many bytes are written, or the
// negated number of a refusal, which leaves the output as it was. The refusals come in `first_reason`'s order, and nothing is tested, as there.
pub fn shades(record: &[u8], decisions: &[u8], output: &mut [u8]) -> i32
    ensures { (result ≡ written (host_shades «record».now decisions.now (length output.old)))
        × (output.new ≡ output_with (host_shades «record».now decisions.now (length output.old)) output.old) }
{
    refusal::returned(shade(record, decisions, output))
}
