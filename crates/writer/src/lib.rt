// Writing a record: fields of a few bits, most significant bit first, into a lent slice.
#![tactic(auto)]

ghost use Rattle.std.specs.Prelude.{◌≡◌, [], ◌∷◌, ◌+◌, ◌-◌, ◌*◌, ◌^◌, ◌≤◌, ◌<◌, length, get_or, drop};
ghost use Rattle.grid.specs.Lists.{flat_map};
ghost use Rattle.grid.specs.Side.{sized};
ghost use Rattle.record.specs.Problem.{puzzle_of, total_of, grid_of};
ghost use Rattle.record.specs.Write.{write_record, bits_of, direction as direction_of, step_bits, arrow_bits, record_bits};
ghost use Rattle.record.specs.Lines.{Lines};
ghost use Rattle.writer.specs.Wrote.{put_byte, Appends, Room, IsArrow, arrows_size, fields_size, Ready, Recorded};

use form::accepted::Accepted;
use grid::Grid;
use record::Problem;

// What bit r of a byte counts, the first being bit 0.
fn weight(r: usize) -> usize
    requires { r < 8 }
    ensures { result ≡ 2 ^ (7 - r) }
{
    1usize << (7 - r)
}

// The byte with bit r put in: what stands before it is kept, and what stands behind it is cleared.
#[tactic(auto, using(crate::proofs::PutLaws::sum_small))]
fn with_bit(byte: u8, r: usize, bit: usize) -> u8
    requires { (r < 8) × (bit ≤ 1) }
    ensures { result ≡ put_byte r byte bit }
{
    let w = weight(r);
    let kept = usize::from(byte) / (2 * w) * (2 * w);
    (kept + w * bit) as u8
}

// The code of the step from the cell i to its neighbour j. No `From`: it asks for cells of one grid.
#[tactic(auto, using(crate::proofs::DirectionLaws::code_up, crate::proofs::DirectionLaws::code_down, crate::proofs::DirectionLaws::code_left, crate::proofs::DirectionLaws::code_right))]
fn direction(grid: Grid, i: usize, j: usize) -> usize
    requires { (i < grid.height * grid.width) × (j < grid.height * grid.width) }
    ensures { result ≡ direction_of (sized grid.height grid.width) i j }
{
    if j + grid.width == i {
        return grid::UP;
    }
    if j == i + grid.width {
        return grid::DOWN;
    }
    if j + 1 == i && grid.column(i) != 0 {
        return grid::LEFT;
    }
    grid::RIGHT
}

// A record that is being written: `at` bits so far, with zeros behind them in their last byte. Apart from `text::Text`, which puts whole bytes behind
// one another: here each bit changes a byte that stands there already.
#[derive(Drop)]
struct BitWriter<'a> {
    out: &'a mut [u8],
    at: usize,
}

impl BitWriter<'_> {
    // Writes one bit, and clears the rest of its byte.
    fn put_bit(&mut self, bit: usize)
        requires { (bit ≤ 1) × Room self.old 1 }
        ensures { Appends 1 (bit ∷ []) self.old self.new }
    {
        let q = self.at / 8;
        let byte = self.out[q];
        self.out[q] = with_bit(byte, self.at % 8, bit);
        self.at += 1;
    }

    // Writes the k low bits of x.
    fn put(&mut self, x: usize, k: usize)
        requires { Room self.old k }
        ensures { Appends k (bits_of x k) self.old self.new }
    {
        if k == 0 {
            return;
        }
        self.put(x / 2, k - 1);
        self.put_bit(x % 2);
    }

    // Writes the codes of cells.
    fn write_cells(&mut self, codes: &[u8])
        requires { Room self.old (2 * length codes.now) }
        ensures { Appends (2 * length codes.now) (flat_map (λ c. bits_of c 2) codes.now) self.old self.new }
    {
        for &code in codes {
            self.put(usize::from(code), 2);
        }
    }

    // Writes the steps of an arrow.
    fn write_steps(&mut self, grid: Grid, arrow: &[u16])
        requires { IsArrow (sized grid.height grid.width) arrow.now × Room self.old (2 * (length arrow.now - 1)) }
        ensures { Appends (2 * (length arrow.now - 1)) (step_bits (sized grid.height grid.width) (get_or arrow.now 0 0) (drop 1 arrow.now)) self.old self.new }
    {
        for step in arrow.windows(2) {
            self.put(
                direction(grid, usize::from(step[0]), usize::from(step[1])),
                2,
            );
        }
    }

    // Writes an arrow: its start, its length and its steps.
    fn write_arrow(&mut self, grid: Grid, arrow: &[u16])
        requires { IsArrow (sized grid.height grid.width) arrow.now × Room self.old (18 + 2 * length arrow.now) }
        ensures { Appends (18 + 2 * length arrow.now) (arrow_bits (sized grid.height grid.width) arrow.now) self.old self.new }
    {
        let start = usize::from(arrow[0]);
        self.put(grid.row(start), 5);
        self.put(grid.column(start), 5);
        self.put(arrow.len() - 1, 10);
        self.write_steps(grid, arrow);
    }

    // Writes the arrows of a problem.
    fn write_arrows(&mut self, problem: &Problem)
        requires { Lines problem.now.height problem.now.width problem.now.arrows problem.now.ends problem.now.count × Room self.old (arrows_size problem.now) }
        ensures { Appends (arrows_size problem.now) (flat_map (arrow_bits (grid_of problem.now)) (puzzle_of problem.now).arrows) self.old self.new }
    {
        let grid = problem.grid();
        for k in 0..problem.count {
            self.write_arrow(grid, problem.arrow(k));
        }
    }

    // Writes all fields of a record.
    fn write_fields(&mut self, problem: &Problem)
        requires { Ready problem.now self.old }
        ensures { Appends (fields_size problem.now) (record_bits (puzzle_of problem.now)) self.old self.new }
    {
        self.put(problem.height - 1, 5);
        self.put(problem.width - 1, 5);
        self.put(problem.count, 11);
        self.write_cells(&problem.cells[..problem.size()]);
        self.write_arrows(problem);
    }
}

// Writes the record of a puzzle to the front of a slice that has room for it, and returns its length.
pub fn write(puzzle: &Accepted, out: &mut [u8]) -> usize
    requires { length (write_record puzzle.now) ≤ length out.old }
    ensures { Recorded puzzle.now out.old out.new result }
{
    let mut writer = BitWriter { out, at: 0 };
    writer.write_fields(&puzzle.problem);
    writer.at.div_ceil(8)
}
