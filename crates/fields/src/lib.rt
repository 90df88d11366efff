// The fields of a record, packed most significant bit first: numbers, codes of cells, an arrow's start and its steps.
#![tactic(auto)]

ghost use Rattle.std.specs.Prelude.{◌≡◌, ◌+◌, ◌*◌, ◌≤◌, ◌<◌, get_or, IfOk};
ghost use Rattle.refusal.specs.Refusals.{outcome_of};
ghost use Rattle.fields.specs.Fields.{number, field, step_from, filler, rest_zero};
ghost use Rattle.grid.specs.Side.{sized};
ghost use Rattle.fields.specs.Inside.{Past, cell_code, code_at, step_at, opening_at, cell_of};

use refusal::Refusal;

// A cell of the grid. On which grid it lies is said in clauses: height and width are two numbers here (`BitReader::read_step`).
#[derive(Clone, Copy, Debug, PartialEq, Eq)]
pub struct Place {
    pub row: usize,
    pub col: usize,
}

// How an arrow begins: its first cell and the number of steps that follow.
#[derive(Clone, Copy, Debug, PartialEq, Eq)]
pub struct Start {
    pub place: Place,
    pub steps: usize,
}

// Byte k, 0 behind the end.
fn byte_at(s: &[u8], k: usize) -> u8
    ensures { result ≡ get_or s.now k 0 }
{
    s.get(k).copied().unwrap_or(0)
}

// The number in the n bits from at. They lie in three bytes, since n is small; bits behind the end are 0.
#[tactic(auto, using(crate::proofs::FieldLaws::shifted))]
pub fn number_at(s: &[u8], at: usize, n: usize) -> usize
    requires { n ≤ 16 }
    ensures { result ≡ number s.now at n }
{
    let q = at / 8;
    let window = u32::from_be_bytes([0, byte_at(s, q), byte_at(s, q + 1), byte_at(s, q + 2)]);
    ((window >> (24 - at % 8 - n)) % (1u32 << n)) as usize
}

// The code of a cell: 0 plain, 1 black, 2 given square, 3 refused. By numbers: what is read is passed on as it is, and only 3 is none of it.
#[tactic(auto, using(crate::proofs::FieldLaws::low_code, crate::proofs::FieldLaws::no_code))]
fn cell_code(code: usize) -> Result<u8, Refusal>
    ensures { outcome_of result ≡ cell_code code }
{
    match code {
        0 => Ok(0),
        1 => Ok(1),
        2 => Ok(2),
        _ => Err(Refusal::CellCode),
    }
}

// The cell one step from a cell of the grid, in one of the grid's four directions.
#[tactic(auto, using(crate::proofs::StepLaws::steps))]
fn step_from(height: usize, width: usize, from: Place, direction: usize) -> Result<Place, Refusal>
    requires { (from.row < height) × (from.col < width) × (height ≤ 32) × (direction < 4) }
    ensures cell { cell_of width result ≡ step_from (sized height width) (from.row * width + from.col) direction }
    ensures on_grid { IfOk result (λ place. (place.row < height) × (place.col < width)) }
{
    let Place { row, col } = from;
    match direction {
        grid::UP if 0 < row => Ok(Place { row: row - 1, col }),
        grid::DOWN if row + 1 < height => Ok(Place { row: row + 1, col }),
        grid::LEFT if 0 < col => Ok(Place { row, col: col - 1 }),
        grid::RIGHT if col + 1 < width => Ok(Place { row, col: col + 1 }),
        _ => Err(Refusal::OffGrid),
    }
}

// Where a record is read: its bytes, and the place of the bit that comes next. How far on it is, is no fact of it: each function asks for as much as it reads
// from there.
#[derive(Clone, Copy, Debug, PartialEq, Eq)]
pub struct BitReader<'a> {
    pub bytes: &'a [u8],
    pub at: usize,
}

impl BitReader<'_> {
    // Reads a field of n bits, if the record does not end before its end.
    #[tactic(auto, using(crate::proofs::FieldLaws::field_cut, crate::proofs::FieldLaws::field_there))]
    pub fn read_field(&mut self, n: usize) -> Result<usize, Refusal>
        requires { (self.old.at ≤ 65536) × (n ≤ 16) }
        ensures value { outcome_of result ≡ field self.old.bytes.now self.old.at n }
        ensures past { Past n self.old self.new }
    {
        let at = self.at;
        self.at += n;
        if self.bytes.len() < self.at.div_ceil(8) {
            return Err(Refusal::RecordEnds);
        }
        Ok(number_at(self.bytes, at, n))
    }

    // Reads the code of a cell.
    #[tactic(auto, using(crate::proofs::ReadLaws::rules))]
    pub fn read_code(&mut self) -> Result<u8, Refusal>
        requires { self.old.at ≤ 65536 }
        ensures value { outcome_of result ≡ code_at self.old.bytes.now self.old.at }
        ensures past { Past 2 self.old self.new }
    {
        cell_code(self.read_field(2)?)
    }

    // Reads a step from a cell of the grid: the cell that it leads to. Height and width are two numbers, and no `Grid`: one of those has at most 32 columns,
    // and here any number may stand.
    #[tactic(auto, using(crate::proofs::ReadLaws::rules))]
    pub fn read_step(&mut self, height: usize, width: usize, from: Place) -> Result<Place, Refusal>
        requires { (from.row < height) × (from.col < width) × (height ≤ 32) × (self.old.at ≤ 65536) }
        ensures cell { cell_of width result ≡ step_at self.old.bytes.now (sized height width) (from.row * width + from.col) self.old.at }
        ensures on_grid { IfOk result (λ place. (place.row < height) × (place.col < width)) }
        ensures past { Past 2 self.old self.new }
    {
        let direction = self.read_field(2)?;
        step_from(height, width, from, direction)
    }

    // Reads the start of an arrow: its three fields are read before the start is tested.
    #[tactic(auto, using(crate::proofs::ReadLaws::start_rules))]
    pub fn read_start(&mut self, height: usize, width: usize) -> Result<Start, Refusal>
        requires { self.old.at ≤ 65000 }
        ensures value { outcome_of result ≡ opening_at self.old.bytes.now (sized height width) self.old.at }
        ensures past { IfOk result (λ _. Past 20 self.old self.new) }
    {
        let row = self.read_field(5)?;
        let col = self.read_field(5)?;
        let steps = self.read_field(10)?;
        if height <= row {
            return Err(Refusal::OffGrid);
        }
        if width <= col {
            return Err(Refusal::OffGrid);
        }
        let place = Place { row, col };
        Ok(Start { place, steps })
    }

    // Whether only zero bits are left, and fewer than eight of them.
    #[tactic(auto, using(crate::proofs::FieldLaws::filler_bits, crate::proofs::FieldLaws::filler_long, crate::proofs::FieldLaws::filler_none))]
    pub fn is_at_filler(&self) -> bool
        requires { self.now.at ≤ 65536 }
        ensures { result ≡ filler self.now.bytes.now self.now.at }
    {
        if self.at.div_ceil(8) < self.bytes.len() {
            return false;
        }
        let end = 8 * self.bytes.len();
        if end <= self.at {
            return true;
        }
        number_at(self.bytes, self.at, end - self.at) == 0
    }

    // Whether only zero bits are left in the byte.
    #[tactic(auto, using(crate::proofs::FieldLaws::rest_bits))]
    pub fn is_rest_zero(&self) -> bool
        requires { self.now.at ≤ 65536 }
        ensures { result ≡ rest_zero self.now.bytes.now self.now.at }
    {
        let left = self.at.div_ceil(8) * 8 - self.at;
        number_at(self.bytes, self.at, left) == 0
    }
}
