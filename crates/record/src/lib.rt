// The record of a puzzle: its fields in turn, read from a byte slice.
#![tactic(auto)]

ghost use Rattle.std.specs.Prelude.{◌≡◌, not, List, [], ◌∷◌, ◌++◌, ℕ, ◌+◌, ◌-◌, ◌*◌, ◌≤◌, ◌<◌, length, take, drop, get_or, IfOk};
ghost use Rattle.grid.specs.Lists.{member, last, array_of};
ghost use Rattle.grid.specs.Side.{sized};
ghost use Rattle.refusal.specs.Refusals.{Outcome, refused, outcome_of};
ghost use Rattle.fields.specs.Fields.{unless, bytes_for};
ghost use Rattle.fields.specs.Inside.{Agrees, Past};
ghost use Rattle.record.specs.Record.{Puzzle, cell_codes, step_cells, arrow_at, read_record};
ghost use Rattle.record.specs.Inside.{no_problem};
ghost use Rattle.record.specs.Problem.{arrow_cells, ends_from, as_problem, total_of};
ghost use Rattle.record.specs.Lines.{start_at};
ghost use Rattle.record.specs.Head.{read_head, puzzle_in};
ghost use Rattle.record.specs.Inside.{Kept, take_at, AtCell, ended, arrows_ended, read_as};

use fields::{BitReader, Place};
use grid::Grid;
use refusal::Refusal;
use std::marker::Model;

// The codes of a cell: plain, black, and with a given square. Numbers, and no enum: C is lent them in a `Problem`.
pub const PLAIN: u8 = 0;

pub const BLACK: u8 = 1;

pub const GIVEN: u8 = 2;

// What an accepted record says. `cells` has a code for each cell (0 plain, 1 black, 2 given square), `arrows` the cells of the
// arrows, one arrow after another, `ends` for each of the `count` arrows the place in `arrows` where it ends. 0 stands behind each.
// C lends one in a `Board`, so that any numbers may stand in it, and it states no fact.
#[repr(C)]
#[derive(Clone, Copy, Debug, PartialEq, Eq)]
pub struct Problem {
    pub height: usize,
    pub width: usize,
    pub cells: [u8; 1024],
    pub arrows: [u16; 1024],
    pub ends: [u16; 1024],
    pub count: usize,
}

// How far a record reaches in its bytes: it is all of them, or stands at the head of a file.
#[derive(Clone, Copy, Debug, PartialEq, Eq)]
enum Extent {
    Whole,
    Head,
}

impl Extent {
    // Whether a record's fields may end where it is read: only zero bits to the end of the byte, and behind those of a whole record nothing more.
    #[tactic(auto, using(crate::proofs::FieldsLaws::ended_head, crate::proofs::FieldsLaws::ended_whole))]
    fn may_end(self, bits: &BitReader) -> bool
        requires { bits.now.at ≤ 65536 }
        ensures { result ≡ ended self bits.now.bytes.now bits.now.at }
    {
        match self {
            Extent::Whole => bits.is_at_filler(),
            Extent::Head => bits.is_rest_zero(),
        }
    }
}

// The arrow cells that were read, in their order and each once: the first `count` of `cells`, and each is marked in `used`.
// No `ArrayVec`: a problem gets the array itself, with zeros behind the cells, and an `ArrayVec` has no zeros to give. Reader and grid come beside it: its model is the
// list of cells alone, of which the promises speak.
#[derive(Drop)]
struct Line {
    cells: [u16; 1024],
    used: [u8; 1024],
    count: usize,
}

impl Model for Line {
    ghost Value = { List ℕ };

    ghost view = { λ line. take line.count line.cells };

    ghost invariant = { λ line. (line.count ≤ 1024) × Kept (take line.count line.cells) line.cells line.used };
}

impl Line {
    fn new() -> Line
        ensures { result ≡ [] }
    {
        Line {
            cells: [0; 1024],
            used: [0; 1024],
            count: 0,
        }
    }

    fn len(&self) -> usize
        ensures { (result ≡ length self.now) × (result ≤ 1024) }
    {
        self.count
    }

    // The cells, and 0 behind them.
    fn into_cells(self) -> [u16; 1024]
        ensures { result ≡ array_of 0 self }
    {
        self.cells
    }

    // Puts a cell behind those of the line, if it is none of them.
    fn enter(&mut self, cell: usize) -> Result<(), Refusal>
        requires { cell < 1024 }
        ensures { Agrees (unless (not (member cell self.old)) 4) (λ _ _. self.new ≡ self.old ++ (cell ∷ [])) result }
    {
        if self.used[cell] != 0 {
            return Err(Refusal::UsedTwice);
        }
        self.used[cell] = 1;
        self.cells[self.count] = cell as u16;
        self.count += 1;
        Ok(())
    }

    // Takes a step, from a cell that stands last in the line.
    #[tactic(auto, using(crate::proofs::ArrowLaws::step_lost, crate::proofs::ArrowLaws::step_new, crate::proofs::ArrowLaws::step_used, fields::proofs::OutcomeLaws::agrees_fault))]
    fn take_step(&mut self, bits: &mut BitReader, grid: Grid, from: Place) -> Result<Place, Refusal>
        requires { (from.row < grid.height) × (from.col < grid.width) × (bits.old.at ≤ 65536) }
        ensures step { Agrees (take_at bits.old.bytes.now (sized grid.height grid.width) self.old (from.row * grid.width + from.col) bits.old.at)
            (λ j place. AtCell grid.height grid.width j place × (self.new ≡ self.old ++ (j ∷ []))) result }
        ensures past { Past 2 bits.old bits.new }
    {
        let place = bits.read_step(grid.height, grid.width, from)?;
        self.enter(place.row * grid.width + place.col)?;
        Ok(place)
    }

    // Takes the steps of an arrow.
    #[tactic(auto, using(crate::proofs::ArrowLaws::steps_more, crate::proofs::ArrowLaws::steps_start))]
    fn read_steps(
        &mut self,
        bits: &mut BitReader,
        grid: Grid,
        from: Place,
        steps: usize,
    ) -> Result<(), Refusal>
        requires { (from.row < grid.height) × (from.col < grid.width) × (bits.old.at ≤ 60000) × (steps ≤ 1024) }
        ensures cells { Agrees (step_cells bits.old.bytes.now (sized grid.height grid.width) self.old (from.row * grid.width + from.col) bits.old.at steps) (λ js _. self.new ≡ self.old ++ js) result }
        ensures past { IfOk result (λ _. Past (2 * steps) bits.old bits.new) }
    {
        let mut place = from;
        for _ in 0..steps {
            place = self.take_step(bits, grid, place)?;
        }
        Ok(())
    }

    // Reads an arrow.
    fn read_arrow(&mut self, bits: &mut BitReader, grid: Grid) -> Result<(), Refusal>
        requires { bits.old.at ≤ 50000 }
        ensures { Agrees (arrow_at bits.old.bytes.now (sized grid.height grid.width) self.old bits.old.at)
            (λ a _. (self.new ≡ self.old ++ a) × Past (18 + 2 * length a) bits.old bits.new) result }
    {
        let start = bits.read_start(grid.height, grid.width)?;
        self.enter(start.place.row * grid.width + start.place.col)?;
        self.read_steps(bits, grid, start.place, start.steps)
    }

    // Reads the arrows, and the filler behind them, to a line that comes empty, and where each arrow ends to an array of zeros: to the whole of it, since a count
    // may be more than it holds, and a record that says more is refused before a place is missing: so by index too. It is lent, and not returned, as are the cells
    // below: a read of 6 by 6 cells takes 12,000 instructions so, and 17,500 where both are returned.
    #[tactic(auto, using(crate::proofs::ArrowsLaws::arrows_more))]
    fn read_arrows(
        &mut self,
        bits: &mut BitReader,
        grid: Grid,
        arrows: usize,
        extent: Extent,
        ends: &mut [u16; 1024],
    ) -> Result<(), Refusal>
        requires { (bits.old.at ≤ 4000) × (arrows ≤ 2048) × (self.old ≡ []) × (ends.old ≡ array_of 0 []) }
        ensures { Agrees (arrows_ended extent bits.old.bytes.now (sized grid.height grid.width) bits.old.at arrows) (λ l _. (self.new ≡ arrow_cells l) × (ends.new ≡ array_of 0 (ends_from 0 l))) result }
    {
        for i in 0..arrows {
            self.read_arrow(bits, grid)?;
            ends[i] = self.len() as u16;
        }
        if extent.may_end(bits) {
            return Ok(());
        }
        Err(Refusal::Filler)
    }
}

// Reads the codes of the cells.
fn read_cells(bits: &mut BitReader, cells: &mut [u8]) -> Result<(), Refusal>
    requires { (bits.old.at ≤ 4000) × (length cells.old ≤ 1024) }
    ensures codes { Agrees (cell_codes bits.old.bytes.now bits.old.at (length cells.old)) (λ codes _. cells.new ≡ codes) result }
    ensures past { IfOk result (λ _. Past (2 * length cells.old) bits.old bits.new) }
{
    for cell in cells {
        *cell = bits.read_code()?;
    }
    Ok(())
}

impl Problem {
    // The problem of a record, or the refusal of its first fault.
    #[tactic(auto, using(crate::proofs::FieldsLaws::record_as))]
    pub fn read(bytes: &[u8]) -> Result<Problem, Refusal>
        ensures { outcome_of result ≡ as_problem (read_record bytes.now) }
    {
        Problem::read_as(bytes, Extent::Whole)
    }

    // The problem of the record at the head of a file, or the refusal of its first fault; here 5 counts filler of the record only.
    #[tactic(auto, using(crate::proofs::FieldsLaws::head_as))]
    pub fn read_head(bytes: &[u8]) -> Result<Problem, Refusal>
        ensures { outcome_of result ≡ as_problem (puzzle_in (read_head bytes.now)) }
    {
        Problem::read_as(bytes, Extent::Head)
    }

    // Room for a problem.
    pub fn new() -> Problem
        ensures { result ≡ no_problem }
    {
        Problem {
            height: 0,
            width: 0,
            cells: [0; 1024],
            arrows: [0; 1024],
            ends: [0; 1024],
            count: 0,
        }
    }

    // Reads a whole record, or one at the head of a file, into a problem that comes new, or tells the refusal of its first fault.
    fn read_in(&mut self, bytes: &[u8], extent: Extent) -> Result<(), Refusal>
        requires { self.old ≡ no_problem }
        ensures { Agrees (as_problem (read_as extent bytes.now)) (λ p _. self.new ≡ p) result }
    {
        let mut bits = BitReader { bytes, at: 0 };
        let height = bits.read_field(5)? + 1;
        let width = bits.read_field(5)? + 1;
        let count = bits.read_field(11)?;
        let grid = Grid { height, width };
        read_cells(&mut bits, &mut self.cells[..grid.size()])?;
        let mut line = Line::new();
        line.read_arrows(&mut bits, grid, count, extent, &mut self.ends)?;
        self.height = height;
        self.width = width;
        self.arrows = line.into_cells();
        self.count = count;
        Ok(())
    }

    // Reads a record into a problem that comes new, or tells the refusal of its first fault: `read` in place, for a call that C makes. What is returned takes its
    // five kilobytes of the stack once more in each function that hands it on.
    #[tactic(auto, using(crate::proofs::FieldsLaws::record_as))]
    pub fn read_record_in(&mut self, bytes: &[u8]) -> Result<(), Refusal>
        requires { self.old ≡ no_problem }
        ensures { Agrees (as_problem (read_record bytes.now)) (λ p _. self.new ≡ p) result }
    {
        self.read_in(bytes, Extent::Whole)
    }

    // Reads the record at the head of a file into a problem that comes new, or tells the refusal of its first fault: `read_head` in place.
    #[tactic(auto, using(crate::proofs::FieldsLaws::head_as))]
    pub fn read_head_in(&mut self, bytes: &[u8]) -> Result<(), Refusal>
        requires { self.old ≡ no_problem }
        ensures { Agrees (as_problem (puzzle_in (read_head bytes.now))) (λ p _. self.new ≡ p) result }
    {
        self.read_in(bytes, Extent::Head)
    }

    // The problem of a whole record, or of one at the head of a file, or the refusal of its first fault.
    fn read_as(bytes: &[u8], extent: Extent) -> Result<Problem, Refusal>
        ensures { outcome_of result ≡ as_problem (read_as extent bytes.now) }
    {
        let mut problem = Problem::new();
        problem.read_in(bytes, extent)?;
        Ok(problem)
    }

    // How many cells its grid has.
    pub fn size(&self) -> usize
        requires { (self.now.height ≤ 32) × (self.now.width ≤ 32) }
        ensures value { result ≡ self.now.height * self.now.width }
        ensures small { result ≤ 1024 }
    {
        self.grid().size()
    }

    // Its grid, if it has at most 32 rows and columns.
    pub fn grid(&self) -> Grid
        requires { (self.now.height ≤ 32) × (self.now.width ≤ 32) }
        ensures height { result.height ≡ self.now.height }
        ensures width { result.width ≡ self.now.width }
    {
        Grid {
            height: self.height,
            width: self.width,
        }
    }

    // Where arrow k begins: where the one before it ends.
    #[tactic(auto, using(crate::proofs::LinesLaws::start_before, crate::proofs::LinesLaws::start_first_of))]
    fn start(&self, k: usize) -> usize
        requires { k < 1024 }
        ensures { result ≡ start_at self.now.ends k }
    {
        if k == 0 {
            return 0;
        }
        usize::from(self.ends[k - 1])
    }

    // The cells of arrow k. The ends rise up to it, and there is room for them. Who goes over all arrows asks for each by its number: an iterator over them would
    // have to be told all this of each arrow before it gives the first.
    pub fn arrow(&self, k: usize) -> &[u16]
        requires { (k < self.now.count) × (self.now.count ≤ 1024) × (start_at self.now.ends k ≤ get_or self.now.ends k 0) × (get_or self.now.ends k 0 ≤ 1024) }
        ensures { result.now ≡ take (get_or self.now.ends k 0 - start_at self.now.ends k) (drop (start_at self.now.ends k) self.now.arrows) }
    {
        &self.arrows[self.start(k)..usize::from(self.ends[k])]
    }

    // How many cells the arrows have together: the end of the last one.
    pub fn arrow_total(&self) -> usize
        requires { self.now.count ≤ 1024 }
        ensures { result ≡ total_of self.now }
    {
        self.ends[..self.count]
            .last()
            .map_or(0, |&end| usize::from(end))
    }

    // How many bytes the record of the problem has: where it ends in a file that it is the head of.
    #[tactic(auto, unfolding(fields::specs::Fields::bytes_for))]
    pub fn record_length(&self) -> usize
        requires { (self.now.height ≤ 32) × (self.now.width ≤ 32) × (self.now.count ≤ 1024) × (total_of self.now ≤ 1024) }
        ensures { result ≡ bytes_for (21 + 2 * (self.now.height * self.now.width) + 18 * self.now.count + 2 * total_of self.now) }
    {
        let bits = 21 + 2 * self.size() + 18 * self.count + 2 * self.arrow_total();
        bits.div_ceil(8)
    }
}
