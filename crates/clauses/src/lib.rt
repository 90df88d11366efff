// The clause sheet of a puzzle, for other solvers. What writes goes on where the sheet ends so far; it writes what has room in the output, and
// counts all. So the length of a sheet is what is counted on an output that has no room.
#![tactic(auto)]

ghost use Rattle.std.specs.Prelude.{◌≡◌, List, ◌++◌, map, ℕ, ◌+◌, ◌*◌, ◌^◌, ◌≤◌, ◌<◌, length, get_or, option_to_list};
ghost use Rattle.arrayvec.specs.ArrayVec.{array_vec_len};
ghost use Rattle.grid.specs.Lists.{flat_map, upto, filter};
ghost use Rattle.grid.specs.Side.{sized, towards};
ghost use Rattle.grid.specs.Cells.{word};
ghost use Rattle.groups.specs.Arrays.{CellArray, Drawn, lines_of};
ghost use Rattle.exported.specs.Written.{bytes_of, written, output_with, Writes};
ghost use Rattle.clauses.specs.Clauses.{given_at, apart, touching_at, around, between_at, arrow_clauses, clauses_bytes, sheet_bytes, sheet_within, sheet_for};
ghost use Rattle.clauses.specs.Inside.{Pushed, marked};

use arrayvec::ArrayVec;
use form::accepted::Accepted;
use grid::{DOWN, Grid, LEFT, RIGHT, UP};
use record::{BLACK, GIVEN, Problem};
use refusal::Refusal;

// The mark of an arrow cell.
const ON_ARROW: u8 = 1;

// The bit of a literal's value: the literal of a cell as 1 is the cell and this bit, and as 0 it is the cell alone. By the bit, and no `literals::Literal`:
// `squares` makes the literals of a whole array of cells by one sum each.
const VALUE: u16 = 32768;

// Adds the cell on one side, if there is one, to the cells beside a cell, of which there are at most four.
fn add(near: &mut ArrayVec<u16, 4>, side: Option<u16>)
    requires { array_vec_len near.old < 4 }
    ensures { near.new.items ≡ near.old.items ++ option_to_list side }
{
    if let Some(j) = side {
        near.push(j);
    }
}

// The arrow cell that cell i has in direction k.
#[tactic(auto, using(crate::proofs::NearLaws::side_on, crate::proofs::NearLaws::side_plain, crate::proofs::NearLaws::side_off))]
fn arrow_toward(grid: Grid, marks: &[u8; 1024], i: usize, k: usize) -> Option<u16>
    requires { (i < grid.height * grid.width) × (k < 4) }
    ensures { option_to_list result ≡ filter (marked marks.now) (towards (sized grid.height grid.width) i k) }
{
    let j = grid.toward(i, k)?;
    if marks[j] == ON_ARROW {
        return Some(j as u16);
    }
    None
}

// The arrow cells beside cell i, in the order of the sheet.
#[tactic(auto, using(crate::proofs::NearLaws::side_short, crate::proofs::NearLaws::around_sides))]
fn gather(grid: Grid, marks: &[u8; 1024], i: usize) -> ArrayVec<u16, 4>
    requires { i < grid.height * grid.width }
    ensures { result.items ≡ filter (marked marks.now) (around (sized grid.height grid.width) i) }
{
    let mut near = ArrayVec::new();
    add(&mut near, arrow_toward(grid, marks, i, UP));
    add(&mut near, arrow_toward(grid, marks, i, LEFT));
    add(&mut near, arrow_toward(grid, marks, i, DOWN));
    add(&mut near, arrow_toward(grid, marks, i, RIGHT));
    near
}

// The literals of the cells of an array as 1.
fn squares(cells: &[u16; 1024]) -> [u16; 1024]
    requires { CellArray cells.now }
    ensures { result ≡ map (λ j. word (j, 1)) cells.now }
{
    let mut literals = *cells;
    for literal in literals.iter_mut() {
        *literal += VALUE;
    }
    literals
}

// A sheet that is written: its first `len` bytes so far, with room in the output or without. It is no `text::Text`, which asks for room.
// Grid and marks are two parameters of what writes its parts: a struct of them would state no fact that these ask for.
#[derive(Drop)]
struct Sheet<'a> {
    out: &'a mut [u8],
    len: usize,
}

impl Sheet<'_> {
    // Writes 16-bit numbers, high byte first.
    fn put(&mut self, words: &[u16])
        ensures { Pushed self.old self.new (bytes_of words.now) }
    {
        // Before the first cell of an arrow and behind its last one there are none.
        if words.is_empty() {
            return;
        }
        let from = self.len;
        self.len = from.saturating_add(2 * words.len());
        if self.out.len() < self.len {
            return;
        }
        exported::write_numbers(words, words.len(), &mut self.out[from..]);
    }

    // Writes that a black cell is 0, or a given cell 1.
    #[tactic(auto, using(crate::proofs::PieceLaws::given_black, crate::proofs::PieceLaws::given_square, crate::proofs::PieceLaws::given_plain, crate::proofs::PushLaws::push_no_clause))]
    fn put_given(&mut self, code: u8, i: u16)
        requires { i < 1024 }
        ensures { Pushed self.old self.new (clauses_bytes (given_at code i)) }
    {
        match code {
            BLACK => self.put(&[1, i]),
            GIVEN => self.put(&[1, VALUE + i]),
            _ => {}
        }
    }

    // Writes the first part. Each part keeps its own loop: one loop that calls a closure at each cell would say by `FoldsTo` that it was called, and each
    // part would still have to say what those calls write, in more than its loop.
    #[tactic(auto, using(crate::proofs::PushLaws::number_by_number))]
    fn write_given(&mut self, codes: &[u8; 1024], n: usize)
        requires { n ≤ 1024 }
        ensures { Pushed self.old self.new (clauses_bytes (flat_map (λ i. given_at (get_or codes.now i 0) i) (upto n))) }
    {
        for (i, &code) in codes[..n].iter().enumerate() {
            self.put_given(code, i as u16);
        }
    }

    // Writes that the cell i and the one on one side, if there is one, are not both square.
    #[tactic(auto, using(crate::proofs::PieceLaws::apart_bytes, crate::proofs::PushLaws::push_no_clause))]
    fn put_touching(&mut self, i: u16, side: Option<u16>)
        ensures { Pushed self.old self.new (clauses_bytes (map (apart i) (option_to_list side))) }
    {
        if let Some(j) = side {
            self.put(&[2, i, j]);
        }
    }

    // Writes that an arrow cell i and an arrow cell below it or to its right are not both square. Where i is no arrow cell, there is no clause.
    fn touching_at(&mut self, grid: Grid, marks: &[u8; 1024], i: usize)
        requires { i < grid.height * grid.width }
        ensures { Pushed self.old self.new (clauses_bytes (touching_at (marked marks.now) (sized grid.height grid.width) i)) }
    {
        if marks[i] != ON_ARROW {
            return;
        }
        self.put_touching(i as u16, arrow_toward(grid, marks, i, DOWN));
        self.put_touching(i as u16, arrow_toward(grid, marks, i, RIGHT));
    }

    // Writes the second part.
    #[tactic(auto, using(crate::proofs::PushLaws::number_by_number))]
    fn write_touching(&mut self, grid: Grid, marks: &[u8; 1024])
        ensures { Pushed self.old self.new (clauses_bytes (flat_map (touching_at (marked marks.now) (sized grid.height grid.width)) (upto (grid.height * grid.width)))) }
    {
        for i in 0..grid.size() {
            self.touching_at(grid, marks, i);
        }
    }

    // Writes that i and two of its arrow neighbours are not all square, for each two of them, if i is not an arrow cell.
    #[tactic(auto, using(crate::proofs::PushLaws::number_by_number))]
    fn between_at(&mut self, grid: Grid, marks: &[u8; 1024], i: usize)
        requires { i < grid.height * grid.width }
        ensures { Pushed self.old self.new (clauses_bytes (between_at (marked marks.now) (sized grid.height grid.width) i)) }
    {
        if marks[i] == ON_ARROW {
            return;
        }
        let near = gather(grid, marks, i);
        let cells = near.as_slice();
        for (a, &later) in cells.iter().enumerate() {
            for &before in &cells[..a] {
                self.put(&[3, later, i as u16, before]);
            }
        }
    }

    // Writes the third part.
    #[tactic(auto, using(crate::proofs::PushLaws::number_by_number))]
    fn write_between(&mut self, grid: Grid, marks: &[u8; 1024])
        ensures { Pushed self.old self.new (clauses_bytes (flat_map (between_at (marked marks.now) (sized grid.height grid.width)) (upto (grid.height * grid.width)))) }
    {
        for i in 0..grid.size() {
            self.between_at(grid, marks, i);
        }
    }

    // Writes for each cell of an arrow that there is a square on it beside that cell. The arrow is passed as the literals of its cells as 1. By index, since k cuts
    // the arrow in two.
    fn write_arrow(&mut self, squares: &[u16])
        requires { length squares.now ≤ 1024 }
        ensures { (arrow : List ℕ) → squares.now ≡ map (λ j. word (j, 1)) arrow → Pushed self.old self.new (clauses_bytes (arrow_clauses arrow)) }
    {
        for k in 0..squares.len() {
            self.put(&[(squares.len() - 1) as u16]);
            self.put(&squares[..k]);
            self.put(&squares[k + 1..]);
        }
    }

    // Writes the fourth part. It goes over the literals of the cells, of which there is no `problem.arrow(k)`.
    fn write_arrows(&mut self, problem: &Problem)
        requires { Drawn (problem.now.height * problem.now.width) problem.now.arrows problem.now.ends problem.now.count }
        ensures { Pushed self.old self.new (clauses_bytes (flat_map arrow_clauses (lines_of problem.now.arrows problem.now.ends problem.now.count))) }
    {
        let squares = squares(&problem.arrows);
        let mut from = 0;
        for &end in &problem.ends[..problem.count] {
            let to = usize::from(end);
            self.write_arrow(&squares[from..to]);
            from = to;
        }
    }

    // Writes the sheet of a puzzle, one part behind the other.
    fn write_sheet(&mut self, puzzle: &Accepted)
        ensures sheet { Pushed self.old self.new (sheet_bytes puzzle.now) }
        ensures few { length (sheet_bytes puzzle.now) < 2 ^ 31 }
    {
        let problem = &puzzle.problem;
        let grid = problem.grid();
        let marks = groups::mark_arrow_cells(&problem.arrows[..problem.arrow_total()]);
        self.write_given(&problem.cells, grid.size());
        self.write_touching(grid, &marks);
        self.write_between(grid, &marks);
        self.write_arrows(problem);
    }
}

// Writes the sheet of a puzzle; 13 where the output is too short.
fn write_puzzle(puzzle: &Accepted, output: &mut [u8]) -> Result<usize, Refusal>
    ensures { Writes (sheet_within (length output.old) puzzle.now) result output.old output.new }
{
    let mut count = Sheet {
        out: &mut [],
        len: 0,
    };
    count.write_sheet(puzzle);
    if output.len() < count.len {
        return Err(Refusal::SheetShort);
    }
    let mut sheet = Sheet {
        out: output,
        len: 0,
    };
    sheet.write_sheet(puzzle);
    Ok(sheet.len)
}

// Writes the clause sheet of a record: the record's refusals, then 13 where the output is too short for the whole sheet.
fn write_record(record: &[u8], output: &mut [u8]) -> Result<usize, Refusal>
    ensures { Writes (sheet_for (length output.old) «record».now) result output.old output.new }
{
    let puzzle = Accepted::read(record)?;
    write_puzzle(&puzzle, output)
}

// Writes the clause sheet of a record to the front of the output, and returns the number of bytes; or the negated number of a refusal, which
// leaves the output as it was: 1 to 5 for the record, then 13 where the output is too short for the whole sheet.
pub fn write_clauses(record: &[u8], output: &mut [u8]) -> i32
    ensures { (result ≡ written (sheet_for (length output.old) «record».now))
        × (output.new ≡ output_with (sheet_for (length output.old) «record».now) output.old) }
{
    refusal::returned(write_record(record, output))
}
