// One file for setter and player: a record, then from the next byte a grade (3 bits), the solution (one bit a cell, row by row) and zero filler.
// Nothing of the solution reaches the player's answer.
#![tactic(auto)]

ghost use Rattle.std.specs.Prelude.{◌≡◌, ◌∷◌, ◌++◌, ◌+◌, ◌*◌, ◌≤◌, true, false, length, take, drop, IfOk, IfErr};
ghost use Rattle.grid.specs.Lists.{array_of};
ghost use Rattle.refusal.specs.Refusals.{outcome_of};
ghost use Rattle.refusal.specs.declared.Refusal.TheVariants as refusals;
ghost use Rattle.form.specs.Form.{problem_formed};
ghost use Rattle.exported.specs.Written.{output_with};
ghost use Rattle.file.specs.File.{tail_test, grade_in, solution_in, read_player, read_setter};
ghost use Rattle.file.specs.Answers.{player_of, setter_of, Gives};
ghost use Rattle.file.specs.Inside.{record_end, has_tail};
ghost use Rattle.file.specs.Call.{player_within, setter_within, player_given, setter_given, given_length, given_bytes};

use exported::write_behind;
use fields::BitReader;
use record::Problem;
use refusal::Refusal;
use sizes::Edition;

// What the player's reader gives: the record's length in bytes and the grade.
#[derive(Clone, Copy, Debug, PartialEq, Eq)]
pub struct Player {
    pub length: usize,
    pub grade: u8,
}

// What the setter's reader gives: what the player's does, and the `count` cells of the solution, 1 square and 0 empty, with 0 behind them. An array and a
// count, since nothing that C calls allocates, and a `Setter` is copied and compared.
#[derive(Clone, Copy, Debug, PartialEq, Eq)]
pub struct Setter {
    pub player: Player,
    pub count: usize,
    pub cells: [u8; 1024],
}

// What stands behind the record in a file: a grade and a solution, from the byte `from` on, for a puzzle of n cells.
#[derive(Clone, Copy)]
struct Tail<'a> {
    file: &'a [u8],
    from: usize,
    n: usize,
    ghost near: { from ≤ 4096 },
    ghost few: { n ≤ 1024 },
}

impl Tail<'_> {
    // Whether it is neither too short nor too long, with zeros behind the last cell.
    #[tactic(auto, using(crate::proofs::TailLaws::tail_short, crate::proofs::TailLaws::tail_long))]
    fn is_whole(&self) -> bool
        ensures { result ≡ tail_test (drop self.now.from self.now.file.now) self.now.n }
    {
        let end = 8 * self.from + 3 + self.n;
        let bits = BitReader {
            bytes: self.file,
            at: end,
        };
        end.div_ceil(8) <= self.file.len() && bits.is_at_filler()
    }

    // Its grade.
    fn grade(&self) -> u8
        ensures { result ≡ grade_in (drop self.now.from self.now.file.now) }
    {
        fields::number_at(self.file, 8 * self.from, 3) as u8
    }

    // Its solution, and zeros behind it. By index: of places that are written through `iter_mut().enumerate()` a proof does not know what they hold.
    fn solution(&self) -> [u8; 1024]
        ensures { result ≡ array_of 0 (solution_in (drop self.now.from self.now.file.now) self.now.n) }
    {
        let mut cells = [0; 1024];
        for i in 0..self.n {
            cells[i] = fields::number_at(self.file, 8 * self.from + 3 + i, 1) as u8;
        }
        cells
    }
}

// The tail behind the record of a problem that was read at the head of a file; 20 where it is too short or too long, or its filler is not zero.
fn tail_behind<'a>(file: &'a [u8], problem: &Problem) -> Result<Tail<'a>, Refusal>
    requires { problem_formed problem.now ≡ true }
    ensures whole { IfOk result (λ _. has_tail problem.now file.now ≡ true) }
    ensures place { IfOk result (λ tail. (tail.file.now ≡ file.now) × (tail.from ≡ record_end problem.now) × (tail.n ≡ problem.now.height * problem.now.width)) }
    ensures refused { IfErr result (λ r. (has_tail problem.now file.now ≡ false) × (r ≡ refusals.Tail)) }
{
    let tail = Tail {
        file,
        from: problem.record_length(),
        n: problem.size(),
    };
    if tail.is_whole() {
        return Ok(tail);
    }
    Err(Refusal::Tail)
}

// The player's reader for an output of `room` bytes: 1 to 5, 11, 20.
#[tactic(auto, using(crate::proofs::AnswerLaws::head_formed))]
fn player_within(file: &[u8], room: usize) -> Result<Player, Refusal>
    ensures { outcome_of result ≡ player_of (player_within room file.now) }
{
    let mut problem = Problem::new();
    problem.read_head_in(file)?;
    if room < 1 {
        return Err(Refusal::OutputShort);
    }
    let tail = tail_behind(file, &problem)?;
    Ok(Player {
        length: tail.from,
        grade: tail.grade(),
    })
}

// The setter's reader for an output of `room` bytes: 1 to 5, 11, 20, 16, 21.
#[tactic(auto, using(crate::proofs::AnswerLaws::head_formed))]
fn setter_within(file: &[u8], edition: u32, room: usize) -> Result<Setter, Refusal>
    ensures { outcome_of result ≡ setter_of (setter_within room edition file.now) }
{
    let mut problem = Problem::new();
    problem.read_head_in(file)?;
    if room < 1 + problem.size() {
        return Err(Refusal::OutputShort);
    }
    let tail = tail_behind(file, &problem)?;
    let edition = Edition::try_from(edition)?;
    let cells = tail.solution();
    if !finished::is_finished(&calls::bare(&problem, edition), &cells) {
        return Err(Refusal::Unfinished);
    }
    Ok(Setter {
        player: Player {
            length: tail.from,
            grade: tail.grade(),
        },
        count: tail.n,
        cells,
    })
}

// The player's reader: the record's length and the grade. Refused: the record's first fault, 1 to 5, of which 5 counts filler of the record only,
// then 20 a tail too short, too long or with filler not zero.
pub fn read_player(file: &[u8]) -> Result<Player, Refusal>
    ensures { outcome_of result ≡ player_of (read_player file.now) }
{
    player_within(file, 1)
}

// The setter's reader: the record's length, the grade and the cells of a solution that is finished in the edition. Refused: as the player's reader,
// then 16 an edition that is not 1 or 2, then 21 a solution that is not finished.
pub fn read_setter(file: &[u8], edition: u32) -> Result<Setter, Refusal>
    ensures { outcome_of result ≡ setter_of (read_setter edition file.now) }
{
    setter_within(file, edition, 1025)
}

// Writes a grade and the first n cells to the front of the output, one byte each. A count, as in `exported::write_numbers`.
fn write_solution(grade: u8, cells: &[u8; 1024], n: usize, output: &mut [u8])
    requires { (n ≤ 1024) × (1 + n ≤ length output.old) }
    ensures { output.new ≡ (grade ∷ take n cells.now) ++ drop (1 + n) output.old }
{
    output[0] = grade;
    write_behind(cells, n, 1, output);
}

// Reads a file for the player and writes the grade to the output's first byte; gives the record's length.
fn write_player(file: &[u8], output: &mut [u8]) -> Result<usize, Refusal>
    ensures { Gives (player_given (length output.old) file.now) result output.old output.new }
{
    let player = player_within(file, output.len())?;
    output[0] = player.grade;
    Ok(player.length)
}

// Reads a file for the setter and writes the grade and the solution to the output; gives the record's length.
fn write_setter(file: &[u8], edition: u32, output: &mut [u8]) -> Result<usize, Refusal>
    ensures { Gives (setter_given (length output.old) edition file.now) result output.old output.new }
{
    let setter = setter_within(file, edition, output.len())?;
    write_solution(setter.player.grade, &setter.cells, setter.count, output);
    Ok(setter.player.length)
}

// Reads a file for the player: returns the record's length in bytes and writes the grade to the output's first byte; or the negated number of a
// refusal, which leaves the output as it was: 1 to 5, then 11 for an output below 1 byte, then 20.
pub fn player_file(file: &[u8], output: &mut [u8]) -> i32
    ensures { (result ≡ given_length (player_given (length output.old) file.now))
        × (output.new ≡ output_with (given_bytes (player_given (length output.old) file.now)) output.old) }
{
    refusal::returned(write_player(file, output))
}

// Reads a file for the setter: returns the record's length in bytes and writes the grade and then one byte a cell, 1 square and 0 empty; or the negated
// number of a refusal, which leaves the output as it was: 1 to 5, then 11 for an output below 1 + H × W bytes, then 20, 16, 21.
pub fn setter_file(file: &[u8], edition: u32, output: &mut [u8]) -> i32
    ensures { (result ≡ given_length (setter_given (length output.old) edition file.now))
        × (output.new ≡ output_with (given_bytes (setter_given (length output.old) edition file.now)) output.old) }
{
    refusal::returned(write_setter(file, edition, output))
}
