// Replays a list of records from standard input: each is read, and what `Problem::read` answers is compared with what the list says.
//
// A list has a head of lines that begin with `#`, an empty line, and entries to its end: u16 length, that many bytes of record, u8 refusal;
// where it is 0 also u8 height, u8 width, a code for each cell, u16 number of arrows, and for each arrow u16 length and u16 cells.
// A u16 has its high byte first.
#![tactic(auto)]

ghost use Rattle.std.specs.Prelude.{◌≡◌, ◌+◌, ◌≤◌, ◌<◌, length};
ghost use Rattle.replay.specs.Comparisons.{DiffersUnless};
ghost use Rattle.record_replay.specs.Problems.{ZerosFrom, ArrowsSo, area_at, problem_end, EndSo, ProblemSo, RefusedSo, RecordSo, EntrySo};

use record::Problem;
use refusal::Refusal;
use replay::{Cursor, Entries, Run};
use std::io;

// The number of cells of the problem at the cursor: the product of the two bytes that it begins with.
fn area(problem: Cursor<'_>) -> usize
    ensures { (result ≡ area_at problem.entry.list.now problem.entry.at) × (result < 65536) }
{
    problem.byte_at(0) * problem.byte_at(1)
}

// Where the problem at the cursor ends, none where the list ends inside it.
fn problem_end(problem: Cursor<'_>) -> Option<usize>
    ensures { EndSo problem.entry.list.now (problem_end problem.entry.list.now problem.entry.at) result }
{
    let mut cursor = problem;
    cursor.take(2 + area(problem))?;
    let arrows = cursor.number()?;
    for _i in 0..arrows {
        let cells = cursor.number()?;
        cursor.take(2 * cells)?;
    }
    Some(cursor.at)
}

// Whether something but zeros stands among the numbers.
fn zeros_differ(numbers: &[u16]) -> bool
    ensures { DiffersUnless result (ZerosFrom numbers.now 0) }
{
    numbers.iter().any(|&number| number != 0)
}

// Whether the arrows at the cursor differ from those in the two arrays, with zeros behind them.
fn arrows_differ(said: Cursor<'_>, count: usize, line: &[u16; 1024], ends: &[u16; 1024]) -> bool
    requires { count ≤ 1024 }
    ensures { DiffersUnless result (ArrowsSo said.entry.list.now said.entry.at count line.now ends.now 0 0) }
{
    let mut arrow = said;
    let mut end = 0;
    for &stop in &ends[..count] {
        let Some(n) = arrow.number() else {
            return true;
        };
        let next = end + n;
        if 1024 < next {
            return true;
        }
        if arrow.numbers_differ(n, &line[end..next], 0) {
            return true;
        }
        end = next;
        if usize::from(stop) != end {
            return true;
        }
        // Behind the last arrow the list may have ended inside its cells: where these are zeros, nothing differs.
        arrow.skip(2 * n);
    }
    zeros_differ(&line[end..]) || zeros_differ(&ends[count..])
}

// Whether the problem differs from the one at the cursor. No `==`: it is held against bytes of the list.
fn problem_differs(said: Cursor<'_>, problem: Problem) -> bool
    requires { said.at + 2 ≤ length said.list.now }
    ensures { DiffersUnless result (ProblemSo said.entry.list.now said.entry.at problem) }
{
    let n = area(said);
    let count = said.number_at(2 + n);
    if 1024 < count {
        return true;
    }
    let mut arrows = said;
    arrows.skip(4 + n);
    problem.height != said.byte_at(0)
        || problem.width != said.byte_at(1)
        || problem.count != count
        || said.on(2).cells_differ(n, &problem.cells, 0)
        || arrows_differ(arrows, count, &problem.arrows, &problem.ends)
}

// Whether a record is not refused with this number.
fn refusal_differs(record: &[u8], refusal: u8) -> bool
    ensures { DiffersUnless result (RefusedSo «record».now refusal) }
{
    replay::answer_differs(Problem::read(record).map(|_| ()), Err(refusal))
}

// Whether a record is refused, or its problem differs from the one at the cursor.
fn record_differs(record: &[u8], said: Cursor<'_>) -> bool
    requires { said.at + 2 ≤ length said.list.now }
    ensures { DiffersUnless result (RecordSo «record».now said.entry.list.now said.entry.at) }
{
    match Problem::read(record) {
        Ok(problem) => problem_differs(said, problem),
        Err(_) => true,
    }
}

// Records, each with what is read of it.
#[derive(Drop)]
struct Records;

impl Entries for Records {
    ghost counts = { λ _. EntrySo };

    ghost BEFORE = { 0 };

    const BEFORE: usize = 0;

    fn of(_data: &[u8]) -> Records {
        Records
    }

    fn run(&self, mut cursor: Cursor<'_>) -> Option<Run> {
        let bytes = cursor.counted()?;
        if let Err(refusal) = cursor.refusal()? {
            return Some(Run::of(refusal_differs(bytes, refusal), cursor.at));
        }
        let problem = cursor;
        cursor.take(2)?;
        let differs = record_differs(bytes, problem);
        Some(Run {
            parts: 0,
            differ: usize::from(differs),
            end: problem_end(problem),
        })
    }
}

// One line in each program that replays a list: `replay::replay` does it, and the entries and their words are the program's own.
fn main(rt: HostRuntime) -> io::Result<()> {
    replay::replay::<Records, _, _>(rt.reader(), &mut io::writer(&rt), " records, ", None)?;
    // A record that is far too long.
    let refusal = Problem::read(&[0; 131072]).err().map_or(0, Refusal::number);
    println!(rt; "131072 zeros: refused {refusal}")?;
    Ok(())
}
