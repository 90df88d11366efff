// Replays a list of inputs of the program `reason` from standard input: what `answer::respond` writes for each is compared with what the
// list says, and nothing behind the text may be written.
//
// A list has a head of lines that begin with `#`, an empty line, and entries to its end: u16 length, that many bytes of input, u16 length,
// that many bytes of text. A u16 has its high byte first.
#![tactic(auto)]

ghost use Rattle.replay.specs.Comparisons.{DiffersUnless};
ghost use Rattle.answer_replay.specs.Answers.{AnswersSo, EntrySo};

use replay::{Cursor, Entries, Run};
use std::io;

// Whether the answer to the input differs from the next `count` bytes of the list, or something is written behind them.
// No `==`: a text and the room behind it are held against bytes of a list.
fn answer_differs(input: &[u8], count: usize, said: Cursor<'_>) -> bool
    ensures { DiffersUnless result (AnswersSo input.now said.entry.list.now said.entry.at count) }
{
    // A byte that no text has stands in every place of the room for the text.
    let mut text = [255; answer::TEXT];
    let n = answer::respond(input, &mut text);
    n != count || said.bytes_differ(count, &text, 0, 255)
}

// Inputs of the program, each with its text.
#[derive(Drop)]
struct Inputs;

impl Entries for Inputs {
    ghost counts = { λ _. EntrySo };

    ghost BEFORE = { 0 };

    const BEFORE: usize = 0;

    fn of(_data: &[u8]) -> Inputs {
        Inputs
    }

    fn run(&self, mut cursor: Cursor<'_>) -> Option<Run> {
        let input = cursor.counted()?;
        let count = cursor.number()?;
        let text = cursor;
        cursor.take(count)?;
        Some(Run::of(answer_differs(input, count, text), cursor.at))
    }
}

// One line in each program that replays a list: `replay::replay` does the rest, and the entries and their words are the program's own.
fn main(rt: HostRuntime) -> io::Result<()> {
    replay::replay::<Inputs, _, _>(rt.reader(), &mut io::writer(&rt), " inputs, ", None)
}
