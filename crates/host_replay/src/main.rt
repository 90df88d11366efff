// Replays a list of host calls from standard input: each is made, and what `host::evolmino_find` returns and leaves in the output is
// compared with what the list says. The output lies in a longer array, of which nothing but the literals may change.
//
// A list has a head of lines that begin with `#`, an empty line, and entries to its end: u16 length, that many bytes of record, u16 length,
// that many bytes of decisions, u16 length of the output, the number that is returned in 4 bytes, two's complement, and where it is positive
// that many u16 literals. A number has its high byte first.
#![tactic(auto)]

ghost use Rattle.std.specs.Prelude.{◌≤◌, ◌<◌};
ghost use Rattle.replay.specs.Comparisons.{DiffersUnless};
ghost use Rattle.replay.specs.Lists.{byte_in};
ghost use Rattle.host_replay.specs.HostCalls.{CallSo};

use replay::{Cursor, Entries, Run};
use std::io;

// What stands in every place of the array before a call.
const BEFORE: u8 = 170;

// So many places of the array are before the output.
const GUARD: usize = 64;

// How many bytes of literals go with the number that is returned: two for each where it counts them, none where it is negative, or above each count
// that is ever returned.
fn literal_bytes(expected: i32) -> usize
    ensures { result < 131072 }
{
    u16::try_from(expected).map_or(0, |count| 2 * usize::from(count))
}

// A host call with an output of this size, of which the list says the number that is returned and so many bytes of literals, those at the cursor.
#[derive(Clone, Copy)]
struct Call<'a> {
    record: &'a [u8],
    decisions: &'a [u8],
    size: usize,
    expected: i32,
    literals: Cursor<'a>,
    count: usize,
    ghost small: { size ≤ 8000 },
}

impl Call<'_> {
    // Whether the call returns another number, or leaves anything but the literals. No `==`: what it leaves is held against bytes of a list.
    fn differs(&self) -> bool
        ensures { DiffersUnless result (CallSo self.now.«record».now self.now.decisions.now self.now.size self.now.expected
            (byte_in self.now.literals.list.now self.now.literals.at self.now.count 64 170)) }
    {
        let mut array = [BEFORE; 8192];
        let output = &mut array[GUARD..GUARD + self.size];
        let returned = host::evolmino_find(self.record, self.decisions, output);
        returned != self.expected
            || self
                .literals
                .bytes_differ(self.count, &array, GUARD, BEFORE)
    }
}

// Host calls, each with what it returns and the literals that it leaves.
#[derive(Drop)]
struct Calls;

impl Entries for Calls {
    ghost BEFORE = { 0 };

    const BEFORE: usize = 0;

    fn of(_data: &[u8]) -> Calls {
        Calls
    }

    fn run(&self, mut cursor: Cursor<'_>) -> Option<Run> {
        let bytes = cursor.counted()?;
        let decisions = cursor.counted()?;
        let size = cursor.number()?;
        let expected = i32::from_be_bytes(*cursor.take(4)?.first_chunk()?);
        let literals = cursor;
        let count = literal_bytes(expected);
        cursor.take(count)?;
        if 8000 < size {
            return None;
        }
        let call = Call {
            record: bytes,
            decisions,
            size,
            expected,
            literals,
            count,
        };
        Some(Run::of(call.differs(), cursor.at))
    }
}

// One line in each program that replays a list: `replay::replay` does the rest, and the entries and their words are the program's own.
fn main(rt: HostRuntime) -> io::Result<()> {
    replay::replay::<Calls, _, _>(rt.reader(), &mut io::writer(&rt), " calls, ", None)
}
