// Replays a list of checks of certificates from standard input: each is made, and what `unique::unique` returns is compared with what the list
// says.
//
// A list has a head of lines that begin with `#`, an empty line, and entries to its end: u16 length, that many bytes of record, the edition in
// one byte, u16 length, that many bytes of sizes, u16 length, that many bytes of certificate, and the number that is returned in one byte: 1, or
// 256 less the number of the refusal. A number has its high byte first.
#![tactic(auto)]

ghost use Rattle.std.specs.Prelude.{◌≡◌};
ghost use Rattle.replay.specs.Comparisons.{DiffersUnless};
ghost use Rattle.unique_replay.specs.Certificates.{expected, CallSo, EntrySo};

use replay::{Cursor, Entries, Run};
use std::io;

// The number that this byte of a list stands for: the definition `expected`, and no `From`, since it is so in these lists alone.
#[tactic(auto, using(std::proofs::lemmas::Bool::Decides::nat_tests), unfolding(crate::specs::Certificates::expected))]
fn expected_number(answer: u8) -> i32
    ensures { result ≡ expected answer }
{
    if answer == 1 {
        return 1;
    }
    i32::from(answer) - 256
}

// Whether the check of a certificate returns another number than this byte of a list stands for. One `!=` under a name: its contract is the fact by which an entry is counted.
fn call_differs(record: &[u8], edition: u32, sizes: &[u8], certificate: &[u8], answer: u8) -> bool
    ensures { DiffersUnless result (CallSo «record».now edition sizes.now certificate.now answer) }
{
    unique::unique(record, edition, sizes, certificate) != expected_number(answer)
}

// Checks of certificates, each with the number that it returns.
#[derive(Drop)]
struct Certificates;

impl Entries for Certificates {
    ghost counts = { λ _. EntrySo };

    ghost BEFORE = { 0 };

    const BEFORE: usize = 0;

    fn of(_data: &[u8]) -> Certificates {
        Certificates
    }

    fn run(&self, mut cursor: Cursor<'_>) -> Option<Run> {
        let bytes = cursor.counted()?;
        let edition = u32::from(cursor.byte()?);
        let sizes = cursor.counted()?;
        let certificate = cursor.counted()?;
        let answer = cursor.byte()?;
        let differs = call_differs(bytes, edition, sizes, certificate, answer);
        Some(Run::of(differs, cursor.at))
    }
}

// One line in each program that replays a list: `replay::replay` does the rest, and the entries and their words are the program's own.
fn main(rt: HostRuntime) -> io::Result<()> {
    replay::replay::<Certificates, _, _>(rt.reader(), &mut io::writer(&rt), " certificates, ", None)
}
