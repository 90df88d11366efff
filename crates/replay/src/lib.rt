// What the programs that replay lists of answers share: the reading of a list, the comparison of what was computed with it, the count of its
// entries, and the text that says the count.
//
// A list has a head of lines that begin with `#`, an empty line, and then entries to its end. A u16 has its high byte first.
#![tactic(auto)]

ghost use Rattle.std.specs.Prelude.{◌+◌, ◌≤◌, ◌<◌, ◌≡◌, ℕ, List, Option, Some, option_map, cond, length, get_or, take, drop, OnOk, IfOk, IfSome, IfNone, ⊤};
ghost use Rattle.std.specs.Bool.{Decides};
ghost use Rattle.std.specs.Io.KnownBytes.{Appends};
ghost use Rattle.refusal.specs.Refusals.{outcome_of};
ghost use Rattle.replay.specs.Comparisons.{DiffersUnless, outcome_said, said_by};
ghost use Rattle.replay.specs.Tallies.{sum_of, broken_run, run_of, then_of, also_of, tally_of, with_of, Through};
ghost use Rattle.replay.specs.Lists.{area_of, number_at, data_start, byte_in, number_in, differs};
ghost use Rattle.replay.specs.Printed.{tally_text};

use arrayvec::ArrayString;
use refusal::Refusal;
use std::io::{Read, Write};
use std::{fmt, io};

// What an entry counted, and where it ends in the list, if it can be gone through to its end.
#[derive(Clone, Copy, Debug, PartialEq, Eq)]
pub struct Run {
    pub parts: usize,
    pub differ: usize,
    pub end: Option<usize>,
}

// What was counted of a list, where its next entry begins, and whether no damage was met. A flag, and no `Option` of the place: a damaged list is told with its counts,
// and the place ends the loop.
#[derive(Clone, Copy, Debug, PartialEq, Eq)]
pub struct Tally {
    pub entries: usize,
    pub parts: usize,
    pub differ: usize,
    pub at: usize,
    pub whole: bool,
}

// A tally, with a word for its entries and, where their parts are told too, one for these.
#[derive(Drop)]
pub struct Report<'a> {
    pub tally: Tally,
    pub entries: &'a str,
    pub parts: Option<&'a str>,
}

// What stands in every place of a fresh buffer: a number that is the literal of no cell.
pub const NO_LITERAL: u16 = 65535;

// Room for the text of every tally with words of up to 47 bytes: three numbers of 20 digits each, ` differ`, `list damaged` and two newlines.
const TEXT: usize = 128;

// What stands in the place of a name where there is none: the number behind that of the last cell. It is `groups::NO_GROUP`, and this crate is not above that one.
const NO_NAME: u16 = 1024;

// H × W, none where a size is above 32.
#[tactic(auto, using(std::proofs::lemmas::Bool::Decides::nat_tests), unfolding(crate::specs::Lists::area_of))]
pub fn area(height: usize, width: usize) -> Option<usize>
    ensures { (result ≡ area_of height width) × IfSome result (λ n. n ≤ 1024) }
{
    if 32 < height || 32 < width {
        return None;
    }
    Some(height * width)
}

// The u16 at `at`, with 0 for each byte behind the end.
#[tactic(auto, using(crate::proofs::ListLaws::no_number), unfolding(crate::specs::Lists::number_at))]
pub fn number_at(list: &[u8], at: usize) -> usize
    ensures { (result ≡ number_at list.now at) × (result < 65536) }
{
    let Some(&high) = list.get(at) else {
        return 0;
    };
    let low = list.get(at + 1).map_or(0, |&byte| byte);
    usize::from(u16::from_be_bytes([high, low]))
}

// Where the data begins: behind the head and its empty line, none where there is no such head.
pub fn data_start(list: &[u8]) -> Option<usize>
    ensures { (result ≡ data_start list.now) × IfSome result (λ start. start ≤ length list.now) }
{
    let Some(b'#') = list.first() else {
        return None;
    };
    // Behind each other line of the head comes one that begins as it does.
    let end = (1..list.len()).find(|&i| list[i - 1] == b'\n' && list[i] != b'#')?;
    if list[end] == b'\n' {
        Some(end + 1)
    } else {
        None
    }
}

// Whether a call answers something else than what a list says of it: a value, or the number of its refusal. A number,
// and no `Refusal`: a list may say any byte. What is compared has two types, so that `==` is not there.
pub fn answer_differs<T: PartialEq + Drop>(answer: Result<T, Refusal>, said: Result<T, u8>) -> bool
    ensures { ((a b : T) → Decides (T.eq a b) (a ≡ b)) → DiffersUnless result (outcome_of answer ≡ outcome_said said) }
{
    answer.map_err(Refusal::number) != said
}

impl Run {
    // An entry that the list ends inside of, or that can't be gone through: it differs, and where it ends isn't known.
    pub fn broken() -> Run
        ensures { result ≡ broken_run }
    {
        Run {
            parts: 0,
            differ: 1,
            end: None,
        }
    }

    // An entry that is compared as a whole, and where it ends.
    pub fn of(differs: bool, end: usize) -> Run
        ensures { result ≡ run_of differs end }
    {
        Run {
            parts: 0,
            differ: usize::from(differs),
            end: Some(end),
        }
    }

    // With the next part of the entry.
    pub fn then(self, part: Run) -> Run
        ensures { result ≡ then_of self part }
    {
        Run {
            parts: self.parts.saturating_add(1),
            differ: self.differ.saturating_add(part.differ),
            end: part.end,
        }
    }

    // With one difference more where something else differs too.
    pub fn also(self, differs: bool) -> Run
        ensures { result ≡ also_of self differs }
    {
        Run {
            parts: self.parts,
            differ: self.differ.saturating_add(usize::from(differs)),
            end: self.end,
        }
    }
}

impl Tally {
    // Of a list none of whose entries was met; so many bytes of its data come before them.
    #[tactic(auto, using(std::proofs::lemmas::Bool::Decides::nat_tests))]
    pub fn of(list: &[u8], before: usize) -> Tally
        ensures { result ≡ tally_of list.now before }
    {
        let (at, whole) = match data_start(list) {
            Some(start) if before <= list.len() - start => (start + before, true),
            _ => (list.len(), false),
        };
        Tally {
            entries: 0,
            parts: 0,
            differ: 0,
            at,
            whole,
        }
    }

    // With the entry at its place, in a list of this size. An entry that the list ends inside of is the last.
    #[tactic(auto, using(std::proofs::lemmas::Bool::Decides::nat_tests))]
    pub fn with(self, run: Run, size: usize) -> Tally
        requires { self.at < size }
        ensures { (result ≡ with_of self run size) × (self.at < result.at) }
    {
        let (at, whole) = match run.end {
            Some(end) if self.at < end && end <= size => (end, self.whole),
            _ => (size, false),
        };
        Tally {
            entries: self.entries.saturating_add(1),
            parts: self.parts.saturating_add(run.parts),
            differ: self.differ.saturating_add(run.differ),
            at,
            whole,
        }
    }
}

impl fmt::Display for Report<'_> {
    ghost output = { λ r. Some (tally_text r.tally r.entries.now (option_map (λ word. word.now) r.parts)) };

    fn fmt<W: fmt::Write>(&self, f: &mut fmt::Formatter<W>) -> fmt::Result {
        let tally = self.tally;
        write!(f, "{}{}", tally.entries, self.entries)?;
        if let Some(parts) = self.parts {
            write!(f, "{}{parts}", tally.parts)?;
        }
        writeln!(f, "{} differ", tally.differ)?;
        if !tally.whole {
            writeln!(f, "list damaged")?;
        }
        Ok(())
    }
}

// A place in a list, its end at most. What is read of the list begins there, and leaves the place behind it.
#[derive(Clone, Copy)]
pub struct Cursor<'a> {
    pub list: &'a [u8],
    pub at: usize,
    ghost inside: { at ≤ length list.now },
}

impl<'a> Cursor<'a> {
    // The place this many bytes on in the same list.
    pub fn on(self, n: usize) -> Cursor<'a>
        requires { self.at + n ≤ length self.list.now }
        ensures same { result.list.now ≡ self.entry.list.now }
        ensures on { result.at ≡ self.entry.at + n }
    {
        Cursor {
            list: self.list,
            at: self.at + n,
        }
    }

    // The next n bytes, none where the list ends before them.
    pub fn take(&mut self, n: usize) -> Option<&'a [u8]>
        ensures same { self.new.list.now ≡ self.old.list.now }
        ensures taken { IfSome result (λ bytes. (bytes.now ≡ take n (drop self.old.at self.old.list.now)) × (self.new.at ≡ self.old.at + n)) }
        ensures short { IfNone result ((length self.old.list.now < self.old.at + n) × (self.new.at ≡ self.old.at)) }
    {
        let bytes = self.list[self.at..].get(..n)?;
        self.at += n;
        Some(bytes)
    }

    // The next byte, none at the end.
    pub fn byte(&mut self) -> Option<u8>
        ensures same { self.new.list.now ≡ self.old.list.now }
        ensures taken { IfSome result (λ byte. (byte ≡ get_or self.old.list.now self.old.at 0) × (self.new.at ≡ self.old.at + 1)) }
        ensures short { IfNone result ((length self.old.list.now < self.old.at + 1) × (self.new.at ≡ self.old.at)) }
    {
        let bytes = self.take(1)?;
        Some(bytes[0])
    }

    // What the next byte says of a call: the number of its refusal, and 0 where it is not refused; none at the end. A number, and no `Refusal`: a list may say any byte.
    pub fn refusal(&mut self) -> Option<Result<(), u8>>
        ensures same { self.new.list.now ≡ self.old.list.now }
        ensures taken { IfSome result (λ said. (said ≡ said_by (get_or self.old.list.now self.old.at 0)) × (self.new.at ≡ self.old.at + 1)) }
        ensures short { IfNone result ((length self.old.list.now < self.old.at + 1) × (self.new.at ≡ self.old.at)) }
    {
        match self.byte()? {
            0 => Some(Ok(())),
            number => Some(Err(number)),
        }
    }

    // The next u16, none where the list ends before it or inside it.
    pub fn number(&mut self) -> Option<usize>
        ensures same { self.new.list.now ≡ self.old.list.now }
        ensures taken { IfSome result (λ n. (n ≡ number_at self.old.list.now self.old.at) × (n < 65536) × (self.new.at ≡ self.old.at + 2)) }
        ensures short { IfNone result ((length self.old.list.now < self.old.at + 2) × (self.new.at ≡ self.old.at)) }
    {
        let at = self.at;
        self.take(2)?;
        Some(number_at(self.list, at))
    }

    // The next u16 and that many bytes behind it: these, none where the list ends before their end.
    pub fn counted(&mut self) -> Option<&'a [u8]>
        ensures same { self.new.list.now ≡ self.old.list.now }
        ensures taken { IfSome result (λ bytes. (bytes.now ≡ take (number_at self.old.list.now self.old.at) (drop (self.old.at + 2) self.old.list.now))
            × (self.new.at ≡ self.old.at + 2 + number_at self.old.list.now self.old.at)) }
        ensures short { IfNone result (length self.old.list.now < self.old.at + 2 + number_at self.old.list.now self.old.at) }
    {
        let n = self.number()?;
        self.take(n)
    }

    // Leaves the next n bytes out, or all that there are, where the list ends before them.
    pub fn skip(&mut self, n: usize)
        ensures same { self.new.list.now ≡ self.old.list.now }
        ensures inside { self.old.at + n ≤ length self.old.list.now → self.new.at ≡ self.old.at + n }
        ensures short { length self.old.list.now < self.old.at + n → self.new.at ≡ length self.old.list.now }
    {
        self.at += n.min(self.list.len() - self.at);
    }

    // The byte this many places on, 0 behind the end.
    pub fn byte_at(self, offset: usize) -> usize
        ensures { (result ≡ get_or self.entry.list.now (self.entry.at + offset) 0) × (result < 256) }
    {
        let rest = &self.list[self.at..];
        rest.get(offset).map_or(0, |&byte| usize::from(byte))
    }

    // The u16 this many places on, with 0 for each byte behind the end.
    #[tactic(auto, unfolding(crate::specs::Lists::number_at))]
    pub fn number_at(self, offset: usize) -> usize
        ensures { (result ≡ number_at self.entry.list.now (self.entry.at + offset)) × (result < 65536) }
    {
        number_at(&self.list[self.at..], offset)
    }

    // What stands at place i where the next n bytes stand from place `from` on, and this byte in every other place.
    #[tactic(auto, using(std::proofs::lemmas::Bool::Decides::nat_tests), unfolding(crate::specs::Lists::byte_in))]
    fn byte_in(self, n: usize, from: usize, other: u8, i: usize) -> usize
        ensures { result ≡ byte_in self.entry.list.now self.entry.at n from other i }
    {
        if i < from || n <= i - from {
            return usize::from(other);
        }
        self.byte_at(i - from)
    }

    // Whether the bytes are not, from place `from` on, the next n bytes of the list, and in every other place this one. No `==`, here and below: no slice holds what they
    // are compared with, which are bytes of the list and a number that fills the other places.
    pub fn bytes_differ(self, n: usize, bytes: &[u8], from: usize, other: u8) -> bool
        ensures { result ≡ differs bytes.now (byte_in self.entry.list.now self.entry.at n from other) 0 }
    {
        bytes.iter().enumerate().any(|(i, &byte)| usize::from(byte)
            != self.byte_in(n, from, other, i))
    }

    // Whether an array with a place for each cell differs from the next n bytes of the list, with this byte behind them.
    pub fn cells_differ(self, n: usize, cells: &[u8; 1024], behind: u8) -> bool
        ensures { result ≡ differs cells.now (byte_in self.entry.list.now self.entry.at n 0 behind) 0 }
    {
        self.bytes_differ(n, cells, 0, behind)
    }

    // What stands at place i where the next n numbers stand in the first places, and this number behind them.
    #[tactic(auto, using(std::proofs::lemmas::Bool::Decides::nat_tests), unfolding(crate::specs::Lists::number_in))]
    fn number_in(self, n: usize, behind: u16, i: usize) -> usize
        requires { i < 4611686018427387904 }
        ensures { result ≡ number_in self.entry.list.now self.entry.at n behind i }
    {
        if n <= i {
            return usize::from(behind);
        }
        self.number_at(2 * i)
    }

    // Whether the numbers are not the next n numbers of the list, with this number behind them. It stays beside `bytes_differ`, which it is like in
    // one line: one function of both would be lent what stands at each place by a closure, of which it had to promise what they promise.
    pub fn numbers_differ(self, n: usize, numbers: &[u16], behind: u16) -> bool
        ensures { result ≡ differs numbers.now (number_in self.entry.list.now self.entry.at n behind) 0 }
    {
        numbers.iter().enumerate().any(|(i, &number)| usize::from(number)
            != self.number_in(n, behind, i))
    }

    // The same for an array with a place for each cell, and 1024, which stands for none, behind its names.
    pub fn names_differ(self, n: usize, names: &[u16; 1024]) -> bool
        ensures { result ≡ differs names.now (number_in self.entry.list.now self.entry.at n 1024) 0 }
    {
        self.numbers_differ(n, names, NO_NAME)
    }

    // The same for a buffer that was fresh, and nothing written behind its literals.
    pub fn literals_differ(self, n: usize, buffer: &[u16; 4096]) -> bool
        ensures { result ≡ differs buffer.now (number_in self.entry.list.now self.entry.at n 65535) 0 }
    {
        self.numbers_differ(n, buffer, NO_LITERAL)
    }
}

// The entries of the lists that a program replays, with what a list says of all of them before the first.
pub trait Entries: Drop {
    ghost use Rattle.replay.specs.declared.Run.{Run};

    // What the entry at a place of a list may count, none where it can't be gone through. An impl that leaves it out says nothing.
    ghost counts: { Self → List ℕ → ℕ → Option Run → Type 0 } = { λ _ _ _ _. ⊤ };

    ghost BEFORE: { ℕ };

    // So many bytes of a list's data come before its entries. Each impl gives it, the five too that give 0: `rattle check` states no constant that has a
    // value in its trait and a ghost member of its name.
    const BEFORE: usize;

    // What the data of a list says before its entries. It has no body here: one would ask each type for a `Default`, also those that read something.
    fn of(data: &[u8]) -> Self;

    // Goes through the entry at the cursor.
    fn run(&self, cursor: Cursor<'_>) -> Option<Run>
        requires { cursor.at < length cursor.list.now }
        ensures { counts self.now cursor.entry.list.now cursor.entry.at result };
}

// Goes through the entries of a list.
fn go_through<E: Entries>(entries: &E, list: &[u8]) -> Tally
    ensures { Through (E.counts entries.now list.now) (length list.now) (tally_of list.now E.BEFORE) result }
{
    let mut tally = Tally::of(list, E::BEFORE);
    // A `while`: where the next entry stands, each entry tells.
    while tally.at < list.len() {
        let cursor = Cursor { list, at: tally.at };
        let run = entries.run(cursor).unwrap_or(Run::broken());
        tally = tally.with(run, list.len());
    }
    tally
}

// Hands the text of a report to the output in one write, so that a line comes whole to whoever reads it; where the words leave no room for it, as it comes.
pub fn hand_over<W: Write>(report: Report<'_>, output: &mut W) -> io::Result<()>
    ensures { OnOk result (Appends (W.contents output.old) (W.contents output.new) (tally_text report.entry.tally report.entry.entries.now (option_map (λ word. word.now) report.entry.parts))) }
{
    let mut text: ArrayString<TEXT> = ArrayString::new();
    if fmt::Write::write_fmt(&mut text, format_args!("{report}")).is_err() {
        return write!(output, "{report}");
    }
    output.write_all(text.as_bytes())
}

// Replays the list on the input: goes through its entries, and prints what was counted, with a word for them and, where their parts are told
// too, one for these.
pub fn replay<E: Entries, R: Read + Drop, W: Write>(
    input: R,
    output: &mut W,
    entries: &str,
    parts: Option<&str>,
) -> io::Result<()>
    ensures { OnOk result (IfSome (R.remaining input) (λ bytes. (found : E) × (tally : Tally)
        × Through (E.counts found (take 524288 bytes)) (length (take 524288 bytes)) (tally_of (take 524288 bytes) E.BEFORE) tally
        × Appends (W.contents output.old) (W.contents output.new) (tally_text tally entries.now (option_map (λ word. word.now) parts.entry)))) }
{
    // Room for the longest list.
    let mut room = [0; 524288];
    let list = text::read_into(input, &mut room)?;
    let start = data_start(list).unwrap_or(list.len());
    let found = E::of(&list[start..]);
    let report = Report {
        tally: go_through(&found, list),
        entries,
        parts,
    };
    hand_over(report, output)
}
