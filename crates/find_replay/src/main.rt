// Replays a list of boards from standard input: each is opened and decided, and what `reasons::find` answers and writes and what
// `finished::finished` answers is compared with what the list says. The buffer is longer than any reason, and nothing behind the
// literals may be written.
//
// A list has a head of lines that begin with `#`, an empty line, u16 rounds, how often find is called on each board before its answer is
// compared, at least once: two runs that differ in it tell the time of a call. Then come entries to its end: u16 length, that many bytes of
// record, u8 edition, u16 number of decisions, that many u16 decisions, u16 number of literals (0 for no reason), that many u16 literals,
// and a byte, 1 for a finished board and 0 for another. A u16 has its high byte first.
#![tactic(auto)]

ghost use Rattle.std.specs.Prelude.{◌≡◌, ◌+◌, ◌*◌, ◌<◌, length};
ghost use Rattle.refusal.specs.Refusals.{outcome_of};
ghost use Rattle.finished.specs.Verdicts.{Verdict, judged_as};
ghost use Rattle.replay.specs.Comparisons.{DiffersUnless};
ghost use Rattle.find_replay.specs.Entries.{VerdictSo, BoardSo, EntrySo};

use board::Board;
use finds::{Find, Said, Way};
use refusal::Refusal;
use replay::{Cursor, Entries, Run};
use std::io;

// Whether an answer of `finished` is not the one for this number: 1 for a finished board, 0 for another. By hand: `replay::answer_differs` would need the answer
// mapped to a number, and says nothing of a map.
#[tactic(auto, using(crate::proofs::EntryLaws::answer_told, crate::proofs::EntryLaws::refused_told))]
fn verdict_differs(answer: Result<bool, Refusal>, number: usize) -> bool
    ensures { (v : Verdict) → outcome_of answer ≡ judged_as v → DiffersUnless result (VerdictSo v number) }
{
    match answer {
        Ok(finished) => number != usize::from(finished),
        Err(_) => true,
    }
}

// Whether find on the board differs from these literals, or finished from the byte behind them. Player 0 finds, and the whole buffer is lent.
// No `==`, here and in `entry_differs`: what a board answers is held against bytes of a list.
fn board_differs(board: Board, rounds: usize, literals: Said<'_>) -> bool
    requires { literals.from.at + 2 * literals.count < length literals.from.list.now }
    ensures { DiffersUnless result (BoardSo board literals.entry.from.list.now literals.entry.from.at literals.entry.count) }
{
    let find = Find {
        player: 0,
        size: 4096,
    };
    let verdict = literals.from.byte_at(2 * literals.count);
    finds::find_differs(board, find, Way::Value(rounds), Ok(literals)).differs
        || verdict_differs(finished::finished(board), verdict)
}

// Whether the board of a record in an edition, without sizes, with these decisions is refused, or differs from what the list says from the literals on.
#[tactic(auto, using(crate::proofs::EntryLaws::not_opened, crate::proofs::EntryLaws::not_decided))]
fn entry_differs(
    record: &[u8],
    edition: u8,
    decisions: &[u8],
    rounds: usize,
    literals: Said<'_>,
) -> bool
    requires { literals.from.at + 2 * literals.count < length literals.from.list.now }
    ensures { DiffersUnless result (EntrySo «record».now edition decisions.now literals.entry.from.list.now literals.entry.from.at literals.entry.count) }
{
    let Ok(fresh) = Board::open(record, edition, &[]) else {
        return true;
    };
    let Ok(board) = fresh.decide_all(decisions) else {
        return true;
    };
    board_differs(board, rounds, literals)
}

// Boards, each with a find and a verdict, and how often find is called on each.
#[derive(Drop)]
struct Boards {
    rounds: usize,
}

impl Entries for Boards {
    ghost BEFORE = { 2 };

    const BEFORE: usize = 2;

    fn of(data: &[u8]) -> Boards {
        Boards {
            rounds: replay::number_at(data, 0),
        }
    }

    fn run(&self, mut cursor: Cursor<'_>) -> Option<Run> {
        let bytes = cursor.counted()?;
        let edition = cursor.byte()?;
        let decisions = cursor.number()?;
        let decisions = cursor.take(2 * decisions)?;
        let count = cursor.number()?;
        let literals = Said {
            from: cursor,
            count,
        };
        cursor.take(2 * count + 1)?;
        let differs = entry_differs(bytes, edition, decisions, self.rounds, literals);
        Some(Run::of(differs, cursor.at))
    }
}

// One line in each program that replays a list: `replay::replay` does the rest, and the entries and their words are the program's own.
fn main(rt: HostRuntime) -> io::Result<()> {
    replay::replay::<Boards, _, _>(rt.reader(), &mut io::writer(&rt), " boards, ", None)
}
