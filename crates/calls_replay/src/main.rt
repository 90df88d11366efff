// Replays lists of calls from standard input: each call is made by value and on a lent board, and what it answers, leaves and writes is
// compared with what the list says. Then come boards that no list of calls could leave, which every call must refuse; one that some call
// takes is counted as one that differs.
//
// A list has a head of lines that begin with `#`, an empty line, and entries to its end: u16 length, that many bytes of record, u8 edition, u16
// length and that many u16 of sizes, u8 refusal of open, and where that is 0 the counts of hints that the fresh board is handed in with, u16
// number of calls, and the calls, with the counts of hints behind each that the board then has. Counts are four u16, that of player 0 first.
// A call is u8 kind, and for 0 (decide) u16 index, u8 value, u8 refusal; for 1 (undo) u8 refusal; for 2 (find) u8 player, u16 length of the
// buffer, u8 refusal, and where that is 0 u16 number of literals (0 for no reason) and the u16 literals; for 3 (cells) a state for
// each cell. A u16 has its high byte first; a refusal is 0 for none.
#![tactic(auto)]

mod boards;
mod damaged;

ghost use Rattle.std.specs.Prelude.{◌≤◌, length};

use board::Board;
use boards::Left;
use finds::{Find, Said, Way};
use refusal::Refusal;
use replay::{Cursor, Entries, Report, Run};
use std::io;

// The most numbers of sizes that an entry may have.
const SIZES: usize = 4096;

// What a call left: the board, on which the next call is made whatever differed, and whether something did.
#[derive(Clone, Copy)]
struct Step {
    board: Board,
    differs: bool,
}

// The step of a call on the board b that by value answers and leaves d, and on a lent board l, and of which the list says whether it is refused. A
// refused call leaves the board as it was.
fn answered(b: Board, d: Left, l: Left, said: Result<(), u8>) -> Step {
    let board = d.board;
    Step {
        board,
        differs: replay::answer_differs(d.answer, said)
            || replay::answer_differs(l.answer, said)
            || l.board != board
            || said.is_err() && board != b,
    }
}

// Makes the decide at the cursor; none where the list ends inside of it, here and below.
fn make_decide(cursor: &mut Cursor<'_>, b: Board) -> Option<Step> {
    let index = cursor.number()?;
    let value = cursor.byte()?;
    let said = cursor.refusal()?;
    Some(answered(
        b,
        boards::after_call(b, b.decide(index, value)),
        boards::on_lent(b, |lent| lent::decide_in(lent, index, value)),
        said,
    ))
}

// Makes the undo at the cursor.
fn make_undo(cursor: &mut Cursor<'_>, b: Board) -> Option<Step> {
    let said = cursor.refusal()?;
    Some(answered(
        b,
        boards::after_call(b, b.undo()),
        boards::on_lent(b, lent::undo_in),
        said,
    ))
}

// The step of a find on the board b, made by value and on a lent board, of which the list says these literals, or the number of its refusal. A refused
// one leaves the board as it was.
fn found(b: Board, find: Find, said: Result<Said<'_>, u8>) -> Step {
    let m = finds::find_differs(b, find, Way::Value(1), said);
    let l = finds::find_differs(b, find, Way::Lent, said);
    let board = m.board;
    Step {
        board,
        differs: m.differs || l.differs || l.board != board || said.is_err() && board != b,
    }
}

// Makes the find at the cursor; none also where its buffer is too long. A refused one has no literals.
fn make_find(cursor: &mut Cursor<'_>, b: Board) -> Option<Step> {
    let player = cursor.byte()?;
    let size = cursor.number()?;
    let said = cursor.refusal()?;
    if 4096 < size {
        return None;
    }
    let find = Find { player, size };
    if let Err(refusal) = said {
        return Some(found(b, find, Err(refusal)));
    }
    let count = cursor.number()?;
    let from = *cursor;
    cursor.take(2 * count)?;
    Some(found(b, find, Ok(Said { from, count })))
}

// Compares the cells at the cursor.
fn compare_cells(cursor: &mut Cursor<'_>, b: Board) -> Option<Step> {
    let n = replay::area(b.problem.height, b.problem.width)?;
    let cells = b.cells;
    let differs = cursor.cells_differ(n, &cells, grid::UNDECIDED);
    cursor.take(n)?;
    Some(Step { board: b, differs })
}

// Makes the call at the cursor; none also where it is of no kind. A kind is a number in the list alone: an enum of the four would be made of it here and
// matched at once.
fn make_call(cursor: &mut Cursor<'_>, b: Board) -> Option<Step> {
    match cursor.byte()? {
        0 => make_decide(cursor, b),
        1 => make_undo(cursor, b),
        2 => make_find(cursor, b),
        3 => compare_cells(cursor, b),
        _ => None,
    }
}

// Makes the call at the cursor, and holds the counts of hints that its board has against those behind it; none where the list ends before these.
fn make_counted(cursor: &mut Cursor<'_>, b: Board) -> Option<Step> {
    let Step { board, differs } = make_call(cursor, b)?;
    if cursor.at == cursor.list.len() {
        return None;
    }
    let hints = board.hints;
    Some(Step {
        board,
        differs: differs || cursor.numbers_differ(Board::PLAYERS, &hints, 0),
    })
}

// Makes the calls of an entry, which begin at the cursor, on a fresh board of its record.
fn run_calls(start: Cursor<'_>, calls: usize, fresh: Board) -> Run {
    let list = start.list;
    let mut b = fresh;
    let mut made = Run::of(false, start.at);
    for _i in 0..calls {
        match made.end {
            Some(at) if at < list.len() => {
                let mut cursor = Cursor { list, at };
                let part = match make_counted(&mut cursor, b) {
                    Some(step) => {
                        b = step.board;
                        let hints = cursor.take(2 * Board::PLAYERS);
                        Run {
                            parts: 0,
                            differ: usize::from(step.differs),
                            end: hints.map(|_| cursor.at),
                        }
                    }
                    None => Run::broken(),
                };
                made = made.then(part);
            }
            _ => return Run::broken(),
        }
    }
    made
}

// The numbers that these bytes are, two bytes each, and 0 in the places behind them.
fn numbers<const N: usize>(bytes: &[u8]) -> [u16; N] {
    let mut numbers = [0; N];
    let (pairs, _) = bytes.as_chunks::<2>();
    for (number, &pair) in numbers.iter_mut().zip(pairs) {
        *number = u16::from_be_bytes(pair);
    }
    numbers
}

// What opening the record in the edition answers, with these sizes.
fn opened(record: &[u8], edition: u8, sizes: &[u8]) -> Result<Board, Refusal>
    requires { length sizes.now ≤ 8192 }
{
    let numbers: [u16; SIZES] = numbers(sizes);
    Board::open(record, edition, &numbers[..sizes.len() / 2])
}

// Lists of calls, each with the record that they begin on.
#[derive(Drop)]
struct Lists;

impl Entries for Lists {
    ghost BEFORE = { 0 };

    const BEFORE: usize = 0;

    fn of(_data: &[u8]) -> Lists {
        Lists
    }

    // Opens the record of the entry at the cursor with its sizes, and where it is accepted makes its calls on the board with the counts of hints that
    // it is handed in with.
    fn run(&self, mut cursor: Cursor<'_>) -> Option<Run> {
        let bytes = cursor.counted()?;
        let edition = cursor.byte()?;
        let count = cursor.number()?;
        let sizes = cursor.take(2 * count)?;
        let said = cursor.refusal()?;
        if SIZES < count {
            return None;
        }
        let answer = opened(bytes, edition, sizes);
        if said.is_err() {
            let differs = replay::answer_differs(answer.map(|_| ()), said);
            return Some(Run::of(differs, cursor.at));
        }
        let hints = cursor.take(2 * Board::PLAYERS)?;
        let calls = cursor.number()?;
        let mut board = answer.ok()?;
        let handed = numbers(hints);
        board.hints = handed;
        Some(run_calls(cursor, calls, board))
    }
}

// One line in each program that replays a list: `replay::replay` does it, and the entries and their words are the program's own. Then the damaged boards.
fn main(rt: HostRuntime) -> io::Result<()> {
    let output = &mut io::writer(&rt);
    replay::replay::<Lists, _, _>(rt.reader(), output, " lists, ", Some(" calls, "))?;
    let report = Report {
        tally: damaged::go_through(),
        entries: " damaged boards, ",
        parts: None,
    };
    replay::hand_over(report, output)
}
