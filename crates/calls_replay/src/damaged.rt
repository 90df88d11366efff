// Boards that no list of calls could leave: strip S with cell 0 square, damaged one field at a time. Each call must refuse each of them
// with 6, and leave it and a lent buffer as they were.
ghost use Rattle.std.specs.Prelude.{◌≤◌, true, ◌≡◌};

use super::boards;
use super::boards::Left;
use board::Board;
use finds::{Find, Way};
use record::Problem;
use refusal::Refusal;
use replay::Tally;

// How many damages there are.
const DAMAGES: usize = 41;

// How many of them are to the problem; the others are to the sizes, the edition and what is decided.
const TO_PROBLEM: usize = 20;

// How many are to the sizes.
const TO_SIZES: usize = 6;

// Whether a call is not refused with 6.
fn taken<T: Copy>(answer: Result<T, Refusal>) -> bool {
    !matches!(answer, Err(Refusal::Board))
}

// Whether a call on a lent board is not refused with 6, or does not leave it as b.
fn changed(left: Left, b: Board) -> bool {
    taken(left.answer) || left.board != b
}

// Whether a find of the player on the board, made in this way, is not refused with 6, or changes the board or the lent buffer.
fn asked_so(b: Board, find: Find, way: Way) -> bool {
    let made = finds::find_differs(b, find, way, Err(Refusal::Board.number()));
    made.differs || made.board != b
}

// Whether it is so by value or on a lent board.
fn asked(b: Board, player: u8, size: usize) -> bool
    requires { size ≤ 4096 }
{
    let find = Find { player, size };
    asked_so(b, find, Way::Value(1)) || asked_so(b, find, Way::Lent)
}

// Whether some call on the board is not refused with 6, or changes the board or a lent buffer. Finds of a player above 3 are among them, and
// finds whose buffer is too short: 6 comes before 17 and before 11.
fn accepted(b: Board) -> bool {
    taken(b.decide(1, 1))
        || taken(b.undo())
        || changed(boards::on_lent(b, |lent| lent::decide_in(lent, 1, 1)), b)
        || changed(boards::on_lent(b, lent::undo_in), b)
        || taken(b.decide_all(b""))
        || taken(b.decide_all(b"\x80\x01"))
        || asked(b, 0, 4096)
        || asked(b, 3, 0)
        || asked(b, 4, 4096)
        || asked(b, 255, 0)
        || taken(finished::finished(b))
        || taken(certain::certain(b, 0))
        || taken(certain::certain(b, 1000))
        || taken(shades::shades(b))
}

// The damages stay matches on their numbers: each is one to be tried by itself, and an enum of forty-one names would only repeat them.

// The k-th damage to a problem: sizes, codes, arrow cells, ends, count, and what stands behind them.
fn damaged_problem(q: Problem, k: usize) -> Problem {
    let mut p = q;
    match k {
        0 => p.height = 0,
        1 => p.height = 33,
        2 => p.width = 0,
        3 => p.width = 33,
        4 => p.cells[0] = 3,
        5 => p.cells[3] = 1,
        6 => p.cells[1023] = 1,
        7 => p.arrows[2] = 3,
        8 => p.arrows[1] = 0,
        9 => {
            p.arrows[0] = 2;
            p.arrows[2] = 1;
            p.arrows[1] = 0;
        }
        10 => p.arrows[3] = 1,
        11 => p.arrows[1023] = 1,
        12 => p.ends[0] = 0,
        13 => p.ends[0] = 2,
        14 => p.ends[0] = 1025,
        15 => p.ends[1] = 1,
        16 => p.ends[1023] = 1,
        17 => p.count = 0,
        18 => p.count = 2,
        _ => p.count = 1025,
    }
    p
}

// The k-th damage to what is decided on a board: states, order, count, and what stands behind them; then to its edition.
fn damaged_decisions(board: Board, k: usize) -> Board {
    let mut b = board;
    match k {
        0 => b.cells[0] = 2,
        1 => b.cells[1] = 1,
        2 => b.cells[2] = 3,
        3 => b.cells[3] = 1,
        4 => b.cells[1023] = 0,
        5 => b.order[0] = 1,
        6 => b.order[0] = 3,
        7 => b.order[1] = 1,
        8 => b.order[1023] = 1,
        9 => b.decided = 0,
        10 => b.decided = 2,
        11 => b.decided = 1025,
        12 => b.edition = 0,
        13 => b.edition = 3,
        _ => b.edition = 255,
    }
    b
}

// The k-th damage to the sizes of a board: one end without the other, a range that is upside down, and one that sits off an arrow.
fn damaged_sizes(board: Board, k: usize) -> Board {
    let mut b = board;
    match k {
        0 => b.lowest[0] = 1,
        1 => b.highest[0] = 1,
        2 => {
            b.lowest[1] = 3;
            b.highest[1] = 2;
        }
        3 => {
            b.lowest[3] = 1;
            b.highest[3] = 1;
        }
        4 => {
            b.lowest[1023] = 1;
            b.highest[1023] = 2;
        }
        _ => b.highest[1023] = 65535,
    }
    b
}

// The k-th damaged board.
fn damaged(b: Board, k: usize) -> Board {
    if k < TO_PROBLEM {
        return Board {
            problem: damaged_problem(b.problem, k),
            ..b
        };
    }
    let rest = k - TO_PROBLEM;
    if rest < TO_SIZES {
        return damaged_sizes(b, rest);
    }
    damaged_decisions(b, rest - TO_SIZES)
}

// How many of the damaged boards are accepted.
fn count_accepted(b: Board) -> usize
    ensures { result ≤ 41 }
{
    (0..DAMAGES).filter(|&k| accepted(damaged(b, k))).count()
}

// The board that is damaged: one cell of a strip of five is decided.
fn whole_board() -> Result<Board, Refusal> {
    Board::open(b"\x00\x80\x08\x00\x00\x05\xE0", 1, &[])?.decide(0, 1)
}

// Goes through the damaged boards: how many there are, and how many of them are accepted; all of them, where there is no board to damage.
pub fn go_through() -> Tally
    ensures { (result.entries ≡ 41) × (result.parts ≡ 0) × (result.differ ≤ 41) × (result.whole ≡ true) }
{
    let differ = match whole_board() {
        Ok(board) => count_accepted(board),
        Err(_) => DAMAGES,
    };
    Tally {
        entries: DAMAGES,
        parts: 0,
        differ,
        at: 0,
        whole: true,
    }
}
