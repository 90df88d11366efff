// What calls answer, by value and on a lent board, with the board that they leave.
ghost use Rattle.std.specs.Prelude.{◌≡◌, MatchResult, Ok, Err};
ghost use Rattle.std.specs.Fn.{FnOnceReturnsAtMut};

use board::Board;
use refusal::Refusal;

// What a call answers, with the board that it leaves, which is asked for after a refusal too.
#[derive(Clone, Copy)]
pub struct Left {
    pub answer: Result<(), Refusal>,
    pub board: Board,
}

// The answer of a call by value on the board b, which a refusal leaves.
pub fn after_call(b: Board, answer: Result<Board, Refusal>) -> Left
    ensures { MatchResult answer (λ board. (result.answer ≡ Ok tt) × (result.board ≡ board)) (λ refusal. (result.answer ≡ Err refusal) × (result.board ≡ b)) }
{
    Left {
        answer: answer.map(|_| ()),
        board: answer.unwrap_or(b),
    }
}

// A call on a lent board: what it answers, with the board that it leaves. A find has `finds::find_lent`: it gives another answer, and writes a buffer.
pub fn on_lent<F: FnOnce(&mut Board) -> Result<(), Refusal>>(board: Board, call: F) -> Left
    requires { F.IsAlwaysCallable call }
    ensures { FnOnceReturnsAtMut F.FnOnce call board result.answer result.board }
{
    let mut lent = board;
    let answer = call(&mut lent);
    Left {
        answer,
        board: lent,
    }
}
