// The calls that are exported for Rust and C: each is the function of `host` that has its name, and promises the same. Each stands once more here, since
// a crate is a library, which others may call, or a static library with functions for C, and not both.
#![tactic(auto)]

ghost use Rattle.std.specs.Prelude.{◌≡◌, length};
ghost use Rattle.exported.specs.Written.{written, output_with};
ghost use Rattle.clauses.specs.Clauses.{sheet_for};
ghost use Rattle.turn.specs.Turn.{turn_record};
ghost use Rattle.join.specs.Join.{join_record};
ghost use Rattle.file.specs.Call.{player_given, setter_given, given_length, given_bytes};
ghost use Rattle.calls.specs.Found.{host_finds, host_finds_with, returned, output_after};
ghost use Rattle.calls.specs.Judged.{host_finished, host_finished_with, judged};
ghost use Rattle.calls.specs.Shaded.{host_shades};
ghost use Rattle.unique.specs.Unique.{host_unique, unique_returned};
ghost use Rattle.calls.specs.Told.{host_certain, host_certain_with, said_number, said_bytes};
ghost use Rattle.board.specs.Answers.{after_open};
ghost use Rattle.board.specs.Kept.{open_of};
ghost use Rattle.board.specs.Decide.{decide_of, undo_of};
ghost use Rattle.board.specs.Hints.{after_find};
ghost use Rattle.reasons.specs.Find.{find_of, buffer_after};
ghost use Rattle.finished.specs.Verdicts.{finished_of};
ghost use Rattle.host_board.specs.Lent.{answer_number, finding_number, verdict_number, board_certain, hints_of, count_number};

use board::Board;

#[unsafe(no_mangle)]
pub extern "C" fn evolmino_find(record: &[u8], decisions: &[u8], output: &mut [u8]) -> i32
    ensures { (result ≡ returned (host_finds «record».now decisions.now (length output.old)))
        × (output.new ≡ output_after (host_finds «record».now decisions.now (length output.old)) output.old) }
{
    host::evolmino_find(record, decisions, output)
}

#[unsafe(no_mangle)]
pub extern "C" fn evolmino_find_with(
    record: &[u8],
    edition: u32,
    sizes: &[u8],
    decisions: &[u8],
    output: &mut [u8],
) -> i32
    ensures { (result ≡ returned (host_finds_with «record».now edition sizes.now decisions.now (length output.old)))
        × (output.new ≡ output_after (host_finds_with «record».now edition sizes.now decisions.now (length output.old)) output.old) }
{
    host::evolmino_find_with(record, edition, sizes, decisions, output)
}

#[unsafe(no_mangle)]
pub extern "C" fn evolmino_finished(record: &[u8], decisions: &[u8]) -> i32
    ensures { result ≡ judged (host_finished «record».now decisions.now) }
{
    host::evolmino_finished(record, decisions)
}

#[unsafe(no_mangle)]
pub extern "C" fn evolmino_finished_with(
    record: &[u8],
    edition: u32,
    sizes: &[u8],
    decisions: &[u8],
) -> i32
    ensures { result ≡ judged (host_finished_with «record».now edition sizes.now decisions.now) }
{
    host::evolmino_finished_with(record, edition, sizes, decisions)
}

#[unsafe(no_mangle)]
pub extern "C" fn evolmino_clauses(record: &[u8], output: &mut [u8]) -> i32
    ensures { (result ≡ written (sheet_for (length output.old) «record».now))
        × (output.new ≡ output_with (sheet_for (length output.old) «record».now) output.old) }
{
    host::evolmino_clauses(record, output)
}

#[unsafe(no_mangle)]
pub extern "C" fn evolmino_shades(record: &[u8], decisions: &[u8], output: &mut [u8]) -> i32
    ensures { (result ≡ written (host_shades «record».now decisions.now (length output.old)))
        × (output.new ≡ output_with (host_shades «record».now decisions.now (length output.old)) output.old) }
{
    host::evolmino_shades(record, decisions, output)
}

#[unsafe(no_mangle)]
pub extern "C" fn evolmino_certain(
    record: &[u8],
    decisions: &[u8],
    budget: u64,
    output: &mut [u8],
) -> i32
    ensures { (result ≡ said_number (host_certain «record».now decisions.now budget (length output.old)))
        × (output.new ≡ output_with (said_bytes (host_certain «record».now decisions.now budget (length output.old))) output.old) }
{
    host::evolmino_certain(record, decisions, budget, output)
}

#[unsafe(no_mangle)]
pub extern "C" fn evolmino_certain_with(
    record: &[u8],
    edition: u32,
    sizes: &[u8],
    decisions: &[u8],
    budget: u64,
    output: &mut [u8],
) -> i32
    ensures { (result ≡ said_number (host_certain_with «record».now edition sizes.now decisions.now budget (length output.old)))
        × (output.new ≡ output_with (said_bytes (host_certain_with «record».now edition sizes.now decisions.now budget (length output.old))) output.old) }
{
    host::evolmino_certain_with(record, edition, sizes, decisions, budget, output)
}

#[unsafe(no_mangle)]
pub extern "C" fn evolmino_unique(
    record: &[u8],
    edition: u32,
    sizes: &[u8],
    certificate: &[u8],
) -> i32
    ensures { result ≡ unique_returned (host_unique «record».now edition sizes.now certificate.now) }
{
    host::evolmino_unique(record, edition, sizes, certificate)
}

#[unsafe(no_mangle)]
pub extern "C" fn evolmino_turn(record: &[u8], k: u32, output: &mut [u8]) -> i32
    ensures { (result ≡ written (turn_record k (length output.old) «record».now))
        × (output.new ≡ output_with (turn_record k (length output.old) «record».now) output.old) }
{
    host::evolmino_turn(record, k, output)
}

#[unsafe(no_mangle)]
pub extern "C" fn evolmino_join(left: &[u8], right: &[u8], output: &mut [u8]) -> i32
    ensures { (result ≡ written (join_record (length output.old) left.now right.now))
        × (output.new ≡ output_with (join_record (length output.old) left.now right.now) output.old) }
{
    host::evolmino_join(left, right, output)
}

#[unsafe(no_mangle)]
pub extern "C" fn evolmino_setter_file(file: &[u8], edition: u32, output: &mut [u8]) -> i32
    ensures { (result ≡ given_length (setter_given (length output.old) edition file.now))
        × (output.new ≡ output_with (given_bytes (setter_given (length output.old) edition file.now)) output.old) }
{
    host::evolmino_setter_file(file, edition, output)
}

#[unsafe(no_mangle)]
pub extern "C" fn evolmino_player_file(file: &[u8], output: &mut [u8]) -> i32
    ensures { (result ≡ given_length (player_given (length output.old) file.now))
        × (output.new ≡ output_with (given_bytes (player_given (length output.old) file.now)) output.old) }
{
    host::evolmino_player_file(file, output)
}

#[unsafe(no_mangle)]
pub extern "C" fn evolmino_board_open(
    record: &[u8],
    edition: u32,
    sizes: &[u16],
    board: &mut Board,
) -> i32
    ensures { (result ≡ answer_number (open_of «record».now edition sizes.now).answer)
        × (board.new ≡ after_open board.old (open_of «record».now edition sizes.now)) }
{
    host::evolmino_board_open(record, edition, sizes, board)
}

#[unsafe(no_mangle)]
pub extern "C" fn evolmino_board_decide(board: &mut Board, index: usize, value: u8) -> i32
    ensures { (result ≡ answer_number (decide_of board.old index value).answer) × (board.new ≡ (decide_of board.old index value).board) }
{
    host::evolmino_board_decide(board, index, value)
}

#[unsafe(no_mangle)]
pub extern "C" fn evolmino_board_undo(board: &mut Board) -> i32
    ensures { (result ≡ answer_number (undo_of board.old).answer) × (board.new ≡ (undo_of board.old).board) }
{
    host::evolmino_board_undo(board)
}

#[unsafe(no_mangle)]
pub extern "C" fn evolmino_board_find(board: &mut Board, player: u8, literals: &mut [u16]) -> i32
    ensures { (result ≡ finding_number (find_of board.old player literals.old))
        × (board.new ≡ after_find board.old player (length literals.old))
        × (literals.new ≡ buffer_after board.old player literals.old) }
{
    host::evolmino_board_find(board, player, literals)
}

#[unsafe(no_mangle)]
pub extern "C" fn evolmino_board_finished(board: &Board) -> i32
    ensures { result ≡ verdict_number (finished_of board.now) }
{
    host::evolmino_board_finished(board)
}

#[unsafe(no_mangle)]
pub extern "C" fn evolmino_board_certain(board: &Board, budget: u64, output: &mut [u8]) -> i32
    ensures { (result ≡ said_number (board_certain board.now budget (length output.old)))
        × (output.new ≡ output_with (said_bytes (board_certain board.now budget (length output.old))) output.old) }
{
    host::evolmino_board_certain(board, budget, output)
}

#[unsafe(no_mangle)]
pub extern "C" fn evolmino_board_hints(board: &Board, player: u8) -> i32
    ensures { result ≡ count_number (hints_of board.now player) }
{
    host::evolmino_board_hints(board, player)
}
