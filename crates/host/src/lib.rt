// The calls for Rust and C, each thin over the crate that has it. `host_c` exports them. Each exported name has its function here, also where two
// differ in an edition and sizes alone: C has both names.
#![tactic(auto)]

ghost use Rattle.std.specs.Prelude.{◌≡◌, length};
ghost use Rattle.exported.specs.Written.{written, output_with};
ghost use Rattle.clauses.specs.Clauses.{sheet_for};
ghost use Rattle.turn.specs.Turn.{turn_record};
ghost use Rattle.join.specs.Join.{join_record};
ghost use Rattle.file.specs.Call.{player_given, setter_given, given_length, given_bytes};
ghost use Rattle.calls.specs.Found.{host_finds, host_finds_with, returned, output_after};
ghost use Rattle.calls.specs.Judged.{host_finished, host_finished_with, judged};
ghost use Rattle.calls.specs.Shaded.{host_shades};
ghost use Rattle.unique.specs.Unique.{host_unique, unique_returned};
ghost use Rattle.calls.specs.Told.{host_certain, host_certain_with, said_number, said_bytes};
ghost use Rattle.board.specs.Answers.{after_open};
ghost use Rattle.board.specs.Kept.{open_of};
ghost use Rattle.board.specs.Decide.{decide_of, undo_of};
ghost use Rattle.board.specs.Hints.{after_find};
ghost use Rattle.reasons.specs.Find.{find_of, buffer_after};
ghost use Rattle.finished.specs.Verdicts.{finished_of};
ghost use Rattle.host_board.specs.Lent.{answer_number, finding_number, verdict_number, board_certain, hints_of, count_number};

use board::Board;

// Opens the record in edition 1, decides in order and finds. The literals stand in the output's first bytes, two each, most significant first.
// Returns how many there are, 0 for none, or the negated number of a refusal, which leaves the output as it was.
pub fn evolmino_find(record: &[u8], decisions: &[u8], output: &mut [u8]) -> i32
    ensures { (result ≡ returned (host_finds «record».now decisions.now (length output.old)))
        × (output.new ≡ output_after (host_finds «record».now decisions.now (length output.old)) output.old) }
{
    calls::first_reason::find(record, decisions, output)
}

// The same in an edition with sizes: 16-bit numbers, cell, lowest and highest for each, cells rising, two bytes a number, most significant first.
pub fn evolmino_find_with(
    record: &[u8],
    edition: u32,
    sizes: &[u8],
    decisions: &[u8],
    output: &mut [u8],
) -> i32
    ensures { (result ≡ returned (host_finds_with «record».now edition sizes.now decisions.now (length output.old)))
        × (output.new ≡ output_after (host_finds_with «record».now edition sizes.now decisions.now (length output.old)) output.old) }
{
    calls::first_reason::find_with(record, edition, sizes, decisions, output)
}

// Opens the record in edition 1, decides in order and tells whether the leaf is finished: 1 for yes, 0 for no, or the negated number of a refusal.
pub fn evolmino_finished(record: &[u8], decisions: &[u8]) -> i32
    ensures { result ≡ judged (host_finished «record».now decisions.now) }
{
    calls::is_finished::finished(record, decisions)
}

// The same in an edition with sizes, which are as in `evolmino_find_with`.
pub fn evolmino_finished_with(record: &[u8], edition: u32, sizes: &[u8], decisions: &[u8]) -> i32
    ensures { result ≡ judged (host_finished_with «record».now edition sizes.now decisions.now) }
{
    calls::is_finished::finished_with(record, edition, sizes, decisions)
}

// Writes the clause sheet of a record to the front of the output, and returns the number of bytes, or the negated number of a refusal, which
// leaves the output as it was.
pub fn evolmino_clauses(record: &[u8], output: &mut [u8]) -> i32
    ensures { (result ≡ written (sheet_for (length output.old) «record».now))
        × (output.new ≡ output_with (sheet_for (length output.old) «record».now) output.old) }
{
    clauses::write_clauses(record, output)
}

// Opens the record in edition 1, decides in order and writes for each cell of the grid in row order the first cell of its block and the block's count
// of squares, two bytes each, most significant first; 0 and 0 for a cell that is not square. Returns how many bytes are written, or the
// negated number of a refusal, which leaves the output as it was.
pub fn evolmino_shades(record: &[u8], decisions: &[u8], output: &mut [u8]) -> i32
    ensures { (result ≡ written (host_shades «record».now decisions.now (length output.old)))
        × (output.new ≡ output_with (host_shades «record».now decisions.now (length output.old)) output.old) }
{
    calls::board_shades::shades(record, decisions, output)
}

// Opens the record in edition 1, decides in order and tells which cells are certain, by a search of at most `budget` steps. Returns 0 where the
// cells are told, 1 where no finished board agrees with the decisions, 2 where the budget is spent, or the negated number of a refusal,
// which leaves the output as it was. The output's first eight bytes are the number of steps, most significant first; where the cells are
// told one byte for each follows, in row order: 0 empty, 1 square, 2 open.
pub fn evolmino_certain(record: &[u8], decisions: &[u8], budget: u64, output: &mut [u8]) -> i32
    ensures { (result ≡ said_number (host_certain «record».now decisions.now budget (length output.old)))
        × (output.new ≡ output_with (said_bytes (host_certain «record».now decisions.now budget (length output.old))) output.old) }
{
    calls::certain_cells::certain(record, decisions, budget, output)
}

// The same in an edition with sizes, which are as in `evolmino_find_with`.
pub fn evolmino_certain_with(
    record: &[u8],
    edition: u32,
    sizes: &[u8],
    decisions: &[u8],
    budget: u64,
    output: &mut [u8],
) -> i32
    ensures { (result ≡ said_number (host_certain_with «record».now edition sizes.now decisions.now budget (length output.old)))
        × (output.new ≡ output_with (said_bytes (host_certain_with «record».now edition sizes.now decisions.now budget (length output.old))) output.old) }
{
    calls::certain_cells::certain_with(record, edition, sizes, decisions, budget, output)
}

// Opens the record in an edition with sizes, which are as in `evolmino_find_with`, and checks a certificate that the leaf has one solution only. Returns 1
// where it is accepted: the claimed solution, which the certificate starts with, is finished then, and every finished board is it. Or the negated number of
// a refusal.
pub fn evolmino_unique(record: &[u8], edition: u32, sizes: &[u8], certificate: &[u8]) -> i32
    ensures { result ≡ unique_returned (host_unique «record».now edition sizes.now certificate.now) }
{
    unique::unique(record, edition, sizes, certificate)
}

// Turns the record by k: flipped left and right first if k is 4 or more, then k modulo 4 quarter turns clockwise. The turned record stands in the
// output's first bytes. Returns how many they are, or the negated number of a refusal, which leaves the output as it was.
pub fn evolmino_turn(record: &[u8], k: u32, output: &mut [u8]) -> i32
    ensures { (result ≡ written (turn_record k (length output.old) «record».now))
        × (output.new ≡ output_with (turn_record k (length output.old) «record».now) output.old) }
{
    turn::turn(record, k, output)
}

// Joins two records of equal height: the left grid, a column of black cells, the right grid, the left's arrows and then the right's. The joined record
// stands in the output's first bytes. Returns how many they are, or the negated number of a refusal, which leaves the output as it was.
pub fn evolmino_join(left: &[u8], right: &[u8], output: &mut [u8]) -> i32
    ensures { (result ≡ written (join_record (length output.old) left.now right.now))
        × (output.new ≡ output_with (join_record (length output.old) left.now right.now) output.old) }
{
    join::join(left, right, output)
}

// Reads a setter's file in an edition: a record, and from the next byte a grade and a solution. The output's first byte is the grade, and one byte a cell
// follows, in row order: 1 square, 0 empty. Returns the record's length in bytes, or the negated number of a refusal, which leaves the output as it was.
pub fn evolmino_setter_file(file: &[u8], edition: u32, output: &mut [u8]) -> i32
    ensures { (result ≡ given_length (setter_given (length output.old) edition file.now))
        × (output.new ≡ output_with (given_bytes (setter_given (length output.old) edition file.now)) output.old) }
{
    file::setter_file(file, edition, output)
}

// Reads a player's file, which is the setter's: the output's first byte is the grade, and no bit of the solution is looked at. Returns the record's length
// in bytes, or the negated number of a refusal, which leaves the output as it was.
pub fn evolmino_player_file(file: &[u8], output: &mut [u8]) -> i32
    ensures { (result ≡ given_length (player_given (length output.old) file.now))
        × (output.new ≡ output_with (given_bytes (player_given (length output.old) file.now)) output.old) }
{
    file::player_file(file, output)
}

// ---- on a board that the caller keeps and lends

// Opens a record in an edition with sizes, cell, lowest and highest for each, cells rising, into the board's memory. Returns 0, or the negated number of
// a refusal, which leaves the memory as it was: 1 to 5 for the record, 16 for another edition than 1 and 2, 22 for sizes that may not stand.
pub fn evolmino_board_open(record: &[u8], edition: u32, sizes: &[u16], board: &mut Board) -> i32
    ensures { (result ≡ answer_number (open_of «record».now edition sizes.now).answer)
        × (board.new ≡ after_open board.old (open_of «record».now edition sizes.now)) }
{
    host_board::answer_number(host_board::open_in(board, record, edition, sizes))
}

// Adds a decision. Returns 0, or the negated number of a refusal, which leaves the board as it was: 6 a board that no list of calls could leave, 7 an index
// off the grid, 8 a value above 1, 9 a cell that is decided already.
pub fn evolmino_board_decide(board: &mut Board, index: usize, value: u8) -> i32
    ensures { (result ≡ answer_number (decide_of board.old index value).answer) × (board.new ≡ (decide_of board.old index value).board) }
{
    host_board::answer_number(lent::decide_in(board, index, value))
}

// Removes the latest decision. Returns 0, or the negated number of a refusal, which leaves the board as it was: 6, 10 where there is no decision.
pub fn evolmino_board_undo(board: &mut Board) -> i32
    ensures { (result ≡ answer_number (undo_of board.old).answer) × (board.new ≡ (undo_of board.old).board) }
{
    host_board::answer_number(lent::undo_in(board))
}

// Finds a reason, for a player from 0 to 3 whose count of hints rises. The literals stand in the buffer's first places, value × 32,768 + index each. Returns
// how many there are, 0 for none, or the negated number of a refusal, which leaves the board and the buffer as they were: 6, 17 a player above 3, 11 a
// buffer of less than 3 × H × W + 1 numbers.
pub fn evolmino_board_find(board: &mut Board, player: u8, literals: &mut [u16]) -> i32
    ensures { (result ≡ finding_number (find_of board.old player literals.old))
        × (board.new ≡ after_find board.old player (length literals.old))
        × (literals.new ≡ buffer_after board.old player literals.old) }
{
    host_board::finding_number(lent::find_in(board, player, literals))
}

// Tells whether the board is finished: 1 for yes, 0 for no, or the negated number of a refusal, 6.
pub fn evolmino_board_finished(board: &Board) -> i32
    ensures { result ≡ verdict_number (finished_of board.now) }
{
    host_board::finished_number(board)
}

// Tells which cells are certain, as `evolmino_certain` does: 6 a board that no list of calls could leave, then 11 an output of less than 8 + H × W bytes.
pub fn evolmino_board_certain(board: &Board, budget: u64, output: &mut [u8]) -> i32
    ensures { (result ≡ said_number (board_certain board.now budget (length output.old)))
        × (output.new ≡ output_with (said_bytes (board_certain board.now budget (length output.old))) output.old) }
{
    host_board::certain_number(board, budget, output)
}

// Tells how many hints a player has taken, or the negated number of a refusal: 6, 17 a player above 3.
pub fn evolmino_board_hints(board: &Board, player: u8) -> i32
    ensures { result ≡ count_number (hints_of board.now player) }
{
    host_board::hints_number(board, player)
}
