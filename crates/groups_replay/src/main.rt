// Replays a list of boards from standard input: the groups, kinds, reaches and fences that are computed are compared with those
// that the list says.
//
// A list has a head of lines that begin with `#`, an empty line, and two u16, how often the labels and how often the kinds of each board
// are computed before they are compared, neither of them 0: two runs that differ in one of them tell its time. Then come entries to its end: u16
// length, that many bytes of record, u16 number of decisions, and the decisions, u16 each. Then for each cell a u16 name of its potential
// group, and for each cell, as a name, the u16 counts of that group's squares and then of its arrow cells; the same of the blocks; for each cell a
// u8 kind; for each cell a u16 name of its owner. Then the u16 number of arrow blocks, and for each by rising name: u16 name, u16 size of its reach,
// for each cell a u8 mark of its reach, u16 number of literals of its fence, and the literals, u16 each. A u16 has its high byte first; where there is
// no group, the name is 1024, and the counts are 0.
#![tactic(auto)]

mod blocks;
mod rounds;

ghost use Rattle.std.specs.Prelude.{◌≡◌, true, ◌+◌, ◌*◌, ◌≤◌, ◌<◌, ℕ, List, length, take, MatchOption};
ghost use Rattle.grid.specs.Side.{sized};
ghost use Rattle.record.specs.Problem.{puzzle_of};
ghost use Rattle.groups.specs.Arrows.{on_arrow};
ghost use Rattle.groups.specs.Arrays.{Names, mask_of};
ghost use Rattle.kinds.specs.Inside.{puzzle_with, Given};
ghost use Rattle.kinds.specs.Board.{cell_count};
ghost use Rattle.board.specs.Form.{well_formed};
ghost use Rattle.board.specs.Kept.{cells_on};
ghost use Rattle.board.specs.Decide.{area};
ghost use Rattle.replay.specs.Comparisons.{DiffersUnless};
ghost use Rattle.groups_replay.specs.Blocks.{KindsSo, GroupsSo, PotentialSo, arrowed_names};
ghost use Rattle.groups_replay.specs.Entries.{KindsRun, ArrowsRun, BoardRun, board_end, RecordRun, EntrySo};

use board::Board;
use groups::{Groups, Members};
use kinds::{BoardInfo, VACANT};
use replay::{Cursor, Entries, Run};
use rounds::{Marked, Rounds};
use std::io;

// Whether groups differ from those that the list has at the cursor, with a name for each of n cells and the two counts of each name.
// No `==`, here and below: what was computed is held against bytes of the list.
fn groups_differ(names: Cursor<'_>, n: usize, groups: &Groups) -> bool
    requires place { names.at + 6 * n ≤ length names.list.now }
    requires cells { n ≤ 1024 }
    ensures { DiffersUnless result (GroupsSo names.entry.list.now names.entry.at n groups.now.labels (take n groups.now.squares) (take n groups.now.arrowed)) }
{
    let squares = names.on(2 * n);
    let arrowed = names.on(4 * n);
    names.names_differ(n, &groups.labels)
        || squares.numbers_differ(n, &groups.squares[..n], 0)
        || arrowed.numbers_differ(n, &groups.arrowed[..n], 0)
}

// Whether the kinds or the owners differ from those that the list has at the cursor.
fn kinds_differ(kinds: Cursor<'_>, info: &BoardInfo<'_>) -> bool
    requires place { kinds.at + 3 * cell_count info.now ≤ length kinds.list.now }
    ensures { DiffersUnless result (KindsSo kinds.entry.list.now kinds.entry.at (cell_count info.now) info.now.kinds.now info.now.owners.now) }
{
    let n = info.grid.size();
    let owners = kinds.on(n);
    kinds.cells_differ(n, info.kinds, 0) || owners.names_differ(n, info.owners)
}

impl Rounds {
    // Whether the potential groups differ from those that the list has at the cursor. A list that says no rounds differs: nothing would be computed.
    fn potential_groups_differ(self, cursor: Cursor<'_>, board: &Marked<'_>) -> bool
        requires place { cursor.at + 6 * (board.now.grid.height * board.now.grid.width) ≤ length cursor.list.now }
        ensures { let g = sized board.now.grid.height board.now.grid.width in let n = board.now.grid.height * board.now.grid.width in
            (arrows : List (List ℕ)) → board.now.onarrow.now ≡ mask_of g (on_arrow arrows)
            → DiffersUnless result (PotentialSo self.labels self.kinds g (take n board.now.cells.now) (on_arrow arrows) cursor.entry.list.now cursor.entry.at n) }
    {
        if self.labels == 0 || self.kinds == 0 {
            return true;
        }
        let groups = self.label(board, Members::Potential);
        groups_differ(cursor, board.grid.size(), &groups)
    }

    // Computes kinds and owners, and compares them and the arrow blocks with those that the list has at the cursor.
    fn run_kinds(self, cursor: Cursor<'_>, board: &Marked<'_>, blocks: &Groups) -> Run
        requires place { cursor.at + 3 * (board.now.grid.height * board.now.grid.width) + 2 ≤ length cursor.list.now }
        requires names { Names blocks.now.firsts blocks.now.count }
        ensures { let n = board.now.grid.height * board.now.grid.width in
            (arrows : List (List ℕ)) → 0 < self.kinds → let p = puzzle_with (sized board.now.grid.height board.now.grid.width) arrows in
            Given p (take n board.now.cells.now) blocks.now.labels blocks.now.arrowed
            → KindsRun p (take n board.now.cells.now) n (arrowed_names blocks.now) cursor.entry.list.now cursor.entry.at result }
    {
        let mut kinds = [VACANT; 1024];
        // 0 and no `NO_GROUP`: what a list that says no rounds is compared with; a round sets each place anew.
        let mut owners = [0; 1024];
        self.compute_kinds(board, blocks, &mut kinds, &mut owners);
        let info = BoardInfo {
            grid: board.grid,
            cells: board.cells,
            kinds: &kinds,
            owners: &owners,
        };
        let differs = kinds_differ(cursor, &info);
        let behind = cursor.on(3 * info.grid.size());
        blocks::run_blocks(behind, &info, blocks).also(differs)
    }

    // Computes the blocks, and compares them, the kinds and the arrow blocks with those that the list has at the cursor.
    fn run_arrows(self, cursor: Cursor<'_>, board: &Marked<'_>) -> Run
        requires place { cursor.at + 9 * (board.now.grid.height * board.now.grid.width) + 2 ≤ length cursor.list.now }
        ensures { let g = sized board.now.grid.height board.now.grid.width in let n = board.now.grid.height * board.now.grid.width in
            (arrows : List (List ℕ)) → board.now.onarrow.now ≡ mask_of g (on_arrow arrows) → 0 < self.labels → 0 < self.kinds
            → ArrowsRun (puzzle_with g arrows) (take n board.now.cells.now) n cursor.entry.list.now cursor.entry.at result }
    {
        let n = board.grid.size();
        let blocks = self.label(board, Members::Squares);
        let differs = groups_differ(cursor, n, &blocks);
        let behind = cursor.on(6 * n);
        self.run_kinds(behind, board, &blocks).also(differs)
    }

    // Computes the groups and kinds of a board, and compares them with those that the list has at the cursor; none where the list ends before them.
    fn run_board(self, cursor: Cursor<'_>, board: &Board) -> Option<Run>
        ensures { let list = cursor.entry.list.now in let at = cursor.entry.at in let n = area board.now in
            MatchOption result (well_formed board.now ≡ true → length list < board_end n at)
            (λ run. (board_end n at ≤ length list) × BoardRun self (puzzle_of board.now.problem) (cells_on board.now) n list at run) }
    {
        let leaf = board.leaf().ok()?;
        let grid = leaf.grid();
        let n = grid.size();
        if cursor.list.len() < cursor.at + 15 * n + 2 {
            return None;
        }
        let onarrow = groups::mark_arrow_cells(&leaf.problem.arrows[..leaf.problem.arrow_total()]);
        let marked = Marked {
            grid,
            cells: &board.cells,
            onarrow: &onarrow,
        };
        let differs = self.potential_groups_differ(cursor, &marked);
        let behind = cursor.on(6 * n);
        let found = self.run_arrows(behind, &marked);
        Some(found.also(differs))
    }

    // Opens the record, adds the decisions and compares the board with what the list has at the cursor.
    fn run_record(self, cursor: Cursor<'_>, record: &[u8], decisions: &[u8]) -> Option<Run>
        ensures { RecordRun self «record».now decisions.now cursor.entry.list.now cursor.entry.at result }
    {
        let board = Board::open(record, 1, &[])
            .ok()?
            .decide_all(decisions)
            .ok()?;
        self.run_board(cursor, &board)
    }
}

impl Entries for Rounds {
    ghost counts = { EntrySo };

    ghost BEFORE = { 4 };

    const BEFORE: usize = 4;

    fn of(data: &[u8]) -> Rounds {
        Rounds {
            labels: replay::number_at(data, 0),
            kinds: replay::number_at(data, 2),
        }
    }

    fn run(&self, mut cursor: Cursor<'_>) -> Option<Run> {
        let bytes = cursor.counted()?;
        let count = cursor.number()?;
        let decisions = cursor.take(2 * count)?;
        self.run_record(cursor, bytes, decisions)
    }
}

// One line in each program that replays a list: `replay::replay` does the rest, and the entries and their words are the program's own.
fn main(rt: HostRuntime) -> io::Result<()> {
    replay::replay::<Rounds, _, _>(
        rt.reader(),
        &mut io::writer(&rt),
        " boards, ",
        Some(" arrow blocks, "),
    )
}
