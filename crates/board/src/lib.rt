// A board: a problem in an edition, with sizes beside some arrow cells, its decided cells and a count of hints for each of four players. It is
// opened from a record; decide adds a decision, undo removes the latest.
#![tactic(auto)]

pub mod decisions;

ghost use Rattle.std.specs.Prelude.{◌≡◌, true, false, ℕ, ◌≤◌, ◌<◌, get_or, IfOk, IfErr};
ghost use Rattle.grid.specs.Grid.{size};
ghost use Rattle.record.specs.Problem.{grid_of};
ghost use Rattle.refusal.specs.Refusals.{outcome_of};
ghost use Rattle.board.specs.Answers.{opened_as, decided_as, done_as, after_open};
ghost use Rattle.board.specs.Kept.{open_of, blank_board, leaf_on};
ghost use Rattle.sizes.specs.LeafOf.{leaf_of};
ghost use Rattle.refusal.specs.declared.Refusal.TheVariants as refusals;
ghost use Rattle.board.specs.Form.{well_formed};
ghost use Rattle.board.specs.Decide.{with_decisions, decide_of, undo_of, decide_all_of, placed_from};
ghost use Rattle.board.specs.Hints.{raised};
ghost use Rattle.board.specs.Inside.{Placing, Stands, Held, lent_sizes};

use grid::UNDECIDED;
use record::Problem;
use refusal::Refusal;
use sizes::{CellSizes, Edition, LentLeaf, SizeRanges, Words};

// A problem with its decisions. `edition` is 1, or 2 for free growth; `cells` has the state of each cell (0 empty, 1 square, 2 undecided), with 2 behind the grid;
// `order` has the decided cells in the order decided, `decided` of them, with 0 behind; `hints` counts for each player, 0 to 3, that
// player's accepted finds since open, up to 65,535; `lowest` and `highest` have the ends of the range beside each cell, with 0 at a cell that has none.
// C lends it by these fields, so that the edition is a number, and the order an array with its count.
#[repr(C)]
#[derive(Clone, Copy, Debug, PartialEq, Eq)]
pub struct Board {
    pub problem: Problem,
    pub edition: u8,
    pub cells: [u8; 1024],
    pub order: [u16; 1024],
    pub decided: usize,
    pub hints: [u16; 4],
    pub lowest: [u16; 1024],
    pub highest: [u16; 1024],
}

// ---- lists of decisions

// Adds the decision in a word: value (1 bit), five zero bits, index (10). Refused: 12 a bit that is not zero, 7 an index off the grid of n cells, 9 a cell
// that is decided already. By numbers, and no `literals::Literal`: its index has fifteen bits, and here five zero bits are asked for before there is one.
#[tactic(auto, using(crate::specs::Inside::bits, crate::specs::Inside::off, crate::specs::Inside::twice, crate::specs::Inside::put))]
fn place(
    cells: &mut [u8; Board::CELLS],
    order: &mut [u16; Board::CELLS],
    n: usize,
    count: usize,
    word: u16,
) -> Result<(), Refusal>
    requires { (n ≤ 1024) × ((i : ℕ) → i < n → get_or cells.old i 0 ≡ 2 → count < 1024) }
    ensures { Placing n count word cells.old order.old result cells.new order.new }
{
    if word % 32768 / 1024 != 0 {
        return Err(Refusal::Decision);
    }
    let index = usize::from(word % 1024);
    if n <= index {
        return Err(Refusal::Index);
    }
    if cells[index] != UNDECIDED {
        return Err(Refusal::Decided);
    }
    cells[index] = (word / 32768) as u8;
    order[count] = word % 1024;
    Ok(())
}

// Adds the decisions in the bytes, two bytes each, to a board of n cells that is known to be well formed, up to the first that is refused; `decided` tells how
// many then stand. It is for `decide_all`, which has tested its board, and for `calls::decide_in_order`, which has the arrays of a fresh one. They come apart,
// here and in `place`: of each of the three references in a struct it would have to be promised that it stays the one that was lent. The bytes go two by two
// from the front, as `placed_from` takes them; `as_chunks` would be a second list in what the loop keeps.
pub fn place_all(
    cells: &mut [u8; Board::CELLS],
    order: &mut [u16; Board::CELLS],
    n: usize,
    decided: &mut usize,
    bytes: &[u8],
) -> Result<(), Refusal>
    requires given { Held n decided.old cells.old order.old }
    ensures { (b : Board) → size (grid_of b.problem) ≡ n → well_formed (with_decisions b cells.old order.old decided.old) ≡ true
        → Stands b cells.new order.new decided.new (placed_from (with_decisions b cells.old order.old decided.old) bytes.now) result }
{
    let mut left = bytes;
    while let [high, low, after @ ..] = left {
        place(cells, order, n, *decided, u16::from_be_bytes([*high, *low]))?;
        *decided += 1;
        left = after;
    }
    if !left.is_empty() {
        return Err(Refusal::Decision);
    }
    Ok(())
}

// How many of n cells are lent with their sizes: none on a leaf without sizes, which then pays for none.
fn lent_sizes(lowest: &[u16; 1024], n: usize) -> usize
    ensures { (result ≡ lent_sizes lowest.now n) × (result ≤ n) }
{
    if form::zeros(lowest, 0) {
        return 0;
    }
    n
}

// A count of hints after one more; at 65,535 it stops rising.
#[tactic(auto, unfolding(crate::specs::Hints::raised))]
pub fn raised(count: u16) -> u16
    ensures { result ≡ raised count }
{
    count.saturating_add(1)
}

impl Board {
    // The most cells that a grid has.
    pub const CELLS: usize = 32 * 32;
    // The players that share a board.
    pub const PLAYERS: usize = 4;
    // The most literals that a reason has.
    pub const LITERALS: usize = 3 * Board::CELLS + 1;

    // Makes a board that is lent the fresh one of a record in an edition with sizes: cell, lowest and highest for each, cells rising. Refused, which leaves
    // the board as it was: the record's first fault, 1 to 5, then 16 an edition that is not 1 or 2, then 22 sizes that may not stand.
    // It writes in place, as `decide_in`, and nothing before all three are read.
    pub fn open_in(&mut self, bytes: &[u8], edition: u8, sizes: &[u16]) -> Result<(), Refusal>
        ensures { (outcome_of result ≡ done_as (open_of bytes.now edition sizes.now).answer)
            × (self.new ≡ after_open self.old (open_of bytes.now edition sizes.now)) }
    {
        let problem = Problem::read(bytes)?;
        let edition = Edition::try_from(edition)?;
        let CellSizes { lowest, highest } = CellSizes::read(&problem, &Words(sizes))?;
        self.problem = problem;
        self.edition = edition.number();
        self.cells = [UNDECIDED; Board::CELLS];
        self.order = [0; Board::CELLS];
        self.decided = 0;
        self.hints = [0; Board::PLAYERS];
        self.lowest = lowest;
        self.highest = highest;
        Ok(())
    }

    // The same as a board by value.
    pub fn open(bytes: &[u8], edition: u8, sizes: &[u16]) -> Result<Board, Refusal>
        ensures { outcome_of result ≡ opened_as (open_of bytes.now edition sizes.now) }
    {
        let mut board = Board::blank();
        board.open_in(bytes, edition, sizes)?;
        Ok(board)
    }

    // The board of no cells, to be written over.
    #[tactic(auto, unfolding(crate::specs::Kept::blank_board, record::specs::Problem::blank, grid::specs::Lists::array_of))]
    fn blank() -> Board
        ensures { result ≡ blank_board }
    {
        Board {
            problem: Problem {
                height: 0,
                width: 0,
                cells: [0; Board::CELLS],
                arrows: [0; Board::CELLS],
                ends: [0; Board::CELLS],
                count: 0,
            },
            edition: 1,
            cells: [UNDECIDED; Board::CELLS],
            order: [0; Board::CELLS],
            decided: 0,
            hints: [0; Board::PLAYERS],
            lowest: [0; Board::CELLS],
            highest: [0; Board::CELLS],
        }
    }

    // Whether some list of calls on the board of some record leaves this board. The counts of hints are not asked for: any will do.
    #[tactic(auto, using(crate::proofs::Verdicts::board_problem))]
    pub fn is_formed(&self) -> bool
        ensures { result ≡ well_formed self.now }
    {
        let problem = &self.problem;
        if !form::is_formed(problem) {
            return false;
        }
        if Edition::try_from(self.edition).is_err() {
            return false;
        }
        if !sizes::may_stand(problem, &self.lowest, &self.highest) {
            return false;
        }
        // Not `problem.size()`: that is one call more that is lent the problem, and behind it it is no longer known that the counts of hints are of 16 bits.
        let n = problem.height * problem.width;
        decisions::good_decisions(n, self.decided, &self.cells, &self.order)
    }

    // The same of a board by value, under the name that refusal 6 has in the definitions.
    pub fn well_formed(self) -> bool
        ensures { result ≡ well_formed self }
    {
        self.is_formed()
    }

    // The leaf that the board is played on, lent with its sizes: what the search for a reason reads, but the states of the cells. A leaf without sizes lends
    // none. Refused: 6 a board that no list of calls could leave.
    #[tactic(auto, using(crate::proofs::BoardForm::formed_tall, crate::proofs::BoardForm::formed_wide))]
    pub fn leaf(&self) -> Result<LentLeaf<'_>, Refusal>
        ensures lent { IfOk result (λ leaf. (well_formed self.now ≡ true) × (leaf_of leaf ≡ leaf_on self.now) × (leaf.problem.now ≡ self.now.problem)) }
        ensures refused { IfErr result (λ r. (well_formed self.now ≡ false) × (r ≡ refusals.Board)) }
    {
        if !self.is_formed() {
            return Err(Refusal::Board);
        }
        let n = lent_sizes(&self.lowest, self.problem.size());
        Ok(LentLeaf {
            problem: &self.problem,
            edition: self.edition,
            sizes: SizeRanges {
                lowest: &self.lowest[..n],
                highest: &self.highest[..n],
            },
        })
    }

    // Adds a standing decision to a board that is lent. Refused, which leaves the board as it was: 6 a board that no list of calls could leave, 7 an index off
    // the grid, 8 a value above 1, 9 a cell that is decided already.
    // It writes in place: a board by value is copied whole, and 55,308 instructions are made in place of 5,873.
    #[tactic(auto, using(crate::proofs::Fold::deciding), unfolding(crate::specs::Decide::area, crate::specs::Decide::placed, grid::specs::Grid::size, record::specs::Problem::grid_of))]
    pub fn decide_in(&mut self, index: usize, value: u8) -> Result<(), Refusal>
        ensures { (outcome_of result ≡ done_as (decide_of self.old index value).answer) × (self.new ≡ (decide_of self.old index value).board) }
    {
        if !self.is_formed() {
            return Err(Refusal::Board);
        }
        if self.problem.size() <= index {
            return Err(Refusal::Index);
        }
        if 1 < value {
            return Err(Refusal::Value);
        }
        if self.cells[index] != UNDECIDED {
            return Err(Refusal::Decided);
        }
        self.cells[index] = value;
        self.order[self.decided] = index as u16;
        self.decided += 1;
        Ok(())
    }

    // The same of a board by value.
    pub fn decide(self, index: usize, value: u8) -> Result<Board, Refusal>
        ensures { outcome_of result ≡ decided_as (decide_of self index value) }
    {
        let mut next = self;
        next.decide_in(index, value)?;
        Ok(next)
    }

    // Removes the latest decision of a board that is lent, and leaves nothing of it. Refused, which leaves the board as it was: 6 a board that no list of calls
    // could leave, 10 no decision. It writes in place, as `decide_in`.
    #[tactic(auto, using(crate::proofs::Fold::undoing), unfolding(crate::specs::Decide::removed))]
    pub fn undo_in(&mut self) -> Result<(), Refusal>
        ensures { (outcome_of result ≡ done_as (undo_of self.old).answer) × (self.new ≡ (undo_of self.old).board) }
    {
        if !self.is_formed() {
            return Err(Refusal::Board);
        }
        if self.decided == 0 {
            return Err(Refusal::NothingDecided);
        }
        let last = self.decided - 1;
        self.cells[usize::from(self.order[last])] = UNDECIDED;
        self.order[last] = 0;
        self.decided = last;
        Ok(())
    }

    // The same of a board by value.
    pub fn undo(self) -> Result<Board, Refusal>
        ensures { outcome_of result ≡ decided_as (undo_of self) }
    {
        let mut next = self;
        next.undo_in()?;
        Ok(next)
    }

    // Adds the decisions in a list of bytes, 16 bits each, most significant first, on a board that is tested once. Refused: 6; for
    // each decision in turn 12, 7, 9; an odd byte at the end 12. Nothing of the decisions before a refused one stands.
    #[tactic(auto, using(crate::proofs::Fold::all_6, crate::proofs::Fold::formed_held, crate::proofs::BoardForm::formed_tall, crate::proofs::BoardForm::formed_wide), unfolding(grid::specs::Grid::size, record::specs::Problem::grid_of))]
    pub fn decide_all(self, decisions: &[u8]) -> Result<Board, Refusal>
        ensures { outcome_of result ≡ decided_as (decide_all_of self decisions.now) }
    {
        if !self.is_formed() {
            return Err(Refusal::Board);
        }
        let n = self.problem.size();
        let mut next = self;
        place_all(
            &mut next.cells,
            &mut next.order,
            n,
            &mut next.decided,
            decisions,
        )?;
        Ok(next)
    }
}
