// Groups: blocks, potential groups and arrow cells of a grid of at most 32 by 32 cells. A group is
// named by its first cell in row order; cells are 0 empty, 1 square, 2 undecided.
#![tactic(auto)]

ghost use Rattle.std.specs.Prelude.{◌≡◌, ℕ, ◌+◌, ◌*◌, ◌≤◌, ◌<◌, Bool, cond, eqb, length, get_or, set, take, replicate};
ghost use Rattle.std.specs.List.{All};
ghost use Rattle.grid.specs.Lists.{member};
ghost use Rattle.grid.specs.Marks.{Marks};
ghost use Rattle.grid.specs.Side.{InGrid, sized};
ghost use Rattle.grid.specs.Cells.{square};
ghost use Rattle.groups.specs.Arrays.{no_group, counts, marked, GroupTable};
ghost use Rattle.groups.specs.Table.{Unused, labelled};
ghost use Rattle.groups.specs.Flood.{unlabelled, free, Only, Walked, Offerable, Marked, Offered, Spread, Ready};

use grid::{EMPTY, Grid, SQUARE};

// Stands for the name of a group where there is none: the label of a cell that is in no group. A number, and no `Option`: it has the place of one number,
// definitions have it, and `grid::pick` chooses it without a branch. A name has no type of its own: arrays hold names and this number side by side.
pub const NO_GROUP: u16 = 1024;

// Stands for the label of a cell that is in a group and has no label yet. A number, as `NO_GROUP`.
pub const UNLABELLED: u16 = 1025;

// Which cells are to be in groups.
#[derive(Clone, Copy, Debug, PartialEq, Eq)]
pub enum Members {
    // Those that aren't empty: the groups are the potential groups.
    Potential,
    // The squares: the groups are the blocks.
    Squares,
}

// Whether cell i is to be in a group.
#[tactic(auto, unfolding(crate::specs::Arrays::counts, grid::specs::Cells::potential, grid::specs::Cells::empty, grid::specs::Cells::square))]
fn is_check_cell(cells: &[u8; 1024], members: Members, i: usize) -> bool
    requires { i < 1024 }
    ensures { result ≡ counts members cells.now i }
{
    match members {
        Members::Potential => cells[i] != EMPTY,
        Members::Squares => cells[i] == SQUARE,
    }
}

// What stands in the place of the label of cell i before the first flood.
fn first_label(cells: &[u8; 1024], members: Members, i: usize) -> u16
    requires { i < 1024 }
    ensures { result ≡ cond (counts members cells.now i) unlabelled no_group }
{
    if is_check_cell(cells, members, i) {
        UNLABELLED
    } else {
        NO_GROUP
    }
}

// Labels cell q and puts it on the stack if it is to be in a group and has no label yet. It is labelled
// when it is put there, so that no cell stands on the stack twice. It is written behind the stack in any case,
// and only counted if it is new: to push it where it is new takes 17.9 against 15.8 us on 32 by 32 cells. So the stack is an array with a count beside it.
fn offer(labels: &mut [u16; 1024], stack: &mut [u16; 1025], count: usize, q: usize, s: u16) -> usize
    requires { Offerable q s labels.old count }
    ensures { Offered q s labels.old stack.old count labels.new stack.new result }
{
    let label = labels[q];
    let new = label == UNLABELLED;
    stack[count] = q as u16;
    labels[q] = grid::pick(new, s, label);
    count + usize::from(new)
}

// Takes a cell from the stack and offers its four neighbours in turn.
fn spread(
    labels: &mut [u16; 1024],
    stack: &mut [u16; 1025],
    count: usize,
    grid: Grid,
    s: u16,
) -> usize
    requires { Ready (grid.height * grid.width) s labels.old stack.old count }
    ensures { (p : ℕ → Bool) → Spread (sized grid.height grid.width) p s labels.old stack.old count labels.new stack.new result }
{
    let mut waiting = count - 1;
    let i = usize::from(stack[waiting]);
    for k in 0..4 {
        if let Some(q) = grid.toward(i, k) {
            waiting = offer(labels, stack, waiting, q, s);
        }
    }
    waiting
}

// The groups of a board's cells: the label of each cell's group, which is its first cell in row order, and 1024 where there is none; the first cells by
// themselves, rising, in the first `count` places; and by first cell how many squares and how many arrow cells each group has.
// No fact stands here as a ghost field, not even that the first cells are names: the arrays are lent as work memory once nothing reads them any more, since there
// is no heap in what C calls. They stand apart, since each is asked for and lent alone.
#[derive(Clone, Copy)]
pub struct Groups {
    pub labels: [u16; 1024],
    pub firsts: [u16; 1024],
    pub squares: [u16; 1024],
    pub arrowed: [u16; 1024],
    pub count: usize,
}

impl Groups {
    // Room for groups.
    pub fn new() -> Groups
        ensures { let none = replicate 1024 0 in result ≡ record { labels = none; firsts = none; squares = none; arrowed = none; count = 0 } }
    {
        Groups {
            labels: [0; 1024],
            firsts: [0; 1024],
            squares: [0; 1024],
            arrowed: [0; 1024],
            count: 0,
        }
    }

    // Puts the labels before the first flood, so that a flood reads one array only: the cells below n that are to be in a group are not yet labelled. It puts them
    // in place: returned, the two groupings of a host call take 1,250 instructions more at 6 by 6. By index: of places that are written through an adapter of
    // `iter_mut` a proof does not know what they hold then.
    fn put_first_labels(&mut self, cells: &[u8; 1024], members: Members, n: usize)
        requires { n ≤ 1024 }
        ensures marked { Marked (counts members cells.now) n self.new.labels }
        ensures others { self.new ≡ record self.old { labels = self.new.labels } }
    {
        self.labels = [NO_GROUP; 1024];
        for i in 0..n {
            self.labels[i] = first_label(cells, members, i);
        }
    }

    // Labels the group of cell s with s, unless s is in no group or has a label, and counts its squares and its arrow cells as they leave the stack. The
    // counts are written at s: 0 where s is not the first cell of a group.
    #[tactic(auto, using(crate::proofs::CountLaws::labelled_none, crate::proofs::FloodLaws::flood_ends, grid::proofs::SideLaws::area), unfolding(grid::specs::Grid::size))]
    fn flood(
        &mut self,
        grid: Grid,
        cells: &[u8; 1024],
        onarrow: &[u8; 1024],
        stack: &mut [u16; 1025],
        s: usize,
    )
        requires cell { s < grid.height * grid.width }
        requires unused { Unused s self.old.labels }
        ensures walked { (p : ℕ → Bool) → Only p self.old.labels → Walked (sized grid.height grid.width) p s s self.old.labels self.new.labels }
        ensures counted { self.new ≡ record self.old {
          labels = self.new.labels;
          squares = set self.old.squares s (length (labelled self.new.labels (marked cells.now) s));
          arrowed = set self.old.arrowed s (length (labelled self.new.labels (marked onarrow.now) s));
        } }
    {
        if self.labels[s] != UNLABELLED {
            self.squares[s] = 0;
            self.arrowed[s] = 0;
            return;
        }
        let seed = s as u16;
        let mut count = offer(&mut self.labels, stack, 0, s, seed);
        let mut ones = 0;
        let mut crossed = 0;
        // A `while`: the cells that wait are a stack, so no range tells how many turns there are.
        while count > 0 {
            let i = usize::from(stack[count - 1]);
            ones += usize::from(cells[i] == SQUARE);
            crossed += usize::from(onarrow[i] == 1);
            count = spread(&mut self.labels, stack, count, grid, seed);
        }
        self.squares[s] = ones as u16;
        self.arrowed[s] = crossed as u16;
    }

    // Lists cell s behind the first cells found so far if it is to be in a group and has no label yet: it is the first of its group then. It is written
    // there in any case, and only counted if it is one. Their new number: with the number in `count` a host call takes 3.96 against 3.87 us on 6 by 6 cells, and
    // 58.4 against 56.4 on 32 by 32, since each turn waits for the last one's write.
    fn keep_first(&mut self, s: usize, number: usize) -> usize
        requires { (s < 1024) × (number ≤ s) }
        ensures listed { self.new ≡ record self.old { firsts = set self.old.firsts number s } }
        ensures counted { result ≡ cond (eqb (get_or self.old.labels s 0) unlabelled) (number + 1) number }
    {
        self.firsts[number] = s as u16;
        number + usize::from(self.labels[s] == UNLABELLED)
    }

    // Computes the groups of the cells of a grid that are members. Grid and cells are two parameters here and in `kinds`, `units`, `paths`, `shades` and `turn`:
    // a struct of them would state no fact and be taken apart in each; a `BoardInfo` has them with what is computed of them. It fills groups that are there: a find
    // computes two after one another, and on 5 by 5 cells it takes 1.15 against 0.88 us to make both anew.
    pub fn compute_connected_components(
        &mut self,
        grid: Grid,
        cells: &[u8; 1024],
        onarrow: &[u8; 1024],
        members: Members,
    )
        ensures { GroupTable (sized grid.height grid.width) (counts members (take (grid.height * grid.width) cells.now))
            (square (take (grid.height * grid.width) cells.now)) (marked onarrow.now)
            self.new.labels self.new.firsts self.new.squares self.new.arrowed self.new.count }
    {
        let n = grid.size();
        let mut stack = [0u16; 1025];
        self.put_first_labels(cells, members, n);
        let mut number = 0;
        for s in 0..n {
            number = self.keep_first(s, number);
            self.flood(grid, cells, onarrow, &mut stack, s);
        }
        self.count = number;
    }
}

// The cells of all arrows, which stand one after another, as marks.
pub fn mark_arrow_cells(arrows: &[u16]) -> [u8; 1024]
    requires cells { All (λ i. i < 1024) arrows.now }
    ensures { Marks result (λ i. member i arrows.now) }
{
    let mut marks = [0; 1024];
    for &i in arrows {
        marks[usize::from(i)] = 1;
    }
    marks
}
