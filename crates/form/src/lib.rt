// Tests of the arrays of a board: whether they are those of an accepted record, and the passes over one array.
#![tactic(auto)]

pub mod accepted;

ghost use Rattle.std.specs.Prelude.{◌≡◌, true, false, [], ℕ, ◌*◌, ◌≤◌, ◌<◌, ltb, length, get_or, take, IfSome, IfNone};
ghost use Rattle.grid.specs.Lists.{all, member};
ghost use Rattle.grid.specs.Marks.{Marks};
ghost use Rattle.grid.specs.Grid.{neighbours};
ghost use Rattle.grid.specs.Side.{sized};
ghost use Rattle.record.specs.Problem.{grid_of, arrows_from};
ghost use Rattle.form.specs.Form.{behind, rises, fresh, is_path, good_size, drawn, problem_formed};
ghost use Rattle.form.specs.Inside.{Blank, RowStarts, Cut};

use grid::Grid;
use record::Problem;

// Whether v stands at every place from `from` on. By `fold` and `&`, so that it goes on to the end, and is done many places at a time: 38 ns, and 449 with `all`.
pub fn filled(a: &[u8; 1024], from: usize, v: u8) -> bool
    ensures { result ≡ behind v from a.now }
{
    a[from.min(1024)..]
        .iter()
        .fold(true, |good, &x| good & (x == v))
}

// Whether 0 stands at every place from `from` on. By `fold`, as `filled`.
// Apart from `filled`, since one over both types would say its clause by the type's own equality, which each caller would have to turn into this one.
pub fn zeros(a: &[u16; 1024], from: usize) -> bool
    ensures { result ≡ behind 0 from a.now }
{
    a[from.min(1024)..]
        .iter()
        .fold(true, |good, &x| good & (x == 0))
}

// Whether the codes are 0, 1 and 2 only. By `fold`, as `filled`.
fn low_codes(codes: &[u8]) -> bool
    ensures { result ≡ all (λ (x : ℕ). ltb x 3) codes.now }
{
    codes.iter().fold(true, |good, &code| good & (code < 3))
}

// Whether the ends rise, the first above 0. By `fold`, as `filled`.
fn rising(ends: &[u16]) -> bool
    ensures { result ≡ rises 0 ends.now }
{
    let (rise, _) = ends
        .iter()
        .fold((true, 0), |(rise, last), &end| (rise & (last < end), end));
    rise
}

// An array with the cells of the list marked; none where one of them is n or more, or stands twice.
#[tactic(auto, using(crate::proofs::Verdicts::zeros_blank, crate::proofs::Marking::none_marked, crate::proofs::Marking::one_marked))]
pub fn mark(list: &[u16], n: usize) -> Option<[u8; 1024]>
    requires { n ≤ 1024 }
    ensures some { IfSome result (λ marks. (fresh n [] list.now ≡ true) × Marks marks (λ i. member i list.now)) }
    ensures none { IfNone result (fresh n [] list.now ≡ false) }
{
    let mut marks = [0; 1024];
    for &cell in list {
        let i = usize::from(cell);
        if n <= i {
            return None;
        }
        if marks[i] != 0 {
            return None;
        }
        marks[i] = 1;
    }
    Some(marks)
}

// A grid with a mark at the first cell of each row, so that the tests of steps need no division.
#[derive(Drop)]
struct Rows {
    grid: Grid,
    starts: [u8; 1024],
    ghost marked: { RowStarts (grid.height * grid.width) grid.width starts },
}

impl Rows {
    fn new(grid: Grid) -> Rows
        requires { 0 < grid.width }
        ensures { result.grid ≡ grid }
    {
        let mut starts = [0; 1024];
        // By index: of places that are written through `iter_mut().step_by(..)` a proof does not know what they hold.
        for at in (0..grid.size()).step_by(grid.width) {
            starts[at] = 1;
        }
        Rows { grid, starts }
    }

    // Whether the cell j is a neighbour of the cell i.
    #[tactic(auto, using(crate::proofs::Steps::step_up, crate::proofs::Steps::step_down, crate::proofs::Steps::step_left, crate::proofs::Steps::step_right, crate::proofs::Steps::step_none))]
    fn are_beside(&self, i: usize, j: usize) -> bool
        requires { (i < self.now.grid.height * self.now.grid.width) × (j < self.now.grid.height * self.now.grid.width) }
        ensures { result ≡ member j (neighbours (sized self.now.grid.height self.now.grid.width) i) }
    {
        let width = self.grid.width;
        if j + width == i {
            return true;
        }
        if i + width == j {
            return true;
        }
        if j + 1 == i {
            return self.starts[i] == 0;
        }
        if i + 1 == j {
            return self.starts[j] == 0;
        }
        false
    }

    // Whether an arrow goes from neighbour to neighbour. A loop, and no `all`: its closure would have to be told of each two cells that they are on the grid.
    fn follows(&self, arrow: &[u16]) -> bool
        requires { (k : ℕ) → k < length arrow.now → get_or arrow.now k 0 < self.now.grid.height * self.now.grid.width }
        ensures { result ≡ is_path (sized self.now.grid.height self.now.grid.width) arrow.now }
    {
        for step in arrow.windows(2) {
            if !self.are_beside(usize::from(step[0]), usize::from(step[1])) {
                return false;
            }
        }
        true
    }

    // Whether each arrow of a problem does. A loop, as `follows`: the closure would have to be told that each arrow is there.
    fn all_follow(&self, problem: &Problem) -> bool
        requires few { problem.now.count ≤ 1024 }
        requires cut { Cut (self.now.grid.height * self.now.grid.width) (take problem.now.count problem.now.ends) problem.now.arrows }
        ensures { result ≡ all (is_path (sized self.now.grid.height self.now.grid.width)) (arrows_from problem.now.arrows 0 (take problem.now.count problem.now.ends)) }
    {
        for k in 0..problem.count {
            if !self.follows(problem.arrow(k)) {
                return false;
            }
        }
        true
    }
}

// The grid of a problem, if H and W are 1 to 32.
#[tactic(auto, unfolding(crate::specs::Form::good_size, record::specs::Problem::grid_of))]
fn good_grid(problem: &Problem) -> Option<Grid>
    ensures some { IfSome result (λ grid. (good_size (grid_of problem.now) ≡ true) × (sized grid.height grid.width ≡ grid_of problem.now)) }
    ensures none { IfNone result (good_size (grid_of problem.now) ≡ false) }
{
    let Problem { height, width, .. } = *problem;
    if height == 0 || 32 < height || width == 0 || 32 < width {
        return None;
    }
    Some(Grid { height, width })
}

// Whether the arrows of a problem are those of a record on the grid. Their ends are known to rise.
#[tactic(auto, using(crate::proofs::Verdicts::arrow_tests))]
fn good_arrows(problem: &Problem, grid: Grid) -> bool
    requires some { 0 < grid.width }
    requires few { problem.now.count ≤ 1024 }
    requires rising { rises 0 (take problem.now.count problem.now.ends) ≡ true }
    ensures { result ≡ drawn (sized grid.height grid.width) (take problem.now.count problem.now.ends) problem.now.arrows }
{
    let total = problem.arrow_total();
    if 1024 < total {
        return false;
    }
    mark(&problem.arrows[..total], grid.size()).is_some()
        && Rows::new(grid).all_follow(problem)
        && zeros(&problem.arrows, total)
}

// Whether a problem is that of an accepted record.
#[tactic(auto, using(crate::proofs::Verdicts::problem_tests))]
pub fn is_formed(problem: &Problem) -> bool
    ensures { result ≡ problem_formed problem.now }
{
    let Some(grid) = good_grid(problem) else {
        return false;
    };
    if 1024 < problem.count {
        return false;
    }
    let n = grid.size();
    rising(&problem.ends[..problem.count])
        && good_arrows(problem, grid)
        && low_codes(&problem.cells[..n])
        && filled(&problem.cells, n, 0)
        && zeros(&problem.ends, problem.count)
}
