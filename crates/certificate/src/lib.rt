// The certificate that a leaf has one solution only: its words, its steps, and what the hints of a step come to. Of the leaf it knows the number of cells alone.
#![tactic(auto)]

ghost use Rattle.std.specs.Prelude.{◌≡◌, ◌≤◌, List, ℕ};
ghost use Rattle.certificate.specs.Certificate.{words_of, whole_words, cell_of, value_of, literal, look_step, head_word};
ghost use Rattle.certificate.specs.Inside.{clause_number};

use grid::UNDECIDED;
use refusal::Refusal;
use std::marker::Model;

// What a step's first word has beyond the number of its literals.
pub const TAG: usize = 8388608;

// A clause under cells of which some are decided: each literal is false; each is but one, the word of which it has, and that cell is undecided; or any other.
#[derive(Clone, Copy, Debug, PartialEq, Eq)]
enum Clause {
    False,
    Unit(usize),
    Other,
}

// What a step that is not refused comes to: a clause is false under its cells, or the cells have to tell.
#[derive(Clone, Copy, Debug, PartialEq, Eq)]
pub enum Closing {
    Contradiction,
    Undecided,
}

// Whether the bytes are whole words, and few enough that a place is no tag.
#[tactic(auto, unfolding(crate::specs::Certificate::whole_words))]
pub fn is_whole_words(bytes: &[u8]) -> bool
    ensures { result ≡ whole_words bytes.now }
{
    bytes.len() % 3 == 0 && bytes.len() / 3 <= TAG
}

// The cell of a literal, as of any word. Words are no `literals::Literal`: they have 24 bits, and a clause of any words is looked at.
fn cell(word: usize) -> usize
    ensures { result ≡ cell_of word }
{
    word % 1024
}

// Its value.
fn value(word: usize) -> u8
    ensures { result ≡ value_of word }
{
    (word / 32768 % 2) as u8
}

// Whether a word is a literal of a leaf of n cells.
#[tactic(auto, unfolding(crate::specs::Certificate::literal))]
fn is_literal(word: usize, n: usize) -> bool
    ensures { result ≡ literal n word }
{
    word < 65536 && word % 32768 < n
}

// Whether a word is a literal of cell i.
#[tactic(auto, unfolding(crate::specs::Certificate::head_word))]
fn is_literal_of(word: usize, i: usize) -> bool
    ensures { result ≡ head_word word i }
{
    word < 65536 && word % 32768 == i
}

// A literal of a cell in this state, read behind literals that left `left`.
#[tactic(auto, unfolding(crate::specs::Certificate::look_step))]
fn look_step(state: u8, left: Clause, word: usize) -> Clause
    ensures { clause_number result ≡ look_step state (clause_number left) word }
{
    if state == value(word) {
        return Clause::Other;
    }
    if state != UNDECIDED {
        return left;
    }
    match left {
        Clause::False => Clause::Unit(word),
        Clause::Unit(first) if first == word => left,
        _ => Clause::Other,
    }
}

// A certificate: the words of its bytes. Bytes at the end that are no whole word are passed over.
#[derive(Drop)]
pub struct Certificate<'a> {
    bytes: &'a [u8],
}

impl<'a> Model for Certificate<'a> {
    ghost Value = { List ℕ };

    ghost view = { λ certificate. words_of certificate.bytes.now };
}

impl<'a> Certificate<'a> {
    // The certificate that these bytes are.
    pub fn new(bytes: &'a [u8]) -> Certificate<'a>
        ensures { result ≡ words_of bytes.now }
    {
        Certificate { bytes }
    }
}

impl Certificate<'_> {
    ghost use Rattle.std.specs.Prelude.{◌+◌, ◌^◌, ◌<◌, length, get_or};
    ghost use Rattle.std.specs.Result.{ForErr};
    ghost use Rattle.std.proofs.Math.Seq.{slice};
    ghost use Rattle.grid.specs.Lists.{all, upto, array_of};
    ghost use Rattle.refusal.specs.Refusals.{number_of};
    ghost use Rattle.certificate.specs.Certificate.{look_from, hint_of, follow_from, assume_from, step_from, claimed, head_at, headed};
    ghost use Rattle.certificate.specs.Inside.{closing_number, refusal_number, end_of};

    // How many words there are.
    #[tactic(auto, using(crate::proofs::Words::words_length))]
    pub fn len(&self) -> usize
        ensures { result ≡ length self.now }
    {
        self.bytes.len() / 3
    }

    // The word at place k. Loops read by places too, as steps and hints are named by them; chunks of three bytes would be a second list in contracts.
    #[tactic(auto, using(crate::proofs::Words::words_length))]
    pub fn word(&self, k: usize) -> usize
        requires { k < length self.now }
        ensures word { result ≡ get_or self.now k 0 }
        ensures small { (result < 16777216) × (k < 2 ^ 62) }
    {
        let bytes = self.bytes;
        let at = 3 * k;
        u32::from_be_bytes([0, bytes[at], bytes[at + 1], bytes[at + 2]]) as usize
    }

    // What the clause between two places comes to under the cells. Two places, and no range, here and below: contracts speak of `slice from to`, and `follow` asks for
    // its last place.
    #[tactic(auto, using(crate::proofs::Words::words_on, grid::proofs::SliceLaws::slice_none), unfolding(crate::specs::Certificate::look_from))]
    fn look(&self, from: usize, to: usize, cells: &[u8; 1024]) -> Clause
        requires { to ≤ length self.now }
        ensures { clause_number result ≡ look_from cells.now 0 (slice from to self.now) }
    {
        let mut left = Clause::False;
        for k in from..to {
            let word = self.word(k);
            left = look_step(cells[cell(word)], left, word);
        }
        left
    }

    // What the clause of the hint h of the step at p comes to; any other where h is not the place of an earlier step.
    #[tactic(auto, using(crate::proofs::Words::words_part), unfolding(crate::specs::Certificate::hint_of, crate::specs::Certificate::earlier))]
    fn follow_hint(&self, p: usize, h: usize, cells: &[u8; 1024]) -> Clause
        requires { p ≤ length self.now }
        ensures { clause_number result ≡ hint_of self.now p cells.now h }
    {
        if p <= h {
            return Clause::Other;
        }
        let first = self.word(h);
        if first < TAG {
            return Clause::Other;
        }
        let to = h + 1 + (first - TAG);
        if p < to {
            return Clause::Other;
        }
        self.look(h + 1, to, cells)
    }

    // Follows the hints between two places, those of the step at p: the last one may be false, each other decides a cell.
    #[tactic(auto, using(grid::proofs::SliceLaws::slice_none, crate::proofs::Words::words_on, crate::proofs::Hints::hint_decides, crate::proofs::Hints::hint_early), unfolding(crate::specs::Certificate::follow_from))]
    fn follow(
        &self,
        p: usize,
        from: usize,
        to: usize,
        cells: &mut [u8; 1024],
    ) -> Result<Closing, Refusal>
        requires { (p ≤ length self.now) × (to ≤ length self.now) }
        ensures closing { (closing_number result, cells.new) ≡ follow_from self.now p cells.old (slice from to self.now) }
        ensures late { ForErr result (λ r. 26 ≤ number_of r) }
    {
        for k in from..to {
            match self.follow_hint(p, self.word(k), cells) {
                Clause::False if k + 1 == to => return Ok(Closing::Contradiction),
                Clause::Unit(word) => cells[cell(word)] = value(word),
                _ => return Err(Refusal::Hint),
            }
        }
        Ok(Closing::Undecided)
    }

    // Assumes each literal between two places false.
    #[tactic(auto, using(crate::proofs::Words::words_on, grid::proofs::SliceLaws::slice_none), unfolding(crate::specs::Certificate::assume_from))]
    fn assume(
        &self,
        from: usize,
        to: usize,
        n: usize,
        cells: &mut [u8; 1024],
    ) -> Result<(), Refusal>
        requires { to ≤ length self.now }
        ensures assumed { (refusal_number result, cells.new) ≡ assume_from n cells.old (slice from to self.now) }
        ensures late { ForErr result (λ r. 26 ≤ number_of r) }
    {
        for k in from..to {
            let word = self.word(k);
            if !is_literal(word, n) {
                return Err(Refusal::NotALiteral);
            }
            cells[cell(word)] = 1 - value(word);
        }
        Ok(())
    }

    // Where the step at `at` ends, if a whole one stands there.
    #[tactic(auto, unfolding(crate::specs::Certificate::whole))]
    pub fn step_end(&self, at: usize) -> Option<usize>
        ensures { result ≡ end_of self.now at }
    {
        let count = self.len();
        if count <= at {
            return None;
        }
        let first = self.word(at);
        if first < TAG {
            return None;
        }
        let middle = at + 1 + (first - TAG);
        if count <= middle {
            return None;
        }
        let end = middle + 1 + self.word(middle);
        if count < end {
            return None;
        }
        Some(end)
    }

    // Assumes the clause of the step at `at` false on the cells, and follows its hints.
    #[tactic(auto, using(crate::proofs::Words::words_part), unfolding(crate::specs::Certificate::step_from, crate::specs::Certificate::hints_from, crate::specs::Certificate::whole))]
    pub fn take_step(&self, at: usize, n: usize, cells: &mut [u8; 1024]) -> Result<Closing, Refusal>
        ensures closing { (closing_number result, cells.new) ≡ step_from n cells.old self.now at }
        ensures late { ForErr result (λ r. 26 ≤ number_of r) }
    {
        let end = self.step_end(at).ok_or(Refusal::StepCut)?;
        let width = self.word(at) - TAG;
        if n < width {
            return Err(Refusal::NotALiteral);
        }
        let middle = at + 1 + width;
        self.assume(at + 1, middle, n, cells)?;
        self.follow(at, middle + 1, end, cells)
    }

    // The claimed solution of n cells. By index, as steps and hints are: a cell's word stands one place on.
    pub fn claimed_cells(&self, n: usize) -> [u8; 1024]
        requires { (n ≤ 1024) × (n + 2 ≤ length self.now) }
        ensures { result ≡ array_of 2 (claimed n self.now) }
    {
        let mut cells = [UNDECIDED; 1024];
        for i in 0..n {
            cells[i] = 1 - value(self.word(i + 1));
        }
        cells
    }

    // Whether the words from the second on are literals of cells 0, 1, .., n - 1.
    fn all_literals(&self, n: usize) -> bool
        requires { n + 2 ≤ length self.now }
        ensures { result ≡ all (head_at self.now) (upto n) }
    {
        (0..n).all(|i| is_literal_of(self.word(i + 1), i))
    }

    // Whether the words start with the step of a claimed solution of n cells.
    #[tactic(auto, unfolding(crate::specs::Certificate::headed))]
    pub fn is_headed(&self, n: usize) -> bool
        requires { n ≤ 1024 }
        ensures { result ≡ headed n self.now }
    {
        n + 2 <= self.len()
            && self.word(0) == TAG + n
            && self.word(n + 1) == 0
            && self.all_literals(n)
    }
}
