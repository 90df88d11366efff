// A literal, and literals in a lent buffer.
#![tactic(auto)]

ghost use Rattle.std.specs.Prelude.{◌≡◌, ◌<◌, ◌≤◌, ◌++◌, ◌∷◌, [], List, ℕ, length};
ghost use Rattle.std.specs.Borrow.{MutBor};
ghost use Rattle.grid.specs.Cells.{word};
ghost use Rattle.literals.specs.Held.{Holds};

// A cell by its index, with a value. In a buffer, which C lends, it is one number, and each number of 16 bits is that of one literal.
#[derive(Clone, Copy, Debug, PartialEq, Eq)]
pub struct Literal {
    pub index: u16,
    pub value: u16,
    ghost few: { index < 32768 },
    ghost bit: { value ≤ 1 },
}

impl From<u16> for Literal {
    ghost from_gives = { λ number literal. word (literal.index, literal.value) ≡ number };

    #[tactic(auto, unfolding(grid::specs::Cells::word))]
    fn from(number: u16) -> Literal {
        Literal {
            index: number % 32768,
            value: number / 32768,
        }
    }
}

impl From<Literal> for u16 {
    ghost from_gives = { λ literal number. number ≡ word (literal.index, literal.value) };

    #[tactic(auto, unfolding(grid::specs::Cells::word))]
    fn from(literal: Literal) -> u16 {
        literal.value * 32768 + literal.index
    }
}

// Literals in the front of the part of a buffer that is lent for them. It is no `text::Text`: that puts bytes, and these are numbers of 16 bits.
#[derive(Drop)]
pub struct Literals<'a> {
    pub out: &'a mut [u16],
    pub count: usize,
}

impl Literals<'_> {
    // Writes a literal behind the others.
    pub fn push(&mut self, literal: Literal)
        requires { self.old.count < length self.old.out.now }
        ensures same_buffer { self.new.out.ghost_name ≡ self.old.out.ghost_name }
        ensures written { (lent : MutBor (List ℕ)) (before : List (ℕ × ℕ)) → Holds lent before self.old → Holds lent (before ++ ((literal.index, literal.value) ∷ [])) self.new }
    {
        self.out[self.count] = u16::from(literal);
        self.count += 1;
    }
}
