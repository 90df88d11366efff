// The text that the program `reason` prints for what the host call says: numbers, words and lines; and how its input is read. The replaying
// programs read their lists by the same functions.
#![tactic(auto)]

ghost use Rattle.std.specs.Prelude.{◌≡◌, ◌∷◌, ◌++◌, [], ◌+◌, ◌*◌, ◌/◌, ◌≤◌, ◌<◌, length, take, get_or, decimal, IfOk, IfSome};
ghost use Rattle.std.specs.Io.KnownBytes.{Consumes, IsAtEnd};
ghost use Rattle.grid.specs.Lists.{flat_map};
ghost use Rattle.text.specs.Told.{told_by, told_text};
ghost use Rattle.text.specs.Text.{digits, literal_in, literals_in, literal_line};
ghost use Rattle.text.specs.Pushed.{Pushed};

use itoa::Buffer;
use std::io;
use std::io::{ErrorKind, Read};

// One read, tried again where it was interrupted.
fn read_once<R: Read>(input: &mut R, room: &mut [u8]) -> io::Result<usize>
    ensures within { IfOk result (λ n. n ≤ length room.new) }
    ensures taken { IfOk result (λ n. Consumes (R.remaining input.old) (R.remaining input.new) (take n room.new)) }
    ensures end { IfOk result (λ n. n ≡ 0 → 0 < length room.old → IsAtEnd (R.remaining input.new)) }
{
    // A bound that no input comes near, and no `loop`: a loop has to end, and nothing says how often a read may be interrupted.
    for _ in 0..u64::MAX {
        match input.read(room) {
            Ok(n) => return Ok(n),
            Err(e) => {
                if e.kind() != ErrorKind::Interrupted {
                    return Err(e);
                }
            }
        }
    }
    input.read(room)
}

// Reads what an input has, as far as there is room for it, and returns how many bytes that is. An error is one of the input's own reads.
pub fn read_full<R: Read>(input: &mut R, room: &mut [u8]) -> io::Result<usize>
    ensures within { IfOk result (λ n. n ≤ length room.old) }
    ensures read { IfOk result (λ n. IfSome (R.remaining input.old) (λ bytes. take n room.new ≡ take (length room.old) bytes)) }
{
    let mut n = 0;
    // A `while`: how far a turn gets is the input's own, so that n is no index to be counted.
    while n < room.len() {
        let count = read_once(input, &mut room[n..])?;
        if count == 0 {
            return Ok(n);
        }
        n += count;
    }
    Ok(n)
}

// What an input has, as far as there is room for it.
pub fn read_into<R: Read + Drop, const N: usize>(
    mut input: R,
    room: &mut [u8; N],
) -> io::Result<&[u8]>
    ensures { IfOk result (λ read. IfSome (R.remaining input) (λ bytes. read.now ≡ take N bytes)) }
{
    let n = read_full(&mut input, room)?;
    Ok(&room[..n])
}

// The last four digits of a number that has more, as the definition has them. No refusal has so many, and no caller has to prove that.
#[tactic(auto, using(crate::proofs::ToldLaws::digits_above))]
fn last_digits(n: usize) -> [u8; 4]
    requires { 10000 ≤ n }
    ensures { result ≡ digits n }
{
    [
        48 + (n / 1000 % 10) as u8,
        48 + (n / 100 % 10) as u8,
        48 + (n / 10 % 10) as u8,
        48 + (n % 10) as u8,
    ]
}

// Text in the front of a lent buffer, and its length. It is no `Display`: that says what is written where it is `Ok`, and never that it is, and
// `answer::respond`, which has to write all of its text, could not be proved by it.
#[derive(Drop)]
pub struct Text<'a> {
    pub out: &'a mut [u8],
    pub len: usize,
}

impl Text<'_> {
    // Writes bytes behind the text.
    pub fn push(&mut self, bytes: &[u8])
        requires { self.old.len + length bytes.now ≤ length self.old.out.now }
        ensures { Pushed self.old self.new bytes.now }
    {
        let end = self.len + bytes.len();
        self.out[self.len..end].copy_from_slice(bytes);
        self.len = end;
    }

    // Writes a number behind it, in decimal digits.
    pub fn push_number(&mut self, n: usize)
        requires { self.old.len + length (decimal n) ≤ length self.old.out.now }
        ensures { Pushed self.old self.new (decimal n) }
    {
        let mut digits = Buffer::new();
        self.push(digits.format(n).as_bytes());
    }

    // Writes a line of a word, with its space, and a number.
    fn push_line(&mut self, word: &[u8], n: usize)
        requires { (self.old.len + length word.now + 5 ≤ length self.old.out.now) × (n < 10000) }
        ensures { Pushed self.old self.new (word.now ++ (decimal n ++ (10 ∷ []))) }
    {
        self.push(word);
        self.push_number(n);
        self.push(b"\n");
    }

    // Writes the line of the literal in two bytes, most significant first: its index, then its value.
    // By numbers, and no `literals::Literal`: the index of one may have five digits, and here four at most are printed.
    fn push_literal(&mut self, bytes: &[u8; 2])
        requires { self.old.len + 7 ≤ length self.old.out.now }
        ensures written { Pushed self.old self.new (literal_line (literal_in (get_or bytes.now 0 0) (get_or bytes.now 1 0))) }
        ensures short { self.new.len ≤ self.old.len + 7 }
    {
        let literal = usize::from(u16::from_be_bytes(*bytes));
        self.push_number(literal % 1024);
        self.push(b" ");
        self.push_number(literal / 32768);
        self.push(b"\n");
    }

    // Writes a line for each of the literals in the bytes.
    fn push_literals(&mut self, found: &[u8])
        requires { self.old.len + 7 * (length found.now / 2) ≤ length self.old.out.now }
        ensures { Pushed self.old self.new (flat_map literal_line (literals_in found.now)) }
    {
        let (literals, _) = found.as_chunks::<2>();
        for literal in literals {
            self.push_literal(literal);
        }
    }

    // Writes what the host call says, with the bytes that it left. A number of a refusal, and no `Refusal`: it is read from what the host call returns, and the text is
    // defined for each.
    pub fn push_told(&mut self, told: Result<usize, usize>, found: &[u8])
        requires count { IfOk told (λ n. (n ≤ 3073) × (2 * n ≤ length found.now)) }
        requires room { self.old.len + 21523 ≤ length self.old.out.now }
        ensures { Pushed self.old self.new (told_text told found.now) }
    {
        match told {
            Err(number) if number < 10000 => self.push_line(b"refused ", number),
            Err(number) => {
                self.push(b"refused ");
                self.push(&last_digits(number));
                self.push(b"\n");
            }
            Ok(0) => self.push(b"none\n"),
            Ok(count) => {
                self.push_line(b"reason ", count);
                self.push_literals(&found[..2 * count]);
            }
        }
    }
}

// What the number says that the host call returned: how many literals it found, or the number of a refusal, which is any number as in `push_told`.
// It is no `From`: both types are std's.
// By arms, and not by `map_err`: what is told of a refusal rests on the number's being negative, which is known in the arm and not in a closure.
pub fn read_code(code: i32) -> Result<usize, usize>
    ensures { result ≡ told_by code }
{
    match usize::try_from(code) {
        Ok(count) => Ok(count),
        Err(_) => Err(code.unsigned_abs() as usize),
    }
}
