// The text that the program `reason` prints for its input.
#![tactic(auto)]

ghost use Rattle.std.specs.Prelude.{◌≡◌, MatchResult};
ghost use Rattle.refusal.specs.Refusals.{refused, number_of};
ghost use Rattle.calls.specs.Found.{host_finds, returned, output_after};
ghost use Rattle.answer.specs.Program.{output_limit, program_finds, printed};
ghost use Rattle.text.specs.Text.{Written};
ghost use Rattle.text.specs.Told.{told_by};

use refusal::Refusal;
use text::Text;

// The length of the longest text: a first line of 12 bytes, and 7 for each of 3,073 literals.
pub const TEXT: usize = 21523;

// The length of the longest input that is not refused for it.
pub const INPUT: usize = 8192;

// The length of the literals of the longest reason, two bytes each.
const FOUND: usize = 6146;

// The record in an input, whose length the first two bytes say, high byte first, and the decisions behind it. Input that is too long or too
// short is refused as the host call refuses.
fn parts(input: &[u8]) -> Result<(&[u8], &[u8]), Refusal>
    ensures { MatchResult result
        (λ parts. program_finds input.now ≡ host_finds parts.0.now parts.1.now output_limit)
        (λ refusal. program_finds input.now ≡ refused (number_of refusal)) }
{
    if INPUT < input.len() {
        return Err(Refusal::Decision);
    }
    let Some((length, rest)) = input.split_first_chunk::<2>() else {
        return Err(Refusal::RecordEnds);
    };
    rest.split_at_checked(usize::from(u16::from_be_bytes(*length)))
        .ok_or(Refusal::RecordEnds)
}

// Takes the input apart and calls the host call, with an output that is long enough for every record. A number of a refusal, and no `Refusal`: it is read from what the
// host call returns, and the text is defined for each.
fn find_in(input: &[u8], found: &mut [u8; FOUND]) -> Result<usize, usize>
    ensures told { result ≡ told_by (returned (program_finds input.now)) }
    ensures found { found.new ≡ output_after (program_finds input.now) found.old }
{
    match parts(input) {
        Ok((record, decisions)) => {
            text::read_code(host::evolmino_find(record, decisions, found))
        }
        Err(refusal) => Err(usize::from(refusal.number())),
    }
}

// Writes what the program `reason` prints for its input, and returns how many bytes that are. The bytes behind them stay as they were.
// A writer and no `Display`: what a `Display` promises holds where the write succeeds, and this call has no way to fail.
pub fn respond(input: &[u8], out: &mut [u8; TEXT]) -> usize
    ensures { Written out.old 0 (printed input.now) out.new result }
{
    let mut found = [0; FOUND];
    let told = find_in(input, &mut found);
    let mut text = Text { out, len: 0 };
    text.push_told(told, &found);
    text.len
}
