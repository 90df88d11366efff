// The program `reason`: reads standard input to its end, or as far as it takes to see that it is too long, and prints what `answer::respond` writes.
#![tactic(auto)]

ghost use Rattle.std.specs.Prelude.{OnOk, IfSome};
ghost use Rattle.std.specs.Io.KnownBytes.{Appends};
ghost use Rattle.answer.specs.Program.{printed};

use std::io;
use std::io::{Read, Write};

// Writes the text for an input.
fn write_answer<W: Write>(input: &[u8], output: &mut W) -> io::Result<()>
    ensures { OnOk result (Appends (W.contents output.old) (W.contents output.new) (printed input.now)) }
{
    let mut text = [0; answer::TEXT];
    let end = answer::respond(input, &mut text);
    output.write_all(&text[..end])
}

// Reads an input to its end, or as far as it takes to see that it is too long, and writes the text for it.
#[tactic(auto, using(crate::proofs::InputLaws::printed_taken))]
fn run<R: Read + Drop, W: Write>(input: R, output: &mut W) -> io::Result<()>
    ensures { OnOk result (IfSome (R.remaining input) (λ bytes.
        Appends (W.contents output.old) (W.contents output.new) (printed bytes))) }
{
    // Room for the longest input and one byte more.
    let mut room = [0; answer::INPUT + 1];
    let bytes = text::read_into(input, &mut room)?;
    write_answer(bytes, output)
}

fn main(rt: HostRuntime) -> io::Result<()> {
    run(rt.reader(), &mut io::writer(&rt))
}
