// How an exported call writes numbers and bytes to its output.
#![tactic(auto)]

ghost use Rattle.std.specs.Prelude.{◌≡◌, ◌+◌, ◌*◌, ◌≤◌, ◌++◌, length, take, drop};
ghost use Rattle.exported.specs.Written.{bytes_of};

// Writes the first `count` numbers to the front of the output, each as two bytes, most significant first. A count, and no slice: the calls promise what
// they write as `take count` of an array, and would have to turn the length of a slice into that count. By index: of the parts of an output that
// a loop writes through an iterator, a proof does not know what they hold then.
#[tactic(auto, using(crate::proofs::OutputLaws::write_next, crate::proofs::OutputLaws::written_none))]
pub fn write_numbers(numbers: &[u16], count: usize, output: &mut [u8])
    requires { (count ≤ length numbers.now) × (2 * count ≤ length output.old) }
    ensures { output.new ≡ bytes_of (take count numbers.now) ++ drop (2 * count) output.old }
{
    for k in 0..count {
        output[2 * k..2 * k + 2].copy_from_slice(&numbers[k].to_be_bytes());
    }
}

// Writes the first n bytes of an array to the output from the place `at` on. A count, as in `write_numbers`; a place, and no slice from there: the promise speaks of
// the whole output.
pub fn write_behind(bytes: &[u8; 1024], n: usize, at: usize, output: &mut [u8])
    requires { (n ≤ 1024) × (at + n ≤ length output.old) }
    ensures { output.new ≡ (take at output.old ++ take n bytes.now) ++ drop (at + n) output.old }
{
    output[at..at + n].copy_from_slice(&bytes[..n]);
}
