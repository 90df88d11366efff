// The call `evolmino_find`: a record is opened, decisions are made in order, and a reason is found; and `evolmino_find_with`, which opens the record in an
// edition with sizes.
ghost use Rattle.std.specs.Prelude.{◌≡◌, length};
ghost use Rattle.refusal.specs.Refusals.{returned_of};
ghost use Rattle.calls.specs.Found.{host_finds, host_finds_with, returned, output_after};
ghost use Rattle.calls.specs.Inside.{leaf_finds};

use crate::Question;
use refusal::Refusal;
use sizes::LentLeaf;

// The first reason on a leaf: it decides in order and finds. 11 for an output that is too short, then the decisions' refusals, then how many literals are
// written. Of the board there are the states of its cells alone, and they are not tested: the arrays of an accepted record are well formed, and decisions
// keep them so.
#[derive(Clone, Copy)]
struct FirstReason<'a> {
    decisions: &'a [u8],
}

impl Question for FirstReason<'_> {
    ghost told = { λ first l before after answer.
        (returned_of answer ≡ returned (leaf_finds first.decisions.now (length before) l))
        × (after ≡ output_after (leaf_finds first.decisions.now (length before) l) before) };

    fn ask(&self, leaf: &LentLeaf<'_>, output: &mut [u8]) -> Result<usize, Refusal> {
        let grid = leaf.grid();
        if output.len() < 2 * (3 * grid.size() + 1) {
            return Err(Refusal::OutputShort);
        }
        let cells = crate::decide_in_order(grid, self.decisions)?;
        let mut literals = reasons::no_literals();
        match reasons::inconsistency::find_inconsistency(leaf, &cells, &mut literals) {
            None => Ok(0),
            Some(count) => {
                exported::write_numbers(&literals, count, output);
                Ok(count)
            }
        }
    }
}

// Opens the record in an edition with sizes, decides in order and finds. The sizes are 16-bit numbers, cell, lowest and highest for each, cells
// rising, two bytes a number, most significant first. The literals stand in the output's first bytes, two each, most significant first. Returns how
// many there are, 0 for none, or the negated number of a refusal, which leaves the output as it was: 1 to 5 for the record, 16 for another edition than 1
// and 2, 22 for sizes that may not stand, 11 for an output that is too short, then the decisions' refusals.
pub fn find_with(
    record: &[u8],
    edition: u32,
    sizes: &[u8],
    decisions: &[u8],
    output: &mut [u8],
) -> i32
    ensures { (result ≡ returned (host_finds_with «record».now edition sizes.now decisions.now (length output.old)))
        × (output.new ≡ output_after (host_finds_with «record».now edition sizes.now decisions.now (length output.old)) output.old) }
{
    refusal::returned(crate::ask(record, edition, sizes, &FirstReason { decisions }, output))
}

// Finds in edition 1 and without sizes, as `find_with` does.
pub fn find(record: &[u8], decisions: &[u8], output: &mut [u8]) -> i32
    ensures { (result ≡ returned (host_finds «record».now decisions.now (length output.old)))
        × (output.new ≡ output_after (host_finds «record».now decisions.now (length output.old)) output.old) }
{
    find_with(record, 1, &[], decisions, output)
}
