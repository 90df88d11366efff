// The call `evolmino_finished`: a record is opened, decisions are made in order, and it is told whether the leaf is finished; and `evolmino_finished_with`,
// which opens the record in an edition with sizes.
ghost use Rattle.std.specs.Prelude.{◌≡◌};
ghost use Rattle.refusal.specs.Refusals.{returned_of};
ghost use Rattle.calls.specs.Judged.{judge_on, host_finished, host_finished_with, judged};

use crate::Question;
use refusal::Refusal;
use sizes::LentLeaf;

// Whether a leaf is finished: it decides in order and judges. The decisions' refusals, then 1 for yes and 0 for no. Nothing is tested, as in `first_reason`.
#[derive(Clone, Copy)]
struct IsFinished<'a> {
    decisions: &'a [u8],
}

impl Question for IsFinished<'_> {
    ghost told = { λ question l before after answer.
        (returned_of answer ≡ judged (judge_on question.decisions.now l)) × (after ≡ before) };

    fn ask(&self, leaf: &LentLeaf<'_>, _output: &mut [u8]) -> Result<usize, Refusal> {
        let cells = crate::decide_in_order(leaf.grid(), self.decisions)?;
        Ok(usize::from(finished::is_finished(leaf, &cells)))
    }
}

// Opens the record in an edition with sizes, as `first_reason::find_with` does, decides in order and tells whether the leaf is finished: 1 for yes, 0 for no,
// or the negated number of a refusal: 1 to 5 for the record, 16 for another edition than 1 and 2, 22 for sizes that may not stand, then the decisions'
// refusals.
pub fn finished_with(record: &[u8], edition: u32, sizes: &[u8], decisions: &[u8]) -> i32
    ensures { result ≡ judged (host_finished_with «record».now edition sizes.now decisions.now) }
{
    refusal::returned(crate::ask(record, edition, sizes, &IsFinished { decisions }, &mut []))
}

// Tells whether the leaf is finished in edition 1 and without sizes, as `finished_with` does.
pub fn finished(record: &[u8], decisions: &[u8]) -> i32
    ensures { result ≡ judged (host_finished «record».now decisions.now) }
{
    finished_with(record, 1, &[], decisions)
}
