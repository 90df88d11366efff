// The call `evolmino_unique`: a record is opened in an edition with sizes, and a certificate that its leaf has one solution only is checked.
#![tactic(auto)]

ghost use Rattle.std.specs.Prelude.{◌≡◌, true, ℕ};
ghost use Rattle.std.specs.Result.{ForOk};
ghost use Rattle.refusal.specs.Refusals.{returned_of};
ghost use Rattle.sizes.specs.LeafOf.{leaf_of};
ghost use Rattle.reasons.specs.Lent.{HasRoom};
ghost use Rattle.certificate.specs.Inside.{refusal_number};
ghost use Rattle.unique.specs.Unique.{base_cell, base_of, refuted, step_of, steps_of, check_on, host_unique, unique_returned};

use calls::Question;
use certificate::{Certificate, Closing};
use record::{BLACK, GIVEN};
use refusal::Refusal;
use sizes::LentLeaf;

// The state of a cell of this code before anything is assumed: a black one is empty, a given one square, any other undecided.
#[tactic(auto, unfolding(crate::specs::Unique::base_cell))]
fn base_cell(code: u8) -> u8
    ensures { result ≡ base_cell code }
{
    match code {
        BLACK => grid::EMPTY,
        GIVEN => grid::SQUARE,
        _ => grid::UNDECIDED,
    }
}

// The cells that the leaf decides. By index: of cells that are written through `iter_mut().zip(..)` a proof does not know what they hold.
fn base_cells(leaf: &LentLeaf<'_>) -> [u8; 1024]
    ensures { result ≡ base_of (leaf_of leaf.now) }
{
    let codes = &leaf.problem.cells;
    let mut cells = [grid::UNDECIDED; 1024];
    for i in 0..leaf.grid().size() {
        cells[i] = base_cell(codes[i]);
    }
    cells
}

// Whether no finished board of the leaf has these cells: an arrow is short of two squares, or there is a reason. The reason is left in the buffer and read by nobody.
fn is_refuted(leaf: &LentLeaf<'_>, cells: &[u8; 1024], buffer: &mut [u16]) -> bool
    requires { HasRoom leaf.now buffer.old }
    ensures { result ≡ refuted (leaf_of leaf.now) cells.now }
{
    if !finished::two_on_each(leaf.problem, |i| cells[i] != grid::EMPTY) {
        return true;
    }
    reasons::inconsistency::find_inconsistency(leaf, cells, buffer).is_some()
}

// Checks the step at a place: it closes, or it is refused.
fn check_step(
    leaf: &LentLeaf<'_>,
    certificate: &Certificate<'_>,
    at: usize,
    buffer: &mut [u16],
) -> Result<(), Refusal>
    requires { HasRoom leaf.now buffer.old }
    ensures { refusal_number result ≡ step_of (leaf_of leaf.now) certificate.now at }
{
    let mut cells = base_cells(leaf);
    match certificate.take_step(at, leaf.grid().size(), &mut cells)? {
        Closing::Contradiction => Ok(()),
        Closing::Undecided => {
            if is_refuted(leaf, &cells, buffer) {
                return Ok(());
            }
            Err(Refusal::NotClosed)
        }
    }
}

// Checks the steps from behind the claimed solution on: they come to the step of no literals, which ends the words, or one is refused. All of them find in
// one buffer.
fn check_steps(leaf: &LentLeaf<'_>, certificate: &Certificate<'_>) -> Result<(), Refusal>
    ensures { refusal_number result ≡ steps_of (leaf_of leaf.now) certificate.now }
{
    let count = certificate.len();
    let mut buffer = reasons::no_literals();
    let mut at = leaf.grid().size() + 2;
    // No index: where the next step stands, each step tells.
    while at < count {
        check_step(leaf, certificate, at, &mut buffer)?;
        // A step that closes is whole.
        let next = certificate.step_end(at).unwrap();
        // The step of no literals.
        if certificate.word(at) == certificate::TAG {
            if next == count {
                return Ok(());
            }
            return Err(Refusal::CertificateEnd);
        }
        at = next;
    }
    Err(Refusal::CertificateEnd)
}

// The check of a certificate for a leaf: 1 where it is accepted; a claimed solution that is not finished is refused, and then a step.
#[derive(Clone, Copy)]
struct CheckCertificate<'a> {
    certificate: &'a [u8],
}

impl Question for CheckCertificate<'_> {
    ghost told = { λ check l before after answer.
        (returned_of answer ≡ unique_returned (check_on check.certificate.now l)) × (after ≡ before) };

    fn ask(&self, leaf: &LentLeaf<'_>, _output: &mut [u8]) -> Result<usize, Refusal> {
        let certificate = Certificate::new(self.certificate);
        let n = leaf.grid().size();
        if !certificate::is_whole_words(self.certificate) {
            return Err(Refusal::CertificateLength);
        }
        if !certificate.is_headed(n) {
            return Err(Refusal::NoSolutionStep);
        }
        let solution = certificate.claimed_cells(n);
        if !finished::is_finished(leaf, &solution) {
            return Err(Refusal::SolutionUnfinished);
        }
        check_steps(leaf, &certificate)?;
        Ok(1)
    }
}

// Opens the record in an edition with sizes, as `calls::first_reason::find_with` does, and checks a certificate that the leaf has one solution only. Returns 1 where it
// is accepted, and then the claimed solution is finished and every finished board of the leaf is it; or the negated number of a refusal: 1 to 5 for the record, 16 for
// another edition than 1 and 2, 22 for sizes that may not stand, 23 to 30 for the certificate.
pub fn unique(record: &[u8], edition: u32, sizes: &[u8], certificate: &[u8]) -> i32
    ensures { result ≡ unique_returned (host_unique «record».now edition sizes.now certificate.now) }
{
    refusal::returned(calls::ask(
        record,
        edition,
        sizes,
        &CheckCertificate { certificate },
        &mut [],
    ))
}
