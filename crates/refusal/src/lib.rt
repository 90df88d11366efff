// Why a call is refused: one enum for all calls, with the numbers of the table of refusals in the README and a sentence for each; and the number that an
// exported call returns.
#![tactic(auto)]

ghost use Rattle.std.specs.Prelude.{◌≡◌, ◌<◌, ◌^◌};
ghost use Rattle.std.specs.Result.{ForOk};
ghost use Rattle.refusal.specs.Refusals.{number_of, returned_of};

use std::fmt;

/// Why a call is refused. The names are those of the Rust package `evolmino`.
#[derive(Clone, Copy, Debug, PartialEq, Eq, Hash)]
pub enum Refusal {
    /// 1: the record ends inside a field, or before one that is due.
    RecordEnds = 1,
    /// 2: cell code 3.
    CellCode,
    /// 3: an arrow's start or step is off the grid.
    OffGrid,
    /// 4: an arrow cell is used twice.
    UsedTwice,
    /// 5: a filler bit is not zero, or a byte follows it.
    Filler,
    /// 6: a board that no list of calls could leave.
    Board,
    /// 7: a decision's index is not below height times width.
    Index,
    /// 8: a decision's value is above 1.
    Value,
    /// 9: the cell is decided already.
    Decided,
    /// 10: nothing to undo.
    NothingDecided,
    /// 11: the output is too short for the longest answer.
    OutputShort,
    /// 12: a decision's five bits are not zero, or a single byte is left over.
    Decision,
    /// 13: the output is too short for the whole clause sheet.
    SheetShort,
    /// 14: the number of a turning is above 7.
    Turning,
    /// 15: the output is shorter than the record that is to be written.
    RecordOutputShort,
    /// 16: an edition that is not 1 or 2.
    Edition,
    /// 17: a player above 3.
    Player,
    /// 18: the two records are not of equal height.
    UnequalHeights,
    /// 19: the joined leaf would be wider than 32.
    TooWide,
    /// 20: what stands behind the record is not a grade and a solution with zero filler.
    Tail,
    /// 21: the solution is not finished in the edition.
    Unfinished,
    /// 22: a list of sizes that may not stand.
    Sizes,
    /// 23: the certificate is not whole words, or has too many.
    CertificateLength,
    /// 24: the certificate does not begin with the step of a claimed solution.
    NoSolutionStep,
    /// 25: the claimed solution is not finished.
    SolutionUnfinished,
    /// 26: a step is not whole.
    StepCut,
    /// 27: a step has more literals than the leaf has cells, or a word that is none of its literals.
    NotALiteral,
    /// 28: a hint is not the place of an earlier step, decides no cell, or is false before the last hint.
    Hint,
    /// 29: a step does not close.
    NotClosed,
    /// 30: the certificate ends without the step of no literals, or something follows it.
    CertificateEnd,
}

impl Refusal {
    /// The number in the README. A method, and no `From`: its name says which number it is.
    pub fn number(self) -> u8
        ensures { result ≡ number_of self }
    {
        self as u8
    }
}

impl fmt::Display for Refusal {
    fn fmt<W: fmt::Write>(&self, f: &mut fmt::Formatter<W>) -> fmt::Result {
        f.write_str(match self {
            Refusal::RecordEnds => "the record ends inside a field, or before one that is due",
            Refusal::CellCode => "cell code 3",
            Refusal::OffGrid => "an arrow's start or step is off the grid",
            Refusal::UsedTwice => "an arrow cell is used twice",
            Refusal::Filler => "a filler bit is not zero, or a byte follows it",
            Refusal::Board => "a board that no list of calls could leave",
            Refusal::Index => "a decision's index is not below height times width",
            Refusal::Value => "a decision's value is above 1",
            Refusal::Decided => "the cell is decided already",
            Refusal::NothingDecided => "nothing to undo",
            Refusal::OutputShort => "the output is too short for the longest answer",
            Refusal::Decision =>
                "a decision's five bits are not zero, or a single byte is left over",
            Refusal::SheetShort => "the output is too short for the whole clause sheet",
            Refusal::Turning => "the number of a turning is above 7",
            Refusal::RecordOutputShort =>
                "the output is shorter than the record that is to be written",
            Refusal::Edition => "an edition that is not 1 or 2",
            Refusal::Player => "a player above 3",
            Refusal::UnequalHeights => "the two records are not of equal height",
            Refusal::TooWide => "the joined leaf would be wider than 32",
            Refusal::Tail =>
                "what stands behind the record is not a grade and a solution with zero filler",
            Refusal::Unfinished => "the solution is not finished in the edition",
            Refusal::Sizes => "a list of sizes that may not stand",
            Refusal::CertificateLength => "the certificate is not whole words, or has too many",
            Refusal::NoSolutionStep =>
                "the certificate does not begin with the step of a claimed solution",
            Refusal::SolutionUnfinished => "the claimed solution is not finished",
            Refusal::StepCut => "a step is not whole",
            Refusal::NotALiteral =>
                "a step has more literals than the leaf has cells, or a word that is none of its literals",
            Refusal::Hint =>
                "a hint is not the place of an earlier step, decides no cell, or is false before the last hint",
            Refusal::NotClosed => "a step does not close",
            Refusal::CertificateEnd =>
                "the certificate ends without the step of no literals, or something follows it",
        })
    }
}

/// What an exported call returns: a count, or the negated number of a refusal. It is no `From`, which could not ask that an `i32` holds the count.
pub fn returned(answer: Result<usize, Refusal>) -> i32
    requires { ForOk answer (λ n. n < 2 ^ 31) }
    ensures { result ≡ returned_of answer }
{
    match answer {
        Ok(n) => n as i32,
        Err(refusal) => -i32::from(refusal.number()),
    }
}
