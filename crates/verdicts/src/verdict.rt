ghost use Rattle.std.specs.Prelude.{◌≡◌};
ghost use Rattle.verdicts.specs.Lines.{status_of};

use crate::rejection::Rejection;
use crate::values::Values;
use lv_base::{ErrorKind, Place, SourceFault, Text};

/// What is answered to a check or to a verification, with all that its line, its report and its files say.
#[derive(Drop)]
pub enum Verdict {
    /// No inputs reach an error, by the certificate of this text.
    Safe(Text),
    /// These values reach an error of this kind at this place; the text is that of their run file.
    Unsafe(ErrorKind, Place, Values, Text),
    /// So many units were made, and leaves are open.
    OutOfUnits(u64),
    /// So many clauses were learned of one question, and it has no answer.
    OutOfLearn(u64),
    /// The certificate is accepted.
    Accepted,
    /// The certificate is rejected.
    Rejected(Rejection),
    /// The source is refused for this fault.
    Faulty(SourceFault, Place),
    /// A limit was passed, by its number, with the count.
    Over(u8, u64),
    /// A file could not be read.
    ReadFault,
    NoMemory,
}

/// The status that goes with an answer whose line was printed.
pub fn status(verdict: &Verdict) -> u8
    ensures { result ≡ status_of verdict.now }
{
    match verdict {
        Verdict::Safe(_) => 0,
        Verdict::Unsafe(_, _, _, _) => 1,
        Verdict::OutOfUnits(_) => 2,
        Verdict::OutOfLearn(_) => 2,
        Verdict::Accepted => 0,
        Verdict::Rejected(_) => 3,
        Verdict::Faulty(_, _) => 11,
        Verdict::Over(_, _) => 12,
        Verdict::ReadFault => 13,
        Verdict::NoMemory => 15,
    }
}
