ghost use Rattle.std.specs.Prelude.{◌≡◌};
ghost use Rattle.source_verdicts.specs.Verified.{unwritten_for};

use stored_text::StoredFail;
use verdicts::Verdict;

/// The answer where a text is not written. Writing fails for no form.
pub(crate) fn unwritten(fail: StoredFail) -> Verdict
    ensures { result ≡ unwritten_for fail }
{
    match fail {
        StoredFail::Over(number, count) => Verdict::Over(number, count),
        StoredFail::Format(_) | StoredFail::Memory => Verdict::NoMemory,
    }
}
