//! What the answers mean, each law as the contract of a function that does nothing.
ghost use Rattle.request_answers.specs.Laws.{AcceptedIsCertified, AcceptedIsExact, ChecksAgree, SafeIsAccepted, SafeIsProved, UnsafeReaches, ZeroIsCertified};

/// A certificate is accepted only where the source is secure, and with what makes its graph safe.
pub fn accepted_is_certified()
    ensures { AcceptedIsCertified }
{}

/// A source is called safe only where it is secure, and with a certificate that is accepted.
pub fn safe_is_proved()
    ensures { SafeIsProved }
{}

/// The status 0 comes only of a source that is secure: it has a graph that stands for it, no run of which meets an error.
pub fn zero_is_certified()
    ensures { ZeroIsCertified }
{}

/// A source is called unsafe only with values that reach the error.
pub fn unsafe_reaches()
    ensures { UnsafeReaches }
{}

/// A check accepts the bytes that it has to accept, and no others, unless memory runs out or the host refuses to read.
pub fn accepted_is_exact()
    ensures { AcceptedIsExact }
{}

/// What a verification calls safe, each check of the same source by the text that was written accepts.
pub fn safe_is_accepted()
    ensures { SafeIsAccepted }
{}

/// Two checks of the same bytes against the same source have one answer, unless memory runs out or the host refuses to read.
pub fn checks_agree()
    ensures { ChecksAgree }
{}
