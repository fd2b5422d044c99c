//! What it means that a certificate is accepted, and that a check has one answer, each law as the contract of a function that does nothing.
#![tactic(auto)]

ghost use Rattle.cert_check_laws.specs.Laws.{AcceptedIsInductive, AcceptedIsNotRefused, AcceptedIsSafe, CheckIsUnique};

/// Where a certificate is accepted, the map that it stores is inductive.
pub fn accepted_is_inductive()
    ensures { AcceptedIsInductive }
{}

/// Where a certificate is accepted, no graph run reaches an error node.
pub fn accepted_is_safe()
    ensures { AcceptedIsSafe }
{}

/// A certificate that may be accepted is refused for nothing but want of memory.
pub fn accepted_is_not_refused()
    ensures { AcceptedIsNotRefused }
{}

/// Two checks of what one certificate says, against one graph, answer the same, want of memory aside. So neither the number of workers nor
/// their schedule changes an answer.
pub fn check_is_unique()
    ensures { CheckIsUnique }
{}
