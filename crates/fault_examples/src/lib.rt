//! Small sources and the rule that each breaks first, as the definitions of the meaning of C name it. The public function has an empty
//! body: it stands for the law that its contract is.
#![tactic(auto)]

ghost use Rattle.fault_examples.specs.Rows.{BrokenLines};

/// The rule that each source breaks first, with its offset: no `main`, an unknown name, a name declared twice, a call without a body,
/// a length of 0, an unknown label, a jump into a scope, a `const` that is written, a `break` outside, an unsequenced change, recursion.
pub fn broken_lines()
    ensures { BrokenLines }
{}
