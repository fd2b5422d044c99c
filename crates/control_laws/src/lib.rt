//! What the typed tree of a source keeps of its rules.
#![tactic(auto)]

ghost use Rattle.control_laws.specs.Laws.{SameControl, SameJumps};

/// The typed functions of a source break the rules of labels, of jumps into scopes and of misplaced jumps exactly where the
/// functions of the source do, whatever other rules the source breaks.
pub fn same_jumps()
    ensures { SameJumps }
{}

/// The typed tree of a source breaks the rules of labels, jumps, effects that are not sequenced, and calls that lead back to
/// their caller, exactly where the source does, at the same tokens in the same order. What is written is to be an object, an
/// initial value is to belong to one, and what means something without a body is to have none, as the rules of names, types
/// and calls want it.
pub fn same_control()
    ensures { SameControl }
{}
