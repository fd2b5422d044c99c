//! Each value of a typed tree is one of its kind, and so are the values of its objects: so its arithmetic meets operands of its
//! kinds alone, its objects get values of theirs, what it assigns to is an element that is there, and its switches compare values of
//! one kind.
#![tactic(auto)]

ghost use Rattle.typed_range_laws.specs.Laws.{RunsAgreeing, RunsEachWay, RunsGuarded};

/// A typed tree runs the same with each arithmetic that is C's on operands of the kinds.
pub fn runs_agreeing()
    ensures { RunsAgreeing }
{}

/// A typed tree runs the same, too, in each way to keep values in objects, to pick elements and to tell cases that does as C where
/// values are of the kinds and indices are below the sizes.
pub fn runs_each_way()
    ensures { RunsEachWay }
{}

/// A typed tree runs the same where each operation tests its operands first.
pub fn runs_guarded()
    ensures { RunsGuarded }
{}
