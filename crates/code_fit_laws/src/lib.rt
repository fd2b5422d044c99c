//! The flat code of a typed program passes each test under which graphs are made of it: its instructions fit their objects, each goes on
//! within its function's code and fills that function's slots, and each call is of a function that stands below its caller. Each law is the
//! contract of a function that does nothing: a caller cites what it ensures.
#![tactic(auto)]

ghost use Rattle.code_fit_laws.specs.Fit.{CallsAreEntries, CallsBegin, CodeIsFit, CodeKeeps, RangesAreOf, RangesAreThere, TypedCodePasses};

/// Constants of a typed program's code are of some kind, its operations are in promoted kinds, and kinds and counts are those of its
/// objects.
pub fn code_is_fit()
    ensures { CodeIsFit }
{}

/// Each call of a program's code goes to the entry of a function.
pub fn calls_are_entries()
    ensures { CallsAreEntries }
{}

/// Each instruction of a function goes on within its code, and fills a slot of it.
pub fn code_keeps()
    ensures { CodeKeeps }
{}

/// Each call is of a function whose code and slots lie below those of its caller, and nothing reads the slot by which it returns.
pub fn calls_begin()
    ensures { CallsBegin }
{}

/// Each function that stands in an order once has a range, by its number.
pub fn ranges_are_there()
    ensures { RangesAreThere }
{}

/// There are no other ranges.
pub fn ranges_are_of()
    ensures { RangesAreOf }
{}

/// So the code of a typed program passes all tests.
pub fn typed_code_passes()
    ensures { TypedCodePasses }
{}
