//! The one `main` of a source that breaks no rule.
#![tactic(auto)]

ghost use Rattle.elaboration_main_laws.specs.Laws.{MainFound};

/// The typed tree of a source that breaks no rule of names, types, calls, constants and cases has exactly one function `main`,
/// without parameters and with the result `int`.
pub fn main_found()
    ensures { MainFound }
{}
