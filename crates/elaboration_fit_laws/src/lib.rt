//! What the rules of names, types and calls leave to the typed tree of a source.
#![tactic(auto)]

ghost use Rattle.elaboration_fit_laws.specs.Known.{KnownHold};
ghost use Rattle.elaboration_fit_laws.specs.Laws.{ExpressionsFit};
ghost use Rattle.elaboration_fit_laws.specs.Whole.{SourcesFit};

/// An expression that breaks no rule of names, types, calls and constants fits: each call has its function, each index its
/// array, and what is written is an object. No name in it is to be that of a prototype's parameter, and what means something
/// without a body is to take no arguments.
pub fn expressions_fit()
    ensures { ExpressionsFit }
{}

/// A source that breaks no rule of names, types, calls, constants and cases fits, so that its typed tree runs as it does and
/// breaks the rules of jumps, effects and calls where it does. What scopes and offsets say of its names, lengths and initial
/// values is to hold.
pub fn sources_fit()
    ensures { SourcesFit }
{}

/// Where no name is declared against the rules, what means something without a body takes no arguments and has no body.
pub fn known_hold()
    ensures { KnownHold }
{}
