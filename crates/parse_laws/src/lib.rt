//! The laws of the machine that reads the tokens of a source, over all lists of tokens and all trees.
#![tactic(auto)]

ghost use Rattle.parse_laws.specs.Laws.{IsSound, IsComplete, IsUnique, StopsRightly};

/// A tree that the machine answers is shaped, and its tokens are those that were read, by kind and offset.
pub fn soundness()
    ensures { IsSound }
{}

/// Each shaped tree of height at most 200 is answered for its tokens.
pub fn completeness()
    ensures { IsComplete }
{}

/// One list of tokens has at most one shaped tree of height at most 200.
pub fn uniqueness()
    ensures { IsUnique }
{}

/// A refusal, or the limit on the height, comes only where no shaped tree of height at most 200 begins with the tokens
/// up to there.
pub fn refusals()
    ensures { StopsRightly }
{}
