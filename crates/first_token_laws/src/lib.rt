//! The laws of the token at which a source is refused: it is the first up to which no shaped tree begins, which is said
//! without the machine that finds it.
#![tactic(auto)]

ghost use Rattle.first_token_laws.specs.Laws.{FaultsFirst, HasOneFirst, HasOneTree, IsViable, LimitsRightly};

/// Some shaped tree begins with the tokens that the machine reads without stopping.
pub fn viable_tokens()
    ensures { IsViable }
{}

/// A fault is at the first token up to which no shaped tree, of whatever height, begins.
pub fn first_refusals()
    ensures { FaultsFirst }
{}

/// Of some tokens one at most is the first that is refused.
pub fn one_first()
    ensures { HasOneFirst }
{}

/// The limit on the height is passed only where some shaped tree begins with the tokens up to there, and each such tree is
/// higher than 200.
pub fn limits()
    ensures { LimitsRightly }
{}

/// Two shaped trees with the same tokens are equal, whatever their heights.
pub fn one_tree()
    ensures { HasOneTree }
{}
