//! The laws of trees that are higher than the limit: the machine that reads the tokens of a source answers each of them by
//! the limit on the height, never by a fault. So a fault means that the tokens begin no tree at all, and a tree that is
//! answered is the only one.
#![tactic(auto)]

ghost use Rattle.high_tree_laws.specs.Laws.{FaultsRightly, IsTheOnly, IsTooHigh};

/// A shaped tree that is higher than 200 is answered by the limit on the height.
pub fn too_high()
    ensures { IsTooHigh }
{}

/// A fault comes only where no shaped tree, of whatever height, begins with the tokens up to it.
pub fn faults()
    ensures { FaultsRightly }
{}

/// A tree that is answered is at most 200 high, and no other shaped tree, of whatever height, has its tokens.
pub fn the_only()
    ensures { IsTheOnly }
{}
