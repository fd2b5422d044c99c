//! The law of trees of height at most 200: the machine that reads the tokens of a source goes on only while such a tree begins
//! with them, so where it stops is said without it.
#![tactic(auto)]

ghost use Rattle.low_beginning_laws.specs.Laws.{HasLowTree, HasOneStop, StopsFirst};

/// Some shaped tree of height at most 200 begins with the tokens that the machine reads without stopping.
pub fn low_beginnings()
    ensures { HasLowTree }
{}

/// Where the machine stops is the first token up to which no shaped tree of height at most 200 begins; it answers the limit where
/// a higher one begins, and a fault where none begins.
pub fn first_stops()
    ensures { StopsFirst }
{}

/// Of some tokens one at most is the first up to which no shaped tree of height at most 200 begins.
pub fn one_stop()
    ensures { HasOneStop }
{}
