//! The rule by which everything between two cut points of a graph becomes one edge of guarded operations, as a definition by meaning.
//!
//! **The code of a block** is what leads out of its first place: what is done in order, branches, and the places it ends at. It is
//! found by going over the block's places in order, with those that wait, each under its guard, and the checks that may have failed.
//! A guard is a bit: 1 where nothing else waits, else a saved cell that is 1 where the run waits at the place. A place adds its
//! operations through its guard, sets the cell of each place that it leads to, and the cell of each check. Before a value is drawn,
//! and at the block's end, one branch asks whether a check failed, and the first in the order of places that did is the one that
//! happened. At the end the places that still wait are branches in the order of their numbers.
//!
//! All is said by what terms are worth in a store, so no definition names how terms are put or made simpler. Where the plan of a
//! block breaks the rule, its code is refused, and no graph has it.
#![tactic(auto)]
