//! A run over functions that stands in main, with no call open, has its run of the graph in which each call is a copy, to the same node of
//! main's copy. The law is the contract of a function that does nothing: a caller cites what it ensures.
#![tactic(auto)]

ghost use Rattle.inline_visit_laws.specs.Spots.{InlinedSpotsFollow};

/// A run over functions to a node of main, where no call is open, has a run of the graph with the copies to that node's number in the copy
/// of main, in the same store, which draws the same values.
pub fn inlined_spots_follow()
    ensures { InlinedSpotsFollow }
{}
