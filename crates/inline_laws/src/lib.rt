//! Runs over the graphs of functions are runs of the one graph in which each call is a copy.
//!
//! A run that stands in a function, with calls that are open, stands in a copy of that function which goes on where the innermost
//! call does, and so on to `main`. So a run that ends at an error node has a run of the one graph to that error, with the same values,
//! and an inductive map on the one graph tells of the functions' runs.
#![tactic(auto)]

ghost use Rattle.inline_laws.specs.Following.{InlinedMapMeansSafe, InlinedRunsFollow};

/// A run over functions that ends at an error node has a run of the graph with its calls inlined: it draws the same values and ends at
/// an error node of the same kind and offset.
pub fn inlined_runs_follow()
    ensures { InlinedRunsFollow }
{}

/// With an inductive map on the graph that `inline` answers, no run over functions ends at an error node.
pub fn inlined_map_means_safe()
    ensures { InlinedMapMeansSafe }
{}
