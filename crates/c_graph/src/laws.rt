//! Laws of graphs. Each is the contract of a function that does nothing: a caller cites what it ensures.
ghost use Rattle.c_graph.specs.Runs.{InductiveMeansSafe};

/// With an inductive map, no graph run reaches an error node.
pub fn inductive_means_safe()
    ensures { InductiveMeansSafe }
{}
