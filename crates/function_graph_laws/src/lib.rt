//! Function graphs that follow a program's code keep the facts of function graphs: edges fit, nodes from which a run goes on have an
//! edge, calls are of functions that are there. Each law is the contract of a function that does nothing: a caller cites what it
//! ensures.
#![tactic(auto)]

ghost use Rattle.cfg_build.specs.Passing.{FollowingMakesFlows};
ghost use Rattle.function_graph_laws.specs.Laws.{GraphsAreOfTrees};

/// Graphs that follow a program's code, of which no number passes its bound, make function graphs.
pub fn following_makes_flows()
    ensures { FollowingMakesFlows }
{}

/// The graphs of a program's functions are those of its typed tree and of the order of its functions, wherever the tree lies in memory.
pub fn graphs_are_of_trees()
    ensures { GraphsAreOfTrees }
{}
