//! Runs along joined edges are runs of the graph whose chains of edges were joined.
//!
//! A joined edge is an edge of the graph with all that follows it along nodes whose edge is the only one, so a run along it is a run along
//! these edges, one after the other.
#![tactic(auto)]

ghost use Rattle.edge_chain_back_laws.specs.Returning.{ChainErrorsComeBack, ChainPathsComeBack, ChainsComeBack, OwnPathsComeBack};

/// A run along joined edges has a run of the graph to the same node, with the same values and the same store.
pub fn chains_come_back()
    ensures { ChainsComeBack }
{}

/// Each error that a run along joined edges meets, a run of the graph meets, with the same values.
pub fn chain_errors_come_back()
    ensures { ChainErrorsComeBack }
{}

/// And along a path that goes over each node of a chain once.
pub fn chain_paths_come_back()
    ensures { ChainPathsComeBack }
{}

/// The paths of a graph itself cost no more than all nodes for each edge.
pub fn own_paths_come_back()
    ensures { OwnPathsComeBack }
{}
