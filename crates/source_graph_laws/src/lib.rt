//! The graph that is made of a program stands for it: each run of the program that ends in an error has a run of the graph to that error, and
//! each run of the graph to an error is one of the program.
//!
//! A run of the typed tree is one of its flat code; that goes over the graphs of functions, instruction by instruction; that goes over
//! the one graph in which each call is a copy; and that goes over the graph of its blocks. The way back is the same.
#![tactic(auto)]

ghost use Rattle.source_graph_laws.specs.Laws.{InlinedGraphsStand, JoinedGraphsStand};

/// The graph with all calls inlined has the errors of the program whose code its function graphs follow, and no others.
pub fn inlined_graphs_stand()
    ensures { InlinedGraphsStand }
{}

/// A graph that has the errors of that graph, and no others, stands for the program.
pub fn joined_graphs_stand()
    ensures { JoinedGraphsStand }
{}
