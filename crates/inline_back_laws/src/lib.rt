//! A run of the graph with the calls inlined that ends at an error node is a run over functions, and so a run of the program. Each law is
//! the contract of a function that does nothing: a caller cites what it ensures.
#![tactic(auto)]

ghost use Rattle.inline_back_laws.specs.Back.{InlinedErrorsComeBack, InlinedRunsComeBack, MetErrorsComeBack};

/// A run to an error node is a run over functions to this error, with a move for each edge.
pub fn inlined_runs_come_back()
    ensures { InlinedRunsComeBack }
{}

/// Where the inlined graph meets an error, a run over functions does.
pub fn met_errors_come_back()
    ensures { MetErrorsComeBack }
{}

/// Each run to an error node is a run of the typed program to this error, with at least as many turns as it has edges, and with inputs
/// that begin with what it draws.
pub fn inlined_errors_come_back()
    ensures { InlinedErrorsComeBack }
{}
