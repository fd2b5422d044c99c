//! Runs to errors and to loops stay when chains of edges become one edge each.
#![tactic(auto)]

ghost use Rattle.edge_chain_laws.specs.Keeping.{ChainsKeepErrors, ChainsKeepVisits};

/// A run to an error node has a run of the graph with joined edges to the same error node, with the same values and the same store.
pub fn chains_keep_errors()
    ensures { ChainsKeepErrors }
{}

/// A run to the node of a loop has a run of the graph with joined edges to the same node, with the same values and the same store.
pub fn chains_keep_visits()
    ensures { ChainsKeepVisits }
{}
