//! Runs to errors and to loops stay in the graph of a graph's blocks, and where chains of edges become one edge each.
//!
//! What a graph of blocks and joined chains are, `block_rule` and `edge_chains` say; here is what their laws mean for errors that some
//! run meets, and for loops that some run visits.
#![tactic(auto)]

ghost use Rattle.join_laws.specs.Keeping.{BlocksKeep, ChainsKeep};
ghost use Rattle.join_laws.specs.Visits.{BlocksKeepLive, BlocksKeepLoops, ChainsKeepLoops, PlansMarkNeeded};

/// Each error that a run of a graph meets, a run of the graph of its blocks meets, with the same values.
pub fn blocks_keep()
    ensures { BlocksKeep }
{}

/// Each error that a run of a graph meets, a run of the graph with joined chains meets, with the same values.
pub fn chains_keep()
    ensures { ChainsKeep }
{}

/// Each visit of a loop by a run of a graph, a run of the graph of its blocks makes, with the same values, and the same in each cell that
/// is needed there.
pub fn blocks_keep_loops()
    ensures { BlocksKeepLoops }
{}

/// And the same in each cell that the plan says to be read from there on.
pub fn blocks_keep_live()
    ensures { BlocksKeepLive }
{}

/// Each cell that is needed at a loop to which some run comes is one that the plan says to be read from there on.
pub fn plans_mark_needed()
    ensures { PlansMarkNeeded }
{}

/// Each visit of a loop by a run of a graph, a run of the graph with joined chains makes, with the same values and the same store.
pub fn chains_keep_loops()
    ensures { ChainsKeepLoops }
{}
