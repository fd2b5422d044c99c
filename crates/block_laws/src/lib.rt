//! Runs to errors and to loops stay when everything between two cut points becomes one edge of guarded operations.
//!
//! The run is followed place by place. It waits at one place, whose guard is 1, and every other guard is 0; the stores agree on the
//! cells that are read from there on before they are set; and the first check whose cell is 1 is the one that failed.
#![tactic(auto)]

ghost use Rattle.block_laws.specs.Keeping.{BlockedMapMeansSafe, BlocksKeepErrors, BlocksKeepVisits};
ghost use Rattle.block_laws.specs.Testing.{ComplementsExclude, ReadsTell};

/// A run to an error node has a run of the graph of blocks to the same error node, with the same values.
pub fn blocks_keep_errors()
    ensures { BlocksKeepErrors }
{}

/// A run to a cut point that is alive has a run of the graph of blocks to the same node, with the same values, and the same in each cell
/// that is read from there on.
pub fn blocks_keep_visits()
    ensures { BlocksKeepVisits }
{}

/// With an inductive map on the graph of blocks, no run of the graph itself reaches an error node.
pub fn blocked_map_means_safe()
    ensures { BlockedMapMeansSafe }
{}

/// The cells that terms are said to read are all that they read, where each is said to read its own and those of its operands.
pub fn reads_tell()
    ensures { ReadsTell }
{}

/// A term of width 1 and its complement are never both 1.
pub fn complements_exclude()
    ensures { ComplementsExclude }
{}
