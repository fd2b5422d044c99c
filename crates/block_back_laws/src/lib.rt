//! Runs to errors of a graph of blocks are runs of the graph that it was made of, where it has nothing that this one has not.
//!
//! A run of the graph of blocks through a block is a run of the block's code, and the code is followed place by place. The run of the
//! graph stands at one place that waits, whose guard is 1, and goes on from there by what the tests are worth in the store; or a check
//! has failed, and the first whose cell is 1 is the run's error; or the run went where no error is reached, and then no guard is 1 and
//! the code does not end.
#![tactic(auto)]

ghost use Rattle.block_back_laws.specs.Returning.{BlockErrorsComeBack, BlockPathsComeBack, BlocksComeBack};

/// A run of the graph of blocks to an error node has a run of the graph to the same error node, with the same values.
pub fn blocks_come_back()
    ensures { BlocksComeBack }
{}

/// Each error that a run of the graph of blocks meets, a run of the graph meets, with the same values.
pub fn block_errors_come_back()
    ensures { BlockErrorsComeBack }
{}

/// And along a path that has at most as many edges as the run of the graph of blocks costs, where the node of each block weighs as many
/// as it has places.
pub fn block_paths_come_back()
    ensures { BlockPathsComeBack }
{}
