//! Joins everything between two cut points of a graph into one edge of guarded operations, with one branch for its failed checks
//! and one for each way out.
//!
//! What a place, a cut point, a block and a sure place are, [`block_plan`] says, and [`block_emission`], what the edges of a block are.
//!
//! Which graph is made, a definition says, but for what the test answers. What was made is tested ([`block_follow`]): where it has the
//! blocks that the rule says and no more, its runs meet the errors that runs of the first graph meet, and chains of its edges become one
//! edge each ([`edge_chains`]); where it has not, chains of the first graph's edges are joined instead, and where these make no graph, the
//! first graph is the answer. So runs of the answer meet the errors that runs of the first graph meet, with the same values, and no others,
//! along paths that have an edge of the answer for as many edges as the first graph has nodes, or fewer.
#![tactic(auto)]

mod chains;
mod join;
mod live;

pub use join::{Joined, join_blocks, join_blocks_live};
pub use live::LiveCells;
