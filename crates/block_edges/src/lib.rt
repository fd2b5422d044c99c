//! When a graph of blocks has nothing that the graph which it was made of has not.
//!
//! That a graph has a block's code says nothing of other edges at the same nodes. Here an edge is one of the code's, and a block is exact
//! where each edge is. What this means for runs, `block_back_laws` says.
#![tactic(auto)]

ghost use Rattle.block_edges.specs.Covering.{ComplementsCover};

/// Of a term of width 1 and its complement one is 1 in each whole store.
pub fn complements_cover()
    ensures { ComplementsCover }
{}
