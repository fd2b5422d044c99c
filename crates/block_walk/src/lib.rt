//! Walks along the places of blocks: what a graph of blocks has is compared with what the rule says, operation by operation.
//!
//! A walk keeps what the rule keeps between two places, and a place in the edges of the graph of blocks ([`walk_states`]). Here are the
//! branches on checks and on the places that wait, and the ways out of places. A call that goes on promises that, where the graph has a
//! code from the new place on, it has from the old one on what the rule puts before that code.
#![tactic(auto)]

mod branches;
mod places;

pub use places::block;
