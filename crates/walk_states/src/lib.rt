//! What a walk along the places of a block keeps, and where a place leads: who waits, which checks may have failed, whether a run may
//! have been lost, the next saved cell, and a place in the edges of the graph of blocks.
//!
//! A call that goes on compares that graph with what the rule says, operation by operation, and promises that, where the graph has a code
//! from the new place on, it has from the old one on what the rule puts before that code.
#![tactic(auto)]

mod known;
mod leading;
mod lists;
mod state;

pub use known::{Known, guard_for, is_cut, matters};
pub use leading::{checked, leads, saved};
pub use lists::{found, no_bads, no_waits, without};
pub use state::{Failing, Place, Stop, Waiting, Walk, Way, Ways};
