//! The proof of a map's obligations by workers that run beside each other.
//!
//! Each worker claims obligations, one by one, from two words that all share, and asks the solver for a refutation. It reports the first
//! that has none and ends; it also ends where its number is above the lowest one that was reported. What they found is put together in the
//! order of the obligations, as one worker would have found it; what nobody looked at, for want of memory say, is asked about then.
#![tactic(auto)]

mod beside;
mod worker;

pub use beside::prove_beside;
