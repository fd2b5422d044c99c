//! The check of a certificate by workers that run beside each other.
//!
//! Each worker claims obligations, one by one, from two words that all share, and checks their logs. It reports the first that
//! fails and ends; it also ends where its number is above the lowest one that was reported. Whatever the schedule, the answer is that
//! of one worker: the lowest obligation that fails, or that none does.
#![tactic(auto)]

mod beside;
mod verdict;
mod worker;

pub use beside::check_beside;
