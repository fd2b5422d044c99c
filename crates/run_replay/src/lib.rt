//! Replays of typed trees that break no rule: a machine that is made once, and then runs the tree on any inputs, again and
//! again, without taking memory.
#![tactic(auto)]

mod entries;
mod laws;
mod runs;

pub use laws::orders_agree;
pub use runs::Replay;
pub use slot_code::Ending;
