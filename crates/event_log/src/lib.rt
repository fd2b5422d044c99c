//! What happened in a run, event by event: the last of them are kept, and of the others how many there were.
#![tactic(auto)]

mod event;
mod log;

pub use event::Event;
pub use log::Log;
