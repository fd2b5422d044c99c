//! The verdict on a source: its graph is explored, and a complete unwinding's certificate is made and written, or the values of a path to
//! an error are replayed.
#![tactic(auto)]

mod certifying;
mod found;
mod laws;
mod replaying;
mod unwritten;
mod verifying;

pub use found::Found;
pub use laws::written_is_accepted;
pub use verifying::{Budget, verify};
