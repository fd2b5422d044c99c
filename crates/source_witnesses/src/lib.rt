//! The witnesses of verdicts on sources: that a source is safe, by the map that makes it safe, and that it reaches an error.
#![tactic(auto)]

mod correct;
mod stamp;
mod violated;

pub use correct::safe_witness;
pub use stamp::Stamp;
pub use violated::unsafe_witness;
