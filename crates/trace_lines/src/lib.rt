//! The lines of a run that was followed: each event with its place and the names of the source, and what ended the run, with the line
//! of the source where it stands.
#![tactic(auto)]

mod endings;
mod events;
mod excerpts;
mod pairing;
mod scene;

pub use endings::ending_lines;
pub use events::event_lines;
pub use pairing::paired;
pub use scene::Scene;
