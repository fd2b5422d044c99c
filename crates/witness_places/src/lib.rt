//! Where in a source its witnesses speak of: the loops in the body of `main`, and the function around a token.
#![tactic(auto)]

mod functions;
mod loops;

pub use functions::function_around;
pub use loops::{LoopPlace, main_loops};
