//! Steps of a block's code, found in a graph's edges. A place in the edges is a [`Cursor`]; a call that finds its step promises that,
//! where the graph has a code from behind the step on, it has the step and that code from before it; and that where the edge is one of
//! that code's, it is one of both together.
#![tactic(auto)]

mod cursor;
mod sides;
mod steps;
mod tests;

pub use cursor::{Cursor, Fork, Side, ends, find_branch, find_side, leads_from};
pub use sides::{are_sides, is_plain};
pub use steps::{adds, assumes, is_test, sets, stores};
pub use tests::Test;
