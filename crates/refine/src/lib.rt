//! What the method asks the solver: whether a path to an error has a run, and whether one label implies another. An error
//! without a run strengthens its path by formulas (K. McMillan, Lazy Abstraction with Interpolants, 2006).
#![tactic(auto)]

mod answers;
mod leaf;
mod reading;
mod settling;
mod values;
mod witnesses;

pub use answers::{Refined, Settled, Values};
pub use leaf::refine_leaf;
pub use settling::{settle, settle_with};
pub use values::drawn_values;
pub use witnesses::Witnesses;
