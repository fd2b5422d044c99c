//! What the expressions of a typed tree write and read, and where two of their effects are not sequenced (C11 6.5 p2).
#![tactic(auto)]

mod clashes;
mod effects;
mod laws;
mod marks;
mod touched;

pub use clashes::{clash, has};
pub use effects::{Effects, value_effects};
pub use laws::effects_summed;
pub use marks::effects_found;
