//! The rules of names, types, calls, constants and cases that the declarations and statements of a source break, summed up in
//! one walk over its tree.
#![tactic(auto)]

mod cases;
mod declarations;
mod items;
mod laws;
mod statements;

pub use cases::{Case, cases_of, duplicates};
pub use items::items_found;
pub use laws::items_summed;
