//! The code of values, as instructions over numbered slots: what each value of a typed tree becomes, and the calls in it.
#![tactic(auto)]

mod linking;
mod pieces;
mod scene;
mod values;

pub use linking::Links;
pub use pieces::{add, after, distance, next};
pub use scene::{Link, Scene, Usage, count_of, link_of};
pub use values::{add_value, add_values, value_code};
