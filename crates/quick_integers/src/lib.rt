//! The arithmetic of C's integer kinds for code that runs often: what lv_base gives, with no division of 128 bits where none
//! is needed.
#![tactic(auto)]

mod arithmetic;
mod bounds;
mod quotients;

pub use arithmetic::{arith, convert};
pub use bounds::{greatest, in_range, least};
pub use quotients::{cut_quotient, cut_remainder};
