//! The bottom of lazic: the integer kinds of C with their arithmetic, the names of errors and faults, small texts, and
//! places in a source.
#![tactic(auto)]

mod arithmetic;
mod fail;
mod fault;
mod kind;
mod place;
mod text;

pub use arithmetic::{arith, convert, in_range, width};
pub use fail::{Memory, SourceFail};
pub use fault::{ErrorKind, SourceFault};
pub use kind::{Kind, Model, Op};
pub use place::{Place, place_of};
pub use text::Text;

#[cfg(test)]
mod tests;
