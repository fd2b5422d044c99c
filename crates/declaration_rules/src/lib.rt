//! The rules of names that are declared twice, and of `main`: what the declarations of a source break, found in the order in
//! which they stand.
#![tactic(auto)]

mod agreement;
mod doubles;
mod earlier;
mod laws;
mod mains;

pub use agreement::agree;
pub use doubles::{offsets, redeclared, summed};
pub use laws::{main_told, twice_told};
pub use mains::main_found;
