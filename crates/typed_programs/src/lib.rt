//! The typed tree of a whole source: its objects with the values that they begin with, and its functions.
#![tactic(auto)]

mod functions;
mod names;
mod objects;
mod programs;
mod values;

pub use functions::{parameter_numbers, typed_functions};
pub use names::names_of;
pub use objects::typed_objects;
pub use programs::{Program, elaborated, typed_program};
pub use values::{initial_of, initial_values};
