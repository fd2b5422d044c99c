//! The nodes of the typed tree's values, made of the nodes of their parts: constants, names, operators, calls.
#![tactic(auto)]

mod calls;
mod known;
mod names;
mod nodes;
mod operators;
mod parts;

pub use calls::{called_name, parameter_kind, parameters_of};
pub use known::{Known, known_of};
pub use names::{kind_at, named_value, or_first};
pub use nodes::{cast, changed, choice, constant, converted, number_of, object_target, size};
pub use operators::{assigned, binary, prefixed};
pub use parts::{changed_before, comma, indexed, indexed_target};
