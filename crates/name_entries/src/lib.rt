//! The entry of each kind of declaration, and the object that it makes.
#![tactic(auto)]

mod declaring;
mod lengths;
mod objects;
mod places;

pub use declaring::{
    declare_constant, declare_function, declare_name, declare_tag, declare_typedef,
};
pub use lengths::object_length;
pub use objects::{declare_object, declare_parameter};
pub use places::{Named, Region};
