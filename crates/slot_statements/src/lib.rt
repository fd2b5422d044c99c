//! The code of statements, as instructions over numbered slots: how many instructions each statement of a typed tree has, the
//! places in it that are jumped to, and its code.
#![tactic(auto)]

mod branches;
mod cases;
mod frames;
mod joints;
mod labels;
mod marks;
mod measures;
mod sizes;
mod steps;

pub use frames::{Aims, Exits, Frame};
pub use labels::Labels;
pub use marks::{Mark, Name};
pub use measures::Measure;
pub use sizes::measured_all;
pub use steps::{step_code, steps_code};
