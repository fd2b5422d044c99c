//! Unwindings: trees of paths whose vertices cover each other, with a journal of the units that made them.
#![tactic(auto)]

mod covering;
mod look_up;
mod pairs;
mod paths;
mod refinement;
mod settling;
mod unit;
mod unwinding;
mod waiting;

pub use paths::{Path, PathEdges, PathVertices};
pub use unit::{Apart, FormulaList, UnitDone};
pub use unwinding::Unwinding;
