//! Decision diagrams of formulas over bits of cells (R. Bryant, Graph-Based Algorithms for Boolean Function Manipulation,
//! 1986): each formula as the choices that its bits make, in one order, high bits first, then by cells. Equal formulas get
//! one number, and true and false are found wherever a formula is one of them.
//!
//! What is promised is each number's truth in each store. That equal formulas get one number is what the tables of nodes are
//! for; what they find is looked at before it is used, so no proof rests on them.
#![tactic(auto)]

mod arena;
mod fails;
mod items;
pub mod laws;
mod pairs;
mod recall;
mod steps;
mod writing;

pub use arena::Diagrams;
pub use fails::DiagramFail;
pub use items::{BitOf, NodeId};
