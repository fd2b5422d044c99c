//! Clause learning: every answer is an assignment, a lean refutation, or a log of new clauses.
//!
//! The search is that of J. Marques-Silva and K. Sakallah (GRASP, 1999) with the first unique implication points of
//! L. Zhang and others (Efficient Conflict Driven Learning, 2001). Propagation scans all clauses: this is the plain
//! body, behind contracts that the fast one meets too; tests run both on the same clauses.
#![tactic(auto)]

mod analysis;
mod engine;
mod known;
mod scan;
mod trail;

pub use analysis::{Analysis, analyze};
pub use engine::{Ending, Solver, Stop, Turn, solve, solve_within};
pub use known::Known;
pub use trail::{Found, Look, Trail};
