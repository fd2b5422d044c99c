//! Clause learning: every answer is an assignment, a lean refutation, or a log of new clauses.
//!
//! The search is that of J. Marques-Silva and K. Sakallah (GRASP, 1999), with watched literals (M. Moskewicz and others,
//! Chaff, 2001), first unique implication points, learned clauses without the literals that the others imply, decisions by
//! activity with saved signs, and restarts. Clauses are never deleted, and nothing is preprocessed.
#![tactic(auto)]

mod board;
mod choosing;
mod engine;
mod joining;
mod learning;
mod opening;
mod pacing;

pub use board::{Board, Settled, Stop, go_back, settle};
pub use clause_learning::{Answer, MOST_PAIRS, QueryFail, SolveFail};
pub use engine::{Ending, Solver, Turn, solve, solve_within};
pub use joining::join_learned;
pub use learning::{Highest, add_watch, what_to_watch};
pub use opening::{Watches, set_units, watch_all};
pub use pacing::{Pace, paced};
