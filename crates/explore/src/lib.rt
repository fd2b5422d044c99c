//! Lazy abstraction with interpolants (K. McMillan, 2006): an unwinding of a graph is expanded, refined and covered, one unit
//! after the other, until it is complete, an error has a run, or a budget is spent.
//!
//! The strategy: the open leaf of highest number is taken. At an error its path is refined, and then the pairs of each uncovered
//! vertex of the path are settled, from the root down. Elsewhere the pairs with the vertices of its node that are numbered
//! lower are settled, rising, until one covers it; where none does, it is expanded.
#![tactic(auto)]

mod beside;
mod progress;
mod strategy;

pub use strategy::{Explored, explore, explore_watched};
