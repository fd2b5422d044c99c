//! What is known of a graph's nodes, cells and terms is tested: which nodes are reached and alive, which cells terms read, and which are
//! read from each node on.
//!
//! The tables may have been filled in any way. Each test is a pass over the nodes, the edges, the cells or the terms, and where all of
//! them say yes, what the tables say is true. That tables which were filled with care pass the tests, no contract says.
#![tactic(auto)]

mod cells;
mod flow;
mod nodes;
mod plan;
mod reads;

pub use plan::is_plan;
