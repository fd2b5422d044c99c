//! Journeys through unwindings of the graph of a loop, which only legal units change.
#![tactic(auto)]

mod chain;
mod formula;
mod journey;
mod loop_graph;

pub use journey::Journey;
