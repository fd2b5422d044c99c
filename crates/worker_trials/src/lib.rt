//! What tests of workers stand on: a gate that holds the first of them, and certificates of a graph made by hand.
#![tactic(auto)]

mod certs;
mod holding;

pub use certs::{NoCert, cert_of, proved, row_graph, row_map, without_logs};
pub use holding::HoldGate;
