//! The checker of certificates: does a certificate's map fit the graph, and does each of its logs refute its obligation.
//!
//! The map comes first, then the number of logs, then the obligations in their order: each one's clauses are made, and its log is run
//! over them. The first that fails is the answer, and so is the first whose clauses pass the limit on literals. Nothing that a certificate
//! states is trusted.
#![tactic(auto)]

mod checking;
mod fails;
mod map;
mod one;

pub use checking::{check, check_logs};
pub use fails::{CheckFail, MapFault};
pub use map::{count_logs, map_of};
pub use one::check_one;

/// The number of the layout that a certificate is to have: that of graphs whose blocks are joined.
pub const JOINED_LAYOUT: u32 = 2;
