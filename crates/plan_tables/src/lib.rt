//! Tables by number that answer for every number: truths, numbers, counts, the units of cells, and the units that are read from each
//! node on and by each term. Contracts say what each holds, and what a look-up answers.
#![tactic(auto)]

mod tables;
mod units;

pub use tables::{Counts, Flags, Links, number_of};
pub use units::{Live, Reads, Units};
