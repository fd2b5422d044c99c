//! Terms of one table put into another over the same cells, with their widths and their values.
#![tactic(auto)]

mod copy;

pub use copy::{copied, copy_next, number_in, renamed};
