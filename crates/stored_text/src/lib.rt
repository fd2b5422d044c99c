//! The files that lazic stores: today run files, which hold the values that a run draws.
//!
//! A run file is the line `run 1` and then one line for each value: an optional `-` and one to twenty decimal digits
//! without leading zeros, and not `-0`. Each line ends with the byte 0x0A. A list of values has one spelling.
#![tactic(auto)]

mod laws;
mod line;
mod reading;
mod writing;

pub use laws::{over_is_named, refused_at_the_first_byte, run_text_is_read, written_is_read};
pub use line::{Line, Next};
pub use reading::{MOST_BYTES, MOST_VALUES, read_run};
use thiserror::Error;
pub use writing::write_run;

/// Why a stored file is not read or written.
#[derive(Clone, Copy, Debug, Drop, PartialEq, Error)]
pub enum StoredFail {
    /// The offset, from 0, of the first byte at which no spelling goes on; the file's length where its end is too early.
    #[error("no spelling goes on at byte {0}")]
    Format(u64),
    /// A limit's number, and a count that passes it.
    #[error("limit {0} is passed by {1}")]
    Over(u8, u64),
    /// Memory ran out.
    #[error("out of memory")]
    Memory,
}
