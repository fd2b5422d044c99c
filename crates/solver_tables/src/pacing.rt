//! `pace SIZE ..`: the numbers of the sequence by which the search starts over; each gives a hundred conflicts.

use cdcl_solver::{Pace, paced};
use row_text::{RowFail, Table, fields, numbers};
use std::alloc::Global;

// Tries the row.
fn has_sizes(alloc: Global, rest: &str) -> Result<bool, RowFail> {
    let mut pace = Pace {
        turn: 1,
        size: 1,
        left: 1,
    };
    for wanted in &numbers(alloc, rest)? {
        if pace.size != *wanted || pace.size == 0 {
            return Ok(false);
        }
        pace = paced(Pace {
            turn: pace.turn,
            size: pace.size,
            left: 0,
        });
        if u64::from(pace.left) != 100 * u64::from(pace.size) {
            return Ok(false);
        }
    }
    Ok(true)
}

/// Rows of the pace of a search.
#[derive(Drop)]
pub(crate) struct PaceRows;

impl Table for PaceRows {
    fn is_so(&mut self, alloc: Global, row: &str) -> Result<bool, RowFail> {
        let (kind, rest) = fields(row);
        match kind {
            "pace" => has_sizes(alloc, rest),
            _ => Err(RowFail::Bad),
        }
    }
}
