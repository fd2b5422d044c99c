//! Tables of sets of clauses, logs, and parts of the solvers: each row states an answer. The first word of a row says what it states; the
//! tables say how it is read.
#![tactic(auto)]

mod judging;
mod logs;
mod noting;
mod ordering;
mod pacing;
mod sets;
mod trails;

use crate::judging::WatchRows;
use crate::logs::LogRows;
use crate::noting::NoteRows;
use crate::ordering::OrderRows;
use crate::pacing::PaceRows;
use crate::sets::SetRows;
use crate::trails::{TrailRows, is_set};
use dense_trail::{Trail, negation};
use row_text::{Library, Refusal, RowFail, Rows, Stated, Table, fields};
use std::alloc::Global;
use std::rt::Files;

// Makes a literal true, which has to have no value.
fn push(trail: &mut Trail, code: u32, level: u32, reason: Option<u32>) -> Result<(), RowFail> {
    if code as usize >= trail.truth.len()
        || is_set(&trail.truth, code)
        || is_set(&trail.truth, negation(code))
    {
        return Err(RowFail::Bad);
    }
    trail.push(code, level, reason)?;
    Ok(())
}

// All kinds of rows.
#[derive(Drop)]
struct AllRows;

impl Table for AllRows {
    fn is_so(&mut self, alloc: Global, row: &str) -> Result<bool, RowFail> {
        match fields(row).0 {
            "set" => SetRows.is_so(alloc, row),
            "log" | "codes" => LogRows.is_so(alloc, row),
            "pace" => PaceRows.is_so(alloc, row),
            "trail" => TrailRows.is_so(alloc, row),
            "order" => OrderRows.is_so(alloc, row),
            "judge" | "lists" => WatchRows.is_so(alloc, row),
            "notes" => NoteRows.is_so(alloc, row),
            _ => Err(RowFail::Bad),
        }
    }
}

/// Tables of sets of clauses, logs, and parts of the solvers.
#[derive(Clone, Copy)]
pub struct SolverTables;

impl Library for SolverTables {
    fn try_rows<R>(&mut self, rt: &R, name: &str) -> Result<u64, Refusal>
    where
        R: AllocGlobal + Files + Print + Clone + Drop,
    {
        let table = AllRows;
        Rows {
            table: Stated { table },
        }
        .try_rows(rt, name)
    }
}
