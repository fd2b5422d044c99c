//! Tables of rows on integers, on run files and on sources of seeds. The first of a row's columns, which have tabs between them, says
//! what the others are:
//!
//! - `arith`: an operation, a kind, a data model, both operands, and the value or error;
//! - `convert`: a kind, a data model, a value, and what it becomes;
//! - `range`: a kind, a data model, its least and its greatest value;
//! - `file`: a run file and its values, one read from the other and written back;
//! - `refused`: a run file and why it is none;
//! - `unwritten`: values and why they have no run file;
//! - `source`: a seed and the source that it makes.
#![tactic(auto)]

mod numbers;
mod runfiles;
mod sources;

use crate::numbers::IntegerRows;
use crate::runfiles::RunFileRows;
use crate::sources::SeedRows;
use std::alloc::Global;
use std::rt::Files;
use table_rows::{Fields, Flaw, Library, Refusal, Rows, Table};

// All kinds of rows.
#[derive(Clone, Copy)]
struct AllRows;

impl Table for AllRows {
    fn other(&mut self, alloc: Global, row: &str) -> Result<Option<String>, Flaw> {
        match Fields::columns(row).next()? {
            "arith" | "convert" | "range" => IntegerRows.other(alloc, row),
            "file" | "refused" | "unwritten" => RunFileRows.other(alloc, row),
            "source" => SeedRows.other(alloc, row),
            _ => Err(Flaw::Form),
        }
    }
}

/// Tables of numbers, run files and sources.
#[derive(Clone, Copy)]
pub struct NumberTables;

impl Library for NumberTables {
    fn try_rows<R>(&mut self, rt: &R, name: &str) -> Result<u64, Refusal>
    where
        R: AllocGlobal + Files + Print + Clone + Drop,
    {
        Rows { table: AllRows }.try_rows(rt, name)
    }
}
