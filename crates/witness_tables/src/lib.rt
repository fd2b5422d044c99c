//! Tables of rows on the texts of witnesses. The first of a row's columns, which have tabs between them, says what the others are:
//!
//! - `time`: a moment and its text;
//! - `violation`: a source's name and hash, a data model, a moment, sixteen bytes, a line, a column, a function, and the text;
//! - `correctness`: the first five of these, invariants with `;` between, each a line, a column and an expression with `,` between, and
//!   the text;
//! - `expression`: cells, each `OBJECT.ELEMENT` or `-`, the spellings of the objects, each `NAME`, `NAME[]` or `-`, the terms of a table
//!   as certificates have them with `;` between, the number of a formula, and its expression. All cells have 32 bits.
#![tactic(auto)]

mod expressions;
mod texts;

use crate::expressions::ExpressionRows;
use crate::texts::TextRows;
use lv_base::Text;
use std::alloc::Global;
use std::rt::Files;
use std::str;
use table_rows::{Fields, Flaw, Library, Refusal, Rows, Table, text_of};

// What came, where it is another text than the next column's.
fn other_text(
    alloc: Global,
    columns: &mut Fields<'_>,
    came: &Text,
) -> Result<Option<String>, Flaw> {
    let wanted = text_of(alloc, columns.next()?)?;
    columns.end()?;
    if came.is(&wanted) {
        return Ok(None);
    }
    match str::from_utf8(came.as_bytes()) {
        Ok(text) => Ok(Some(String::from_str(alloc, text)?)),
        Err(_) => Err(Flaw::Form),
    }
}

// All kinds of rows.
#[derive(Clone, Copy)]
struct AllRows;

impl Table for AllRows {
    fn other(&mut self, alloc: Global, row: &str) -> Result<Option<String>, Flaw> {
        match Fields::columns(row).next()? {
            "time" | "violation" | "correctness" => TextRows.other(alloc, row),
            "expression" => ExpressionRows.other(alloc, row),
            _ => Err(Flaw::Form),
        }
    }
}

/// Tables of witnesses.
#[derive(Clone, Copy)]
pub struct WitnessTables;

impl Library for WitnessTables {
    fn try_rows<R>(&mut self, rt: &R, name: &str) -> Result<u64, Refusal>
    where
        R: AllocGlobal + Files + Print + Clone + Drop,
    {
        Rows { table: AllRows }.try_rows(rt, name)
    }
}
