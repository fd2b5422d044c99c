//! Tables of rows on the flat code of sources and its runs. The first of a row's columns, which have tabs between them, says what the
//! others are:
//!
//! - `code`: a data model, a source, how many slots its code has, the places and slots of its functions, each behind the
//!   function's number, and its instructions, each as its name with the words and then the numbers in it;
//! - `runs`: a data model, a source, and runs of one machine, each as its turns, its inputs and how it ends, with `|` between.
#![tactic(auto)]

mod code;
mod runs;

use crate::code::CodeRows;
use crate::runs::RunRows;
use c_parser::parse;
use c_rules::Examined;
use c_tokens::tokens_of;
use elaboration_laws::sources_read;
use lv_base::{Model, SourceFail};
use source_checks::accepted;
use std::alloc::Global;
use std::rt::Files;
use table_rows::{Fields, Flaw, Library, Refusal, Rows, Table, text_of};

// The tree of a source that breaks no rule.
fn examined(alloc: Global, source: &[u8], model: Model) -> Result<Examined, SourceFail> {
    sources_read();
    let tokens = tokens_of(alloc, source)?;
    let unit = parse(alloc, &tokens)?;
    accepted(alloc, &unit, model)
}

// The tree of the source in the next columns, which are its data model and its text.
//
// Fails with `Form` where it is none, or with `Memory`.
fn next_source(alloc: Global, columns: &mut Fields<'_>) -> Result<Examined, Flaw> {
    let model = columns.model()?;
    let source = text_of(alloc, columns.next()?)?;
    Ok(examined(alloc, &source, model)?)
}

// All kinds of rows.
#[derive(Clone, Copy)]
struct AllRows;

impl Table for AllRows {
    fn other(&mut self, alloc: Global, row: &str) -> Result<Option<String>, Flaw> {
        match Fields::columns(row).next()? {
            "code" => CodeRows.other(alloc, row),
            "runs" => RunRows.other(alloc, row),
            _ => Err(Flaw::Form),
        }
    }
}

/// Tables of code and runs.
#[derive(Clone, Copy)]
pub struct CodeTables;

impl Library for CodeTables {
    fn try_rows<R>(&mut self, rt: &R, name: &str) -> Result<u64, Refusal>
    where
        R: AllocGlobal + Files + Print + Clone + Drop,
    {
        Rows { table: AllRows }.try_rows(rt, name)
    }
}
