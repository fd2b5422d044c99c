//! Tables of paths: each row states what becomes of the paths to errors in the graph of a source's blocks.
//!
//! `source TEXT` gives the source of the rows behind it, under the model ilp32. `refuted EDGES COUNT`: so many paths of at most so
//! many edges lead from the entry to an error, each has a refutation, and the formulas of its cuts are a chain, from true to false, each
//! of whose links the solver confirms. `reached EDGES = VALUES`: exactly one of them has a run, which draws these values. `again UNITS`: an
//! exploration by at most so many units is complete, and covers a pair that a later strengthening removes, and covers it again.
#![tactic(auto)]

mod asking;
mod journals;

use crate::asking::PathRows;
use crate::journals::JournalRows;
use c_graph::Graph;
use lv_base::{Model, SourceFail};
use row_text::{Library, Refusal, RowFail, Rows, Stated, Table, fields};
use source_graphs::source_blocks;
use std::alloc::Global;
use std::rt::Files;

// The graph of a source's blocks.
fn graph_of(alloc: Global, source: &str) -> Result<Graph, RowFail> {
    match source_blocks(alloc, source.as_bytes(), Model::Ilp32) {
        Ok(graph) => Ok(graph),
        Err(SourceFail::Memory) => Err(RowFail::Memory),
        Err(_) => Err(RowFail::Bad),
    }
}

// All kinds of rows.
#[derive(Drop)]
struct AllRows {
    // The source that the rows behind it are about.
    source: String,
}

impl Table for AllRows {
    fn is_so(&mut self, alloc: Global, row: &str) -> Result<bool, RowFail> {
        let (kind, rest) = fields(row);
        if kind == "source" {
            self.source = String::from_str(alloc, rest)?;
            return Ok(true);
        }
        let source = self.source.as_str();
        match kind {
            "again" => JournalRows { source }.is_so(alloc, row),
            _ => PathRows { source }.is_so(alloc, row),
        }
    }
}

/// Tables of the paths in the graphs of sources' blocks.
#[derive(Clone, Copy)]
pub struct PathTables;

impl Library for PathTables {
    fn try_rows<R>(&mut self, rt: &R, name: &str) -> Result<u64, Refusal>
    where
        R: AllocGlobal + Files + Print + Clone + Drop,
    {
        let table = AllRows {
            source: String::new(rt.alloc()),
        };
        Rows {
            table: Stated { table },
        }
        .try_rows(rt, name)
    }
}
