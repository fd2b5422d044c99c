//! Walks through the graphs of sources, on values of chance beside replay and on those of rows.
//!
//! Of a source both graphs are made, under both data models: that of its flat code with each call a copy, and that of its blocks. Each
//! graph is walked as often as the other, on values of chance, and how each walk ends is compared with how the program's replay ends on
//! the same values: the same error at the same offset behind the same number of values, or no error. A graph that is larger than its
//! source allows counts as a difference: more than 16 nodes for each token and function before calls are copies, or two saved cells for
//! each token; or any cell, error or choice where `main` has no statement. So does a source that has no graph.
//!
//! A file whose name ends with `.txt` is a table, and each of its rows that is not so under one of the models is a difference. The first
//! of a row's columns, which have tabs between them, says what the others are:
//!
//! - `build`: a source, and what comes of the graphs of its functions: `made`, or `limit` with its number;
//! - `inline`: a source whose functions have graphs, and what comes of the graph with each call a copy;
//! - `walk` and `blocks`: a source, the values that a walk through this graph or that of its blocks draws, and how it ends: an error with its
//!   place, or another end, behind so many values.
#![tactic(auto)]

mod rows;
mod sources;

use crate::rows::SourceRows;
use crate::sources::SourceWalks;
use std::rt::Files;
use table_rows::{Library, Refusal};

/// Sources whose graphs are walked, and tables of rows about the graphs of single sources.
#[derive(Clone, Copy)]
pub struct GraphWalks;

impl Library for GraphWalks {
    fn try_rows<R>(&mut self, rt: &R, name: &str) -> Result<u64, Refusal>
    where
        R: AllocGlobal + Files + Print + Clone + Drop,
    {
        if name.ends_with(".txt") {
            SourceRows.try_rows(rt, name)
        } else {
            SourceWalks.try_rows(rt, name)
        }
    }
}
