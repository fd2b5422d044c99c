//! Rows about the graphs of single sources.

use block_join::join_blocks;
use c_graph::Graph;
use c_rules::Examined;
use call_inline::inline;
use cfg_build::build;
use graph_rows::{ListedWalk, Stop, walk_listed};
use lv_base::{Model, Place, SourceFail, place_of};
use row_text::RowFail;
use source_graphs::{examined, whole_graph};
use std::alloc::Global;
use std::rt::Files;
use std::str;
use table_rows::{Fields, Flaw, Library, Refusal, list_of, load, other_than, text_of};

// The most bytes of a source.
const MOST_BYTES: usize = 1 << 20;

// What every saved cell holds before a walk, which none is to read.
const SAVED: u128 = 1;

// What came under a data model where it is not as the row says; none where it is.
//
// Fails with `Form` where it is no row, and with `Memory`.
fn other_of(alloc: Global, row: &str, model: Model) -> Result<Option<String>, Flaw> {
    let mut columns = Fields::columns(row);
    let kind = columns.next()?;
    let source = text_of(alloc, columns.next()?)?;
    let program = examined(alloc, &source, model)?;
    let came = match kind {
        "build" => built(alloc, &program)?,
        "inline" => inlined(alloc, &program)?,
        "walk" => {
            let graph = whole_graph(alloc, &program)?;
            walked(alloc, &graph, &source, columns.next()?)?
        }
        "blocks" => {
            let graph = join_blocks(alloc, whole_graph(alloc, &program)?)?;
            walked(alloc, &graph, &source, columns.next()?)?
        }
        _ => return Err(Flaw::Form),
    };
    let wanted = columns.next()?;
    columns.end()?;
    Ok(other_than(wanted, came))
}

// Why there are no graphs.
fn told(alloc: Global, fail: SourceFail) -> Result<String, Flaw> {
    match fail {
        SourceFail::Memory => Err(Flaw::Memory),
        SourceFail::Over(limit, _) => Ok(format!(in alloc; "limit {limit}")?),
        SourceFail::Fault(fault, at) => Ok(format!(in alloc; "{fault:?} at {at}")?),
    }
}

// What comes of the graphs of a program's functions.
fn built(alloc: Global, program: &Examined) -> Result<String, Flaw> {
    match build(alloc, program) {
        Ok(_) => Ok(String::from_str(alloc, "made")?),
        Err(fail) => told(alloc, fail),
    }
}

// What comes of the graph of a program whose functions have graphs.
fn inlined(alloc: Global, program: &Examined) -> Result<String, Flaw> {
    let graphs = build(alloc, program)?;
    match inline(alloc, &graphs) {
        Ok(_) => Ok(String::from_str(alloc, "made")?),
        Err(fail) => told(alloc, fail),
    }
}

// The place of an offset, which has to be one of the source.
fn place_in(source: &[u8], at: u32) -> Result<Place, Flaw> {
    let at = at as usize;
    if at > source.len() || source.len() > MOST_BYTES {
        return Err(Flaw::Form);
    }
    Ok(place_of(source, at))
}

// How the walk ends that draws listed values, and behind how many of them.
fn walked(alloc: Global, graph: &Graph, source: &[u8], values: &str) -> Result<String, Flaw> {
    let values = list_of(alloc, values.as_bytes())?;
    let ListedWalk { stop, drawn } = match walk_listed(alloc, graph, &[], SAVED, &values) {
        Ok(walk) => walk,
        Err(RowFail::Bad) => return Err(Flaw::Form),
        Err(RowFail::Memory) => return Err(Flaw::Memory),
    };
    match stop {
        Stop::Error(kind, at) => {
            let Place { line, column } = place_in(source, at)?;
            let kind = kind.name();
            Ok(format!(in alloc; "{kind} at {line}:{column} behind {drawn}")?)
        }
        stop => Ok(format!(in alloc; "{stop:?} behind {drawn}")?),
    }
}

// Tries a row under a data model; whether it is so.
fn is_so<R: Print>(alloc: Global, rt: &R, row: &str, model: Model) -> Result<bool, Refusal> {
    let under = model.name();
    let printed = match other_of(alloc, row, model) {
        Ok(None) => return Ok(true),
        Ok(Some(came)) => {
            let came = came.as_str();
            println!(rt; "{under}: {came}, and not as here: {row}")
        }
        Err(Flaw::Form) => println!(rt; "{under}: no row: {row}"),
        Err(Flaw::Memory) => return Err(Refusal::Memory),
    };
    match printed {
        Ok(()) => Ok(false),
        Err(_) => Err(Refusal::Output),
    }
}

// Tries the rows of a table, and prints how many there are; how many are not so. Lines that begin with `#`, and empty ones, are left out.
fn try_all<R: Print>(alloc: Global, rt: &R, name: &str, bytes: &[u8]) -> Result<u64, Refusal> {
    let Ok(text) = str::from_utf8(bytes) else {
        return Err(Refusal::Text);
    };
    let mut rows = 0u64;
    let mut others = 0u64;
    for row in text.lines() {
        if row.is_empty() || row.starts_with('#') {
            continue;
        }
        rows = rows.saturating_add(1);
        let narrow = is_so(alloc, rt, row, Model::Ilp32)?;
        let wide = is_so(alloc, rt, row, Model::Lp64)?;
        others = others.saturating_add(u64::from(!(narrow && wide)));
    }
    match println!(rt; "{name}: {rows} rows") {
        Ok(()) => Ok(others),
        Err(_) => Err(Refusal::Output),
    }
}

/// Tables of rows about the graphs of single sources.
#[derive(Clone, Copy)]
pub(crate) struct SourceRows;

impl Library for SourceRows {
    fn try_rows<R>(&mut self, rt: &R, name: &str) -> Result<u64, Refusal>
    where
        R: AllocGlobal + Files + Print + Clone + Drop,
    {
        let alloc = rt.alloc();
        let bytes = load(alloc, rt, name)?;
        try_all(alloc, rt, name, &bytes)
    }
}
