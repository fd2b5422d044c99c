//! Tables of graphs, trees of paths and unwindings: each row states an answer. The first word of a row says what it states, of the graph
//! that an earlier row gave; the tables say how it is read.
#![tactic(auto)]

mod graphs;
mod journeys;
mod random;
mod stores;
mod trees;
mod units;

use crate::graphs::GraphRows;
use crate::journeys::JourneyRows;
use crate::random::RandomRows;
use crate::stores::StoreRows;
use crate::trees::TreeRows;
use crate::units::UnitRows;
use c_graph::Graph;
use cover_engine::Unwinding;
use reach_tree::VertexId;
use row_text::{Library, Refusal, RowFail, Rows, Stated, Table, fields, numbers};
use std::alloc::Global;
use std::rt::Files;

// Questions about an unwinding: `vertices COUNT`, `journal COUNT`, `terms COUNT`, `pairs VERTICES`, two of each pair;
// `covered VERTICES` and `free VERTICES`; `open VERTEX`, a leaf; `settles VERTEX VERTEX`: the pair may be settled; `complete`;
// `label VERTEX NUMBERS`: its conjuncts.

// Whether the vertex, which must be there, is covered.
fn is_covered(unwinding: &Unwinding, v: u32) -> Result<bool, RowFail> {
    if v as usize >= unwinding.vertices().len() {
        return Err(RowFail::Bad);
    }
    Ok(unwinding.covered(VertexId(v)))
}

// Whether the pair, of vertices that must be there, may be settled.
fn settles(unwinding: &Unwinding, v: u32, w: u32) -> Result<bool, RowFail> {
    let count = unwinding.vertices().len();
    if v as usize >= count || w as usize >= count {
        return Err(RowFail::Bad);
    }
    Ok(unwinding.may_settle(VertexId(v), VertexId(w)))
}

// Whether the vertex, which must be there, is an open leaf.
fn is_open(graph: &Graph, unwinding: &Unwinding, v: u32) -> Result<bool, RowFail> {
    if v as usize >= unwinding.vertices().len() {
        return Err(RowFail::Bad);
    }
    Ok(unwinding.open_leaf(graph, VertexId(v)))
}

// Whether each of the vertices is covered, or each is not.
fn are_covered(unwinding: &Unwinding, vertices: &[u32], wanted: bool) -> Result<bool, RowFail> {
    for v in vertices {
        if is_covered(unwinding, *v)? != wanted {
            return Ok(false);
        }
    }
    Ok(true)
}

// Whether the pairs are these, in this order.
fn has_pairs(unwinding: &Unwinding, wanted: &[u32]) -> bool {
    let mut rest = wanted.iter();
    for (v, w) in unwinding.pairs() {
        if rest.next() != Some(&v.0) || rest.next() != Some(&w.0) {
            return false;
        }
    }
    rest.next().is_none()
}

// Whether the label of the first number's vertex has the others.
fn has_label(unwinding: &Unwinding, wanted: &[u32]) -> bool {
    let Some((v, numbers)) = wanted.split_first() else {
        return false;
    };
    let Some(vertex) = unwinding.vertices().get(*v as usize) else {
        return false;
    };
    let label = vertex.label.as_slice();
    label.len() == numbers.len() && label.iter().zip(numbers).all(|(t, n)| t.0 == *n)
}

// Whether a question about some vertices is answered with yes.
fn of_vertices(
    graph: &Graph,
    unwinding: &Unwinding,
    word: &str,
    found: &[u32],
) -> Result<bool, RowFail> {
    match word {
        "covered" => are_covered(unwinding, found, true),
        "free" => are_covered(unwinding, found, false),
        "open" if found.len() == 1 => is_open(graph, unwinding, found[0]),
        "settles" if found.len() == 2 => settles(unwinding, found[0], found[1]),
        "pairs" => Ok(has_pairs(unwinding, found)),
        "label" => Ok(has_label(unwinding, found)),
        _ => Err(RowFail::Bad),
    }
}

// Whether the numbers are this count alone.
fn is_count(numbers: &[u32], count: usize) -> bool {
    match numbers {
        [number] => *number as usize == count,
        _ => false,
    }
}

// Whether a question is answered with yes.
fn ask(
    alloc: Global,
    graph: &Graph,
    unwinding: &Unwinding,
    word: &str,
    rest: &str,
) -> Result<bool, RowFail> {
    let found = numbers(alloc, rest)?;
    match word {
        "complete" => Ok(unwinding.complete(graph)),
        "vertices" => Ok(
            is_count(&found, unwinding.vertices().len())
                && is_count(&found, unwinding.tree().vertices().len()),
        ),
        "journal" => Ok(is_count(&found, unwinding.journal().len())),
        "terms" => Ok(found.as_slice() == [unwinding.terms().count()].as_slice()),
        _ => of_vertices(graph, unwinding, word, &found),
    }
}

// All kinds of rows.
#[derive(Drop)]
struct AllRows {
    // The parts of the graph that the rows behind it are about.
    graph: String,
}

impl Table for AllRows {
    fn is_so(&mut self, alloc: Global, row: &str) -> Result<bool, RowFail> {
        let (kind, rest) = fields(row);
        if kind == "graph" {
            self.graph = String::from_str(alloc, rest)?;
            return Ok(true);
        }
        let parts = self.graph.as_str();
        match kind {
            "store" | "map" => StoreRows.is_so(alloc, row),
            "journey" => JourneyRows.is_so(alloc, row),
            "random" => RandomRows.is_so(alloc, row),
            "tree" => TreeRows { parts }.is_so(alloc, row),
            "units" => UnitRows { parts }.is_so(alloc, row),
            _ => GraphRows { parts }.is_so(alloc, row),
        }
    }
}

/// Tables of graphs, trees of paths and unwindings.
#[derive(Clone, Copy)]
pub struct UnwindingTables;

impl Library for UnwindingTables {
    fn try_rows<R>(&mut self, rt: &R, name: &str) -> Result<u64, Refusal>
    where
        R: AllocGlobal + Files + Print + Clone + Drop,
    {
        let table = AllRows {
            graph: String::new(rt.alloc()),
        };
        Rows {
            table: Stated { table },
        }
        .try_rows(rt, name)
    }
}
