//! What the journal of an exploration tells of pairs of vertices.

use crate::graph_of;
use c_graph::Graph;
use cover_engine::UnitDone;
use explore::{Explored, explore};
use reach_tree::VertexId;
use row_text::{RowFail, Table, fields, number};
use std::alloc::Global;

// The most clauses that one question to the solver learns.
const LEARN: u64 = 100_000;

// The place of the next unit, from one on, that covers this vertex by this one.
fn next_cover(journal: &[UnitDone], from: usize, left: VertexId, right: VertexId) -> Option<usize> {
    for at in from..journal.len() {
        if let UnitDone::CoverYes(v, w) = &journal[at] {
            if *v == left && *w == right {
                return Some(at);
            }
        }
    }
    None
}

// The place of the next unit, from one on, that strengthens a path.
fn next_refine(journal: &[UnitDone], from: usize) -> Option<usize> {
    for at in from..journal.len() {
        if let UnitDone::Refine(_, _) = &journal[at] {
            return Some(at);
        }
    }
    None
}

// Whether the pair that the unit at this place covers is covered again behind the next unit that strengthens a path.
fn is_covered_again(journal: &[UnitDone], at: usize) -> bool {
    if at >= journal.len() {
        return false;
    }
    let UnitDone::CoverYes(left, right) = &journal[at] else {
        return false;
    };
    match next_refine(journal, at) {
        Some(refined) => next_cover(journal, refined, *left, *right).is_some(),
        None => false,
    }
}

fn some_is_covered_again(journal: &[UnitDone]) -> bool {
    for at in 0..journal.len() {
        if is_covered_again(journal, at) {
            return true;
        }
    }
    false
}

// Whether an exploration by at most so many units is complete, and in its journal a pair is covered, later a path is strengthened, and
// later the same pair is covered again. Since a pair that stands is not covered again, the strengthening has removed it.
fn covers_again(alloc: Global, graph: &Graph, units: u64) -> Result<bool, RowFail> {
    if units == 0 {
        return Err(RowFail::Bad);
    }
    match explore(alloc, graph, units, LEARN) {
        Ok(Explored::Complete(unwinding)) => Ok(some_is_covered_again(unwinding.journal())),
        Ok(_) => Ok(false),
        Err(_) => Err(RowFail::Memory),
    }
}

// Tries the row of a pair that is covered, removed, and covered again.
fn is_again(alloc: Global, source: &str, rest: &str) -> Result<bool, RowFail> {
    let graph = graph_of(alloc, source)?;
    covers_again(alloc, &graph, u64::from(number(Some(rest))?))
}

/// Rows of explorations of the graph of this source's blocks.
#[derive(Drop)]
pub(crate) struct JournalRows<'a> {
    pub(crate) source: &'a str,
}

impl Table for JournalRows<'_> {
    fn is_so(&mut self, alloc: Global, row: &str) -> Result<bool, RowFail> {
        let (kind, rest) = fields(row);
        match kind {
            "again" => is_again(alloc, self.source, rest),
            _ => Err(RowFail::Bad),
        }
    }
}
