//! What is needed before an edge, given what is needed behind it.
ghost use Rattle.std.specs.Prelude.{◌≡◌, ◌<◌, ◌≤◌, length, All, IfOk, OnOk, cond};
ghost use Rattle.c_graph.specs.Shape.{OperationFits};
ghost use Rattle.path_formula.specs.Reads.{cells_from, is_needed, some_needed, with_cells, with_read, without};
ghost use Rattle.path_formula.specs.Needs.{gives, kept_of, needed_by, needed_by_all, operations_at};

use crate::reads::{forget, has, has_some, need_all, need_cells};
use bv_term::{TermId, Terms};
use c_graph::{EdgeId, Graph, Operation};
use lv_base::Memory;
use std::alloc::Global;
use std::collections::BTreeSet;

/// Goes back over a Set, and answers whether it gives something that is needed.
fn back_over_set(
    alloc: Global,
    terms: &Terms,
    cell: u32,
    term: TermId,
    needed: &mut BTreeSet<usize>,
) -> Result<bool, Memory>
    requires { term.0 < length terms.now.terms }
    ensures gives { IfOk result (λ b. b ≡ is_needed needed.old.keys cell) }
    ensures needed { OnOk result (needed.new.keys
        ≡ cond (is_needed needed.old.keys cell) (with_read terms.now term.0 (without cell needed.old.keys)) needed.old.keys) }
{
    if !has(needed, cell as usize) {
        return Ok(false);
    }
    forget(needed, cell as usize);
    need_cells(alloc, terms, term, needed)?;
    Ok(true)
}

/// Goes back over a SetAt, and answers whether it gives something that is needed.
fn back_over_set_at(
    alloc: Global,
    terms: &Terms,
    first: u32,
    count: u32,
    index: TermId,
    term: TermId,
    needed: &mut BTreeSet<usize>,
) -> Result<bool, Memory>
    requires index { index.0 < length terms.now.terms }
    requires term { term.0 < length terms.now.terms }
    ensures gives { IfOk result (λ b. b ≡ some_needed needed.old.keys (cells_from first count)) }
    ensures needed { OnOk result (needed.new.keys
        ≡ cond (some_needed needed.old.keys (cells_from first count))
        (with_read terms.now term.0 (with_read terms.now index.0 (with_cells needed.old.keys (cells_from first count))))
        needed.old.keys) }
{
    if !has_some(needed, first, count) {
        return Ok(false);
    }
    need_all(needed, first, count)?;
    need_cells(alloc, terms, index, needed)?;
    need_cells(alloc, terms, term, needed)?;
    Ok(true)
}

/// Goes back over an operation, and answers whether it gives something that is needed.
fn back_over(
    alloc: Global,
    terms: &Terms,
    operation: Operation,
    needed: &mut BTreeSet<usize>,
) -> Result<bool, Memory>
    requires { OperationFits terms.now operation }
    ensures gives { IfOk result (λ b. b ≡ gives needed.old.keys operation) }
    ensures needed { OnOk result (needed.new.keys ≡ needed_by terms.now needed.old.keys operation) }
{
    match operation {
        Operation::Assume(term) => {
            need_cells(alloc, terms, term, needed)?;
            Ok(true)
        }
        Operation::Set(cell, term) => back_over_set(alloc, terms, cell, term, needed),
        Operation::SetAt(first, count, index, term) => {
            back_over_set_at(alloc, terms, first, count, index, term, needed)
        }
        Operation::Draw(cell, _) => {
            forget(needed, cell as usize);
            Ok(true)
        }
    }
}

/// Goes back over operations, the last first, and answers which of them give something that is needed.
fn back_over_all(
    alloc: Global,
    terms: &Terms,
    ops: &[Operation],
    needed: &mut BTreeSet<usize>,
) -> Result<Vec<bool>, Memory>
    requires { All (OperationFits terms.now) ops.now }
    ensures kept { IfOk result (λ r. r.items ≡ kept_of terms.now needed.old.keys ops.now) }
    ensures needed { OnOk result (needed.new.keys ≡ needed_by_all terms.now needed.old.keys ops.now) }
{
    let mut kept = vec![in alloc; false; ops.len()]?;
    let mut left = ops.len();
    while left > 0 {
        left -= 1;
        let is_kept = back_over(alloc, terms, ops[left], needed)?;
        kept[left] = is_kept;
    }
    Ok(kept)
}

/// The operations of an edge, none past the last edge.
#[tactic(auto, using(crate::proofs::Backing::ops_at, crate::proofs::Backing::ops_past))]
pub fn operations_of(graph: &Graph, edge: EdgeId) -> &[Operation]
    ensures value { result.now ≡ operations_at graph.now.edges edge.0 }
    ensures fits { All (OperationFits graph.now.terms) result.now }
{
    let edges = graph.edges();
    if (edge.0 as usize) < edges.len() {
        edges[edge.0 as usize].ops.as_slice()
    } else {
        &[]
    }
}

/// Goes back over an edge: from the cells that are needed behind it to those that are needed before it. It answers, for
/// each of the edge's operations, whether it gives something that is needed.
pub fn needed_before(
    alloc: Global,
    graph: &Graph,
    edge: EdgeId,
    needed: &mut BTreeSet<usize>,
) -> Result<Vec<bool>, Memory>
    ensures kept { IfOk result (λ r. r.items ≡ kept_of graph.now.terms needed.old.keys (operations_at graph.now.edges edge.0)) }
    ensures needed { OnOk result (needed.new.keys ≡ needed_by_all graph.now.terms needed.old.keys (operations_at graph.now.edges edge.0)) }
    ensures there { OnOk result (All (λ c. c < length graph.now.terms.cells) needed.old.keys → All (λ c. c < length graph.now.terms.cells) needed.new.keys) }
{
    back_over_all(alloc, graph.terms(), operations_of(graph, edge), needed)
}
