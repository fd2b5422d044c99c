//! The clauses of the obligations of edges.
ghost use Rattle.std.specs.Prelude.{◌≡◌, ◌<◌, ◌++◌, ◌∷◌, [], length, IfErr, IfOk, OnOk};
ghost use Rattle.bv_term.specs.WellFormed.{Table};
ghost use Rattle.bit_gates.specs.Cut.{Cut, IsCutOff};
ghost use Rattle.bit_blast.specs.Held.{IsOver, renew_of};
ghost use Rattle.c_graph.specs.Runs.{IsMapOf};
ghost use Rattle.path_formula.specs.Added.{added_all};
ghost use Rattle.path_formula.specs.Needs.{operations_at};
ghost use Rattle.obligations.specs.Stated.{IsPast, edge_says, from_of, kept_for, to_of};

use crate::clauses::{begin, state};
use bit_blast::Bits;
use c_graph::{EdgeId, Graph, Map, NodeId};
use path_formula::{add_edge, need_cells, needed_before};
use prop::{BlastFail, Clauses};
use std::alloc::Global;
use std::collections::BTreeSet;

// The node at which an edge starts.
#[tactic(auto, using(crate::proofs::Ends::from_is, crate::proofs::Ends::from_there))]
fn start_of(graph: &Graph, edge: EdgeId) -> NodeId
    requires { edge.0 < length graph.now.edges }
    ensures from { result ≡ from_of graph.now.edges edge.0 }
    ensures there { result.0 < length graph.now.nodes }
{
    graph.edges()[edge.0 as usize].from
}

// The node at which an edge ends.
#[tactic(auto, using(crate::proofs::Ends::to_is, crate::proofs::Ends::to_there))]
fn end_of(graph: &Graph, edge: EdgeId) -> NodeId
    requires { edge.0 < length graph.now.edges }
    ensures to { result ≡ to_of graph.now.edges edge.0 }
    ensures there { result.0 < length graph.now.nodes }
{
    graph.edges()[edge.0 as usize].to
}

// Begins a step of its own. Nothing counts as done then, so that the literals may stand for terms of another table of the same cells.
#[tactic(auto, using(crate::proofs::Ends::renewed_over))]
fn next_step(clauses: &mut Clauses, bits: &mut Bits)
    ensures clauses { clauses.new ≡ clauses.old }
    ensures held { bits.new ≡ renew_of bits.old }
    ensures over { (before after : Table) → before.cells ≡ after.cells → IsOver before bits.old → IsOver after bits.new }
{
    match bits.renew(clauses) {
        Ok(()) => (),
        Err(_) => unreachable!(),
    }
}

// Which of an edge's operations give something that the formula at its end needs.
fn kept_operations(
    alloc: Global,
    graph: &Graph,
    map: &Map,
    edge: EdgeId,
) -> Result<Vec<bool>, BlastFail>
    requires map { IsMapOf graph.now map.now }
    requires edge { edge.0 < length graph.now.edges }
    ensures kept { IfOk result (λ k. k.items ≡ kept_for graph.now map.now edge.0) }
    ensures past { IfErr result IsPast }
    ensures memory { IfErr result (λ e. e ≡ BlastFail.Memory) }
{
    let end = end_of(graph, edge);
    let formula = map.at()[end.0 as usize];
    let mut needed = BTreeSet::new(alloc);
    match need_cells(alloc, map.terms(), formula, &mut needed) {
        Err(_) => return Err(BlastFail::Memory),
        Ok(()) => (),
    }
    match needed_before(alloc, graph, edge, &mut needed) {
        Err(_) => Err(BlastFail::Memory),
        Ok(kept) => Ok(kept),
    }
}

// Adds an edge's kept operations, between the step before them and the one behind them.
fn operate(
    alloc: Global,
    graph: &Graph,
    map: &Map,
    edge: EdgeId,
    kept: &[bool],
    clauses: &mut Clauses,
    bits: &mut Bits,
) -> Result<(), BlastFail>
    requires map { IsMapOf graph.now map.now }
    requires over { IsOver map.now.terms bits.old }
    ensures clauses { OnOk result (clauses.new ≡ clauses.old ++ (added_all graph.now.terms (renew_of bits.old) (operations_at graph.now.edges edge.0) kept.now).clauses) }
    ensures held { OnOk result (bits.new ≡ renew_of (added_all graph.now.terms (renew_of bits.old) (operations_at graph.now.edges edge.0) kept.now).held) }
    ensures over { OnOk result (IsOver map.now.terms bits.new) }
    ensures past { IfErr result IsPast }
    ensures cut { IfErr result (λ e. Cut e clauses.old (added_all graph.now.terms (renew_of bits.old) (operations_at graph.now.edges edge.0) kept.now).clauses clauses.new) }
{
    let _terms = graph.terms();
    next_step(clauses, bits);
    let mut draws = Vec::new(alloc);
    match add_edge(alloc, graph, edge, kept, clauses, bits, &mut draws) {
        Err(end) => return Err(end),
        Ok(()) => (),
    }
    next_step(clauses, bits);
    Ok(())
}

/// The clauses that say that an edge leads from a store that meets the formula at its start to one that does not meet the formula at its
/// end. They are `Over` where their literals would pass the limit. No clause is empty.
pub fn edge_clauses(
    alloc: Global,
    graph: &Graph,
    map: &Map,
    edge: EdgeId,
) -> Result<Clauses, BlastFail>
    requires map { IsMapOf graph.now map.now }
    requires edge { edge.0 < length graph.now.edges }
    ensures clauses { IfOk result (λ c. c ≡ edge_says graph.now map.now edge.0) }
    ensures past { IfErr result IsPast }
    ensures cut { IfErr result (IsCutOff (edge_says graph.now map.now edge.0)) }
{
    let start = start_of(graph, edge);
    let end = end_of(graph, edge);
    let kept = kept_operations(alloc, graph, map, edge)?;
    let mut clauses = Clauses::new(alloc);
    let mut bits = begin(alloc, map, &mut clauses)?;
    state(alloc, graph, map, start, true, &mut clauses, &mut bits)?;
    operate(alloc, graph, map, edge, &kept, &mut clauses, &mut bits)?;
    state(alloc, graph, map, end, false, &mut clauses, &mut bits)?;
    Ok(clauses)
}
