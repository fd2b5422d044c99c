//! The clauses of the entry's obligation and of those of error nodes.
ghost use Rattle.std.specs.Prelude.{◌≡◌, ◌<◌, ◌++◌, [], length, IfErr, IfOk, OnOk};
ghost use Rattle.bit_gates.specs.Cut.{Cut, IsCutOff};
ghost use Rattle.bit_blast.specs.Held.{IsOver};
ghost use Rattle.c_graph.specs.Runs.{IsMapOf};
ghost use Rattle.obligations.specs.Stated.{IsPast, begun_over, formula_at, node_says, stated};

use bit_blast::{Bits, blast};
use c_graph::{Graph, Map, NodeId};
use prop::{BlastFail, Clauses};
use std::alloc::Global;

/// Adds that the formula of a node holds, or that it fails.
pub fn state(
    alloc: Global,
    graph: &Graph,
    map: &Map,
    node: NodeId,
    holds: bool,
    clauses: &mut Clauses,
    bits: &mut Bits,
) -> Result<(), BlastFail>
    requires map { IsMapOf graph.now map.now }
    requires node { node.0 < length graph.now.nodes }
    requires over { IsOver map.now.terms bits.old }
    ensures clauses { OnOk result (clauses.new ≡ clauses.old ++ (stated holds map.now.terms (formula_at map.now node) bits.old).clauses) }
    ensures held { OnOk result (bits.new ≡ (stated holds map.now.terms (formula_at map.now node) bits.old).held) }
    ensures over { OnOk result (IsOver map.now.terms bits.new) }
    ensures past { IfErr result IsPast }
    ensures cut { IfErr result (λ e. Cut e clauses.old (stated holds map.now.terms (formula_at map.now node) bits.old).clauses clauses.new) }
{
    let _nodes = graph.nodes();
    let formula = map.at()[node.0 as usize];
    match blast(alloc, map.terms(), formula, clauses, bits) {
        Err(end) => Err(end),
        Ok(lit) => {
            let said = if holds { lit } else { lit.negate() };
            clauses.push(&[said])
        }
    }
}

/// Literals for the cells, before any clause.
pub fn begin(alloc: Global, map: &Map, clauses: &mut Clauses) -> Result<Bits, BlastFail>
    requires { clauses.old ≡ [] }
    ensures clauses { clauses.new ≡ [] }
    ensures begun { IfOk result (λ b. b ≡ begun_over map.now) }
    ensures over { IfOk result (IsOver map.now.terms) }
    ensures past { IfErr result IsPast }
    ensures memory { IfErr result (λ e. e ≡ BlastFail.Memory) }
{
    Bits::new(alloc, clauses, map.terms().cells())
}

/// The clauses that say that the formula of a node holds, or that it fails, in some store. They are `Over` where their literals would
/// pass the limit. No clause is empty.
pub fn node_clauses(
    alloc: Global,
    graph: &Graph,
    map: &Map,
    node: NodeId,
    holds: bool,
) -> Result<Clauses, BlastFail>
    requires map { IsMapOf graph.now map.now }
    requires node { node.0 < length graph.now.nodes }
    ensures clauses { IfOk result (λ c. c ≡ node_says holds map.now node) }
    ensures past { IfErr result IsPast }
    ensures cut { IfErr result (IsCutOff (node_says holds map.now node)) }
{
    let mut clauses = Clauses::new(alloc);
    let mut bits = begin(alloc, map, &mut clauses)?;
    state(alloc, graph, map, node, holds, &mut clauses, &mut bits)?;
    Ok(clauses)
}
