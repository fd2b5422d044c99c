//! The clauses of an obligation, by its number.
ghost use Rattle.std.specs.Prelude.{◌≡◌, ◌<◌, IfErr, IfOk};
ghost use Rattle.c_graph.specs.Runs.{IsMapOf};
ghost use Rattle.obligations.specs.Questions.{count_of};
ghost use Rattle.bit_gates.specs.Cut.{IsCutOff};
ghost use Rattle.obligations.specs.Stated.{IsPast, obligation_says};

use crate::clauses::node_clauses;
use crate::edges::edge_clauses;
use crate::questions::{Question, question_at};
use c_graph::{Graph, Map};
use prop::{BlastFail, Clauses};
use std::alloc::Global;

/// The clauses that say that an obligation fails: they are satisfiable exactly where it does. They are `Over` where their literals would
/// pass the limit. A term is blasted once in each step, and operations that give nothing that the formula at the edge's end needs add
/// nothing. No clause is empty.
pub fn obligation(
    alloc: Global,
    graph: &Graph,
    map: &Map,
    number: u32,
) -> Result<Clauses, BlastFail>
    requires map { IsMapOf graph.now map.now }
    requires number { number < count_of graph.now }
    ensures clauses { IfOk result (λ c. c ≡ obligation_says graph.now map.now number) }
    ensures past { IfErr result IsPast }
    ensures cut { IfErr result (IsCutOff (obligation_says graph.now map.now number)) }
{
    match question_at(graph, number) {
        Question::Entry => node_clauses(alloc, graph, map, graph.entry(), false),
        Question::Edge(edge) => edge_clauses(alloc, graph, map, edge),
        Question::Error(node) => node_clauses(alloc, graph, map, node, true),
    }
}
