//! Ways that are regular.
ghost use Rattle.std.specs.Prelude.{◌≡◌, IsTrue, length};
ghost use Rattle.bv_term.specs.WellFormed.{IsTable};
ghost use Rattle.graph_walk_laws.specs.Walks.{AreComplements};
ghost use Rattle.block_rule.specs.Plans.{AreRegular, Exclude, IsError};
ghost use Rattle.block_edges.specs.Exact.{Either};
ghost use Rattle.walk_states.specs.Known.{plan_of};
ghost use Rattle.walk_states.specs.Walks.{ways_of};
ghost use Rattle.block_places.specs.Covering.{IsTotal};
ghost use Rattle.block_places.specs.Made as made;

use crate::moves::has_moves;
use bv_term::{Term, TermId, Terms};
use c_graph::{Graph, Node};
use walk_states::{Known, Ways};

fn is_not(term: Term, operand: TermId) -> bool
    ensures tells { IsTrue result → term ≡ Term.Not operand }
    ensures made { result ≡ made.is_not term operand }
{
    match term {
        Term::Not(found) => found.0 == operand.0,
        _ => false,
    }
}

/// Whether the second term is the complement of the first, which has one bit.
fn are_complements(terms: &Terms, first: TermId, second: TermId) -> bool
    ensures table { IsTable terms.now }
    ensures found { IsTrue result → AreComplements terms.now first second }
    ensures made { result ≡ made.are_complements terms.now first second }
{
    if first.0 >= terms.count() || second.0 >= terms.count() {
        return false;
    }
    terms.width_of(first) == 1 && is_not(terms.get(second), first)
}

/// Whether one of the terms is the complement of the other: one of them is 1, and only one.
fn exclude(terms: &Terms, first: TermId, second: TermId) -> bool
    ensures alone { IsTrue result → Exclude terms.now first second }
    ensures either { IsTrue result → Either terms.now first second }
    ensures made { result ≡ made.exclude terms.now first second }
{
    are_complements(terms, first, second) || are_complements(terms, second, first)
}

fn is_error(graph: &Graph, node: u32) -> bool
    ensures tells { IsTrue result → IsError graph.now node }
    ensures made { result ≡ made.is_error graph.now node }
{
    match graph.nodes().get(node as usize) {
        Some(Node::Error(_, _)) => true,
        _ => false,
    }
}

fn are_errors(graph: &Graph, one: u32, other: u32) -> bool
    ensures tells { IsTrue result → IsError graph.now one × IsError graph.now other }
    ensures made { result ≡ made.are_errors graph.now one other }
{
    is_error(graph, one) && is_error(graph, other)
}

/// Whether of two tests one holds, and only one, and both ways behind them are errors.
fn both_fail(graph: &Graph, fails: TermId, error: u32, others: TermId, other: u32) -> bool
    ensures regular { IsTrue result → Exclude graph.now.terms fails others × IsError graph.now error × IsError graph.now other }
    ensures total { IsTrue result → Either graph.now.terms fails others }
    ensures made { result ≡ made.both_fail graph.now fails error others other }
{
    exclude(graph.terms(), fails, others) && are_errors(graph, error, other)
}

/// Whether of the tests of two ways one holds, and only one, what is said to be an error is one, and the operations of ways are moves.
pub(crate) fn is_regular(graph: &Graph, known: &Known, ways: Ways) -> bool
    ensures regular { IsTrue result → AreRegular graph.now (plan_of known.now) (length graph.now.cells) (ways_of graph.now ways) }
    ensures total { IsTrue result → IsTotal graph.now ways }
    ensures made { result ≡ made.is_regular graph.now known.now ways }
{
    match ways {
        Ways::Goes(way) | Ways::Tested(_, way) => has_moves(graph, known, way),
        Ways::Checked(fails, error, passes, way) => {
            exclude(graph.terms(), fails, passes)
                && is_error(graph, error)
                && has_moves(graph, known, way)
        }
        Ways::Fails(fails, error, others, other) => {
            both_fail(graph, fails, error, others, other)
        }
        Ways::Forks(test, _, others, _) => exclude(graph.terms(), test, others),
    }
}
