//! An error leaf: its path has a run, or is strengthened.

ghost use Rattle.std.specs.Prelude.{◌<◌, ◌≡◌, IfErr, IfOk, OnErr, length, map, reverse};
ghost use Rattle.bv_term.specs.Laws.{Extends};
ghost use Rattle.c_graph.specs.Shape.{widths_of};
ghost use Rattle.path_query.specs.Facts.{IsQuery};
ghost use Rattle.reach_tree.specs.Trees.{IsLabel};
ghost use Rattle.resolution_log.specs.Chains.{IsRefutation};
ghost use Rattle.term_copy.specs.Copies.{number_in};
ghost use Rattle.reach_tree.specs.declared.vertex.VertexId.{VertexId};
ghost use Rattle.path_formula.specs.Questions.{question_of};
ghost use Rattle.cover_engine.specs.Unwindings.{path_of};
ghost use Rattle.cover_engine.specs.Units.{Legal, edges_to};
ghost use Rattle.chain_laws.specs.Laws.{AreLinks};
ghost use Rattle.refine.specs.Refinements.{AreOfLog, IsErrorLeaf, IsRefined, IsStrengthened, IsLeafRefused, OnlyGrows, edges_of};

use crate::answers::{Refined, answer_to, no_clauses, no_memory};
use crate::values::drawn_values;
use bv_term::{TermId, Terms};
use c_graph::{EdgeId, Graph};
use cdcl_solver::{Answer, QueryFail};
use cover_engine::{FormulaList, Unwinding};
use interpolants::chain;
use lv_base::Memory;
use path_formula::path_clauses;
use path_query::PathQuery;
use reach_tree::VertexId;
use resolution_log::Log;
use std::alloc::Global;
use term_copy::number_in;

// The new numbers of terms.
fn numbers_of(alloc: Global, to: &[TermId], terms: &[TermId]) -> Result<Vec<TermId>, Memory>
    ensures { IfOk result (λ r. r.items ≡ map (number_in to.now) terms.now) }
{
    let mut numbers = Vec::new(alloc);
    for term in terms {
        numbers.push(number_in(to, *term))?;
    }
    Ok(numbers)
}

// The formulas of a path's cuts, read from a refutation, as terms of the unwinding.
fn formulas_of(
    alloc: Global,
    graph: &Graph,
    unwinding: &mut Unwinding,
    path: &[EdgeId],
    query: &PathQuery,
    log: &Log,
) -> Result<FormulaList, Memory>
    requires cells { unwinding.old.terms.cells ≡ widths_of graph.now.cells }
    requires query { IsQuery (widths_of graph.now.cells) (length path.now) query.now }
    requires refuted { IsRefutation query.now.clauses log.now }
    requires question { query.now ≡ question_of graph.now path.now }
    ensures formulas { IfOk result (IsLabel unwinding.new.terms) }
    ensures extends { Extends unwinding.old.terms unwinding.new.terms }
    ensures others { unwinding.new ≡ record unwinding.old { terms = unwinding.new.terms } }
    ensures own { (v : VertexId) → path.now ≡ edges_of unwinding.old v
        → IfOk result (AreOfLog graph.now unwinding.old unwinding.new v log.now) }
    ensures links { (v : VertexId) → Legal graph.now unwinding.old → v.0 < length unwinding.old.vertices → path.now ≡ edges_of unwinding.old v
        → IfOk result (AreLinks graph.now unwinding.new v) }
{
    let _entry = graph.entry();
    let cells = graph.terms().cells().to_vec(alloc)?;
    let mut terms = Terms::new(alloc, cells);
    let formulas = chain(alloc, graph, path, query, log, &mut terms)?;
    let to = unwinding.take_terms(alloc, &terms)?;
    let numbers = numbers_of(alloc, &to, &formulas)?;
    Ok(FormulaList::new(numbers))
}

// Strengthens the path by the formulas of a refutation.
fn strengthen(
    alloc: Global,
    graph: &Graph,
    unwinding: &mut Unwinding,
    v: VertexId,
    path: &[EdgeId],
    query: &PathQuery,
    log: &Log,
) -> Result<(), Memory>
    requires vertex { v.0 < length unwinding.old.vertices }
    requires cells { unwinding.old.terms.cells ≡ widths_of graph.now.cells }
    requires query { IsQuery (widths_of graph.now.cells) (length path.now) query.now }
    requires refuted { IsRefutation query.now.clauses log.now }
    requires question { query.now ≡ question_of graph.now path.now }
    requires path { path.now ≡ edges_of unwinding.old v }
    ensures extends { Extends unwinding.old.terms unwinding.new.terms }
    ensures strengthened { IfOk result (λ _. IsStrengthened graph.now unwinding.old unwinding.new v log.now) }
    ensures legal { Legal graph.now unwinding.old → IsErrorLeaf graph.now unwinding.old v → Legal graph.now unwinding.new }
    ensures only { OnErr result (OnlyGrows unwinding.old unwinding.new) }
{
    let _vertices = unwinding.vertices();
    let formulas = formulas_of(alloc, graph, unwinding, path, query, log)?;
    unwinding.refined(alloc, graph, v, formulas)
}

/// Asks for a run of an error leaf's path. Where there is none, one Refine unit strengthens the path by formulas that one
/// refutation gives. The unit is legal where the unwinding was and the leaf is open and at an error.
///
/// Where the unwinding is legal, the values that are answered drive a run along the path to the leaf's node. `Over` says that the path's
/// clauses have too many literals, `OverLog` that a new log over them has too many pairs.
pub fn refine_leaf(
    alloc: Global,
    graph: &Graph,
    unwinding: &mut Unwinding,
    v: VertexId,
    learn: u64,
) -> Result<Refined, QueryFail>
    requires vertex { v.0 < length unwinding.old.vertices }
    requires cells { unwinding.old.terms.cells ≡ widths_of graph.now.cells }
    requires learn { 0 < learn }
    ensures extends { Extends unwinding.old.terms unwinding.new.terms }
    ensures refined { IfOk result (IsRefined graph.now unwinding.old unwinding.new v learn) }
    ensures legal { Legal graph.now unwinding.old → IsErrorLeaf graph.now unwinding.old v → Legal graph.now unwinding.new }
    ensures only { OnErr result (OnlyGrows unwinding.old unwinding.new) }
    ensures refused { IfErr result (IsLeafRefused graph.now unwinding.old unwinding.new v learn) }
{
    let _entry = graph.entry();
    let path = match unwinding.path_to(alloc, v) {
        Ok(path) => path,
        Err(end) => return Err(no_memory(end)),
    };
    let edges = path.edges.as_slice();
    let query = match path_clauses(alloc, graph, edges) {
        Ok(query) => query,
        Err(end) => return Err(no_clauses(end)),
    };
    match answer_to(alloc, &query.clauses, learn)? {
        Answer::Sat(found) => match drawn_values(alloc, graph, edges, &query, &found) {
            Ok(values) => Ok(Refined::Feasible(values)),
            Err(end) => Err(no_memory(end)),
        },
        Answer::Unsat(log) => match strengthen(alloc, graph, unwinding, v, edges, &query, &log) {
            Ok(()) => Ok(Refined::Strengthened(log)),
            Err(end) => Err(no_memory(end)),
        },
        Answer::Spent(log) => Ok(Refined::Spent(log)),
    }
}
