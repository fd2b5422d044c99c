//! An unwinding of the loop's graph that only legal units change.
ghost use Rattle.std.specs.Prelude.{ℕ, ◌≡◌, ◌↔◌, ◌<◌, All, Contains, IsTrue, length, slice_get, slice_index, Some, [], reverse, IfOk, IfSome, OnOk, if◌then◌else◌};
ghost use Rattle.c_graph.specs.declared.graph.Node.TheVariants.{Plain};
ghost use Rattle.reach_tree.specs.Trees.{vertex_at};
ghost use Rattle.c_graph.specs.Shape.{widths_of};
ghost use Rattle.cover_engine.specs.Units.{after_cover, after_expand, start};
ghost use Rattle.loop_journey.specs.Loop.{IsErrorNode, IsParted, IsRefined, Parts, Travels, is_expandable, is_plain, label_table, loop_flow, vertex};

use crate::chain::chain_up;
use crate::loop_graph::loop_graph;
use bv_term::{Term, TermId};
use c_graph::{Graph, Named, Node, NodeId, Store};
use cover_engine::{FormulaList, Unwinding};
use lv_base::Memory;
use reach_tree::{Vertex, VertexId};
use std::alloc::Global;
use std::marker::Model;

/// An unwinding of the loop's graph, over a table with the terms of the formulas. Its type keeps that it is legal.
#[derive(Drop)]
pub struct Journey {
    graph: Graph,
    unwinding: Unwinding,
}

impl Model for Journey {
    ghost use Rattle.loop_journey.specs.Loop.{Travelled, Travels};

    ghost Value = { Travelled };

    ghost view = { λ j. record { flow = j.graph; unwound = j.unwinding } };

    ghost invariant = { λ j. Travels j.graph j.unwinding };
}

impl Journey {
    /// The unwinding of one vertex over the loop's graph, which goes on at node `last` where the drawn value is 0. There
    /// is none where `last` is no node of it.
    pub fn new(alloc: Global, last: u32) -> Result<Option<Journey>, Memory>
        ensures flow { IfOk result (λ r. IfSome r (λ j. j.flow ≡ loop_flow last)) }
        ensures start { IfOk result (λ r. IfSome r (λ j. j.unwound ≡ start (loop_flow last) label_table)) }
    {
        let Some(graph) = loop_graph(alloc, last)? else {
            return Ok(None);
        };
        let mut unwinding = Unwinding::new(alloc, &graph)?;
        put_terms(&graph, &mut unwinding)?;
        Ok(Some(Journey { graph, unwinding }))
    }

    /// The graph.
    pub fn graph(&self) -> &Graph
        ensures { result.now ≡ self.now.flow }
    {
        &self.graph
    }

    /// The unwinding.
    pub fn unwinding(&self) -> &Unwinding
        ensures { result.now ≡ self.now.unwound }
    {
        &self.unwinding
    }

    /// Expands the vertex where that is legal, and answers whether it was.
    pub fn expand(&mut self, alloc: Global, v: u32) -> Result<bool, Memory>
        ensures flow { self.new.flow ≡ self.old.flow }
        ensures legal { IfOk result (λ d. d ≡ is_expandable self.old.flow self.old.unwound (vertex v)) }
        ensures done { IfOk result (λ d. self.new.unwound ≡ if d then after_expand self.old.flow self.old.unwound (vertex v) else self.old.unwound) }
    {
        if v as usize >= self.unwinding.vertices().len() {
            return Ok(false);
        }
        let is_plain = is_plain_at(self.graph.nodes(), self.unwinding.vertices(), v);
        if !is_plain || !self.unwinding.open_leaf(&self.graph, VertexId(v)) {
            return Ok(false);
        }
        self.unwinding.expanded(alloc, &self.graph, VertexId(v))?;
        Ok(true)
    }

    /// Covers the first vertex by the second where that is legal and each conjunct of the second's label is one of the
    /// first's, and answers whether it did.
    pub fn cover(&mut self, alloc: Global, v: u32, w: u32) -> Result<bool, Memory>
        ensures flow { self.new.flow ≡ self.old.flow }
        ensures done { IfOk result (λ d. self.new.unwound ≡ if d then after_cover self.old.unwound (vertex v) (vertex w) else self.old.unwound) }
    {
        let count = self.unwinding.vertices().len();
        if v as usize >= count || w as usize >= count {
            return Ok(false);
        }
        if !self.unwinding.may_settle(VertexId(v), VertexId(w)) {
            return Ok(false);
        }
        if !has_label_of(self.unwinding.vertices(), v, w) {
            return Ok(false);
        }
        self.unwinding
            .cover_yes(alloc, &self.graph, VertexId(v), VertexId(w))?;
        Ok(true)
    }

    /// Strengthens the path of an error leaf by a chain that has x = 0 above the leaf as long as at most `spare` edges that
    /// ask for it are passed, where that is legal, and answers whether it did.
    pub fn refine(&mut self, alloc: Global, v: u32, spare: u32) -> Result<bool, Memory>
        ensures flow { self.new.flow ≡ self.old.flow }
        ensures done { IfOk result (λ d. IsRefined d self.old.unwound (vertex v) self.new.unwound) }
    {
        if v as usize >= self.unwinding.vertices().len() {
            return Ok(false);
        }
        let is_error = is_error_at(self.graph.nodes(), self.unwinding.vertices(), v);
        if !is_error || !self.unwinding.open_leaf(&self.graph, VertexId(v)) {
            return Ok(false);
        }
        let Some(upwards) = chain_up(alloc, self.unwinding.vertices(), VertexId(v), spare)? else {
            return Ok(false);
        };
        let formulas = reversed(alloc, &upwards)?;
        self.unwinding.refined(alloc, &self.graph, VertexId(v), FormulaList::new(formulas))?;
        Ok(true)
    }

    /// Keeps the pair apart by the store that has the value in its first cell, where that is legal, and answers whether it
    /// did.
    pub fn part(&mut self, alloc: Global, v: u32, w: u32, value: u128) -> Result<bool, Memory>
        ensures flow { self.new.flow ≡ self.old.flow }
        ensures done { IfOk result (λ d. IsParted d self.old.unwound (vertex v) (vertex w) self.new.unwound) }
    {
        let count = self.unwinding.vertices().len();
        if v as usize >= count || w as usize >= count {
            return Ok(false);
        }
        if !self.unwinding.may_settle(VertexId(v), VertexId(w)) {
            return Ok(false);
        }
        let mut named = Vec::new(alloc);
        named.push(Named { cell: 0, value })?;
        let store = Store::new(2, named);
        if !parts(alloc, &self.unwinding, &store, v, w)? {
            return Ok(false);
        }
        self.unwinding
            .cover_no(&self.graph, VertexId(v), VertexId(w), store)?;
        Ok(true)
    }
}

/// The terms from the last to the first.
fn reversed(alloc: Global, terms: &[TermId]) -> Result<Vec<TermId>, Memory>
    ensures { IfOk result (λ r. r.items ≡ reverse terms.now) }
{
    let turned: Vec<TermId> = terms.iter().rev().copied().collect(alloc)?;
    Ok(turned)
}

/// Whether the store is one of the table's cells that meets the first vertex's label and not the second's.
fn parts(
    alloc: Global,
    unwinding: &Unwinding,
    store: &Store,
    v: u32,
    w: u32,
) -> Result<bool, Memory>
    requires left { v < length unwinding.now.vertices }
    requires right { w < length unwinding.now.vertices }
    ensures { IfOk result (λ r. IsTrue r → Parts unwinding.now store.now v w) }
{
    let cells = store.values(alloc)?;
    let terms = unwinding.terms();
    if cells.len() != terms.cells().len() || !terms.is_store(&cells) {
        return Ok(false);
    }
    let values = terms.values(alloc, &cells)?;
    let vertices = unwinding.vertices();
    if !meets(&values, vertices[v as usize].label.as_slice()) {
        return Ok(false);
    }
    Ok(!meets(&values, vertices[w as usize].label.as_slice()))
}

/// Whether each term of the label has the value 1.
fn meets(values: &[u128], label: &[TermId]) -> bool
    ensures { IsTrue result ↔ All (λ t. slice_index values.now t.0 ≡ 1) label.now }
{
    for term in label {
        if value_of(values, *term) != 1 {
            return false;
        }
    }
    true
}

/// The value of a term, 0 past the end.
fn value_of(values: &[u128], term: TermId) -> u128
    ensures { result ≡ slice_index values.now term.0 }
{
    let number = term.0 as usize;
    if number < values.len() {
        values[number]
    } else {
        0
    }
}

/// Whether the vertex is at an error node.
fn is_error_at(nodes: &[Node], vertices: &[Vertex], v: u32) -> bool
    requires { v < length vertices.now }
    ensures { IsTrue result → IsErrorNode (slice_get nodes.now (vertex_at vertices.now v).node.0) }
{
    let number = vertices[v as usize].node.0 as usize;
    if number >= nodes.len() {
        return false;
    }
    match nodes[number] {
        Node::Error(_, _) => true,
        Node::Plain | Node::End | Node::Call(_, _) => false,
    }
}

/// Puts the terms of the formulas into the empty table of an unwinding of the loop's graph.
fn put_terms(graph: &Graph, unwinding: &mut Unwinding) -> Result<(), Memory>
    requires graph { (last : ℕ) × (graph.now ≡ loop_flow last) }
    requires start { unwinding.old ≡ start graph.now unwinding.old.terms }
    requires cells { unwinding.old.terms.cells ≡ widths_of graph.now.cells }
    requires empty { unwinding.old.terms.terms ≡ [] }
    ensures travels { OnOk result (Travels graph.now unwinding.new) }
    ensures start { OnOk result (unwinding.new ≡ start graph.now label_table) }
{
    let _ = graph.entry();
    unwinding.put(Term::Constant(32, 0))?;
    unwinding.put(Term::Cell(0))?;
    unwinding.put(Term::Equal(TermId(1), TermId(0)))?;
    unwinding.put(Term::Constant(1, 1))?;
    unwinding.put(Term::Constant(1, 0))?;
    Ok(())
}

/// Whether the vertex is at a plain node.
fn is_plain_at(nodes: &[Node], vertices: &[Vertex], v: u32) -> bool
    requires { v < length vertices.now }
    ensures value { result ≡ is_plain (slice_get nodes.now (vertex_at vertices.now v).node.0) }
    ensures node { IsTrue result → slice_get nodes.now (vertex_at vertices.now v).node.0 ≡ Some Plain }
{
    let number = vertices[v as usize].node.0 as usize;
    if number >= nodes.len() {
        return false;
    }
    match nodes[number] {
        Node::Plain => true,
        Node::Error(_, _) | Node::End | Node::Call(_, _) => false,
    }
}

/// Whether each conjunct of the second vertex's label is one of the first's.
fn has_label_of(vertices: &[Vertex], v: u32, w: u32) -> bool
    requires left { v < length vertices.now }
    requires right { w < length vertices.now }
    ensures { IsTrue result → All (Contains (vertex_at vertices.now v).label) (vertex_at vertices.now w).label }
{
    has_all(
        vertices[v as usize].label.as_slice(),
        vertices[w as usize].label.as_slice(),
    )
}

/// Whether each of the second terms is one of the first.
fn has_all(label: &[TermId], terms: &[TermId]) -> bool
    ensures { IsTrue result → All (Contains label.now) terms.now }
{
    for term in terms {
        if !has(label, *term) {
            return false;
        }
    }
    true
}

/// Whether the term is a conjunct of the label.
fn has(label: &[TermId], term: TermId) -> bool
    ensures { IsTrue result → Contains label.now term }
{
    for conjunct in label {
        if conjunct.0 == term.0 {
            return true;
        }
    }
    false
}
