//! `units STEP ; ..`: steps over the unwinding of one vertex at the graph's entry. `expand VERTEX` and `cover VERTEX VERTEX`, by
//! one whose label is true, answer whether that is legal; other words ask. Behind `not` the answer is to be no.
ghost use Rattle.std.specs.Prelude.{◌≡◌, ◌<◌, [], IsTrue, Some, length, slice_get};
ghost use Rattle.c_graph.specs.declared.graph.Node.TheVariants.{Plain};
ghost use Rattle.reach_tree.specs.Trees.{vertex_at};
ghost use Rattle.cover_engine.specs.Units.{Legal};

use crate::ask;
use c_graph::{Graph, Node};
use cover_engine::Unwinding;
use graph_rows::whole_graph;
use reach_tree::{Vertex, VertexId};
use row_text::{RowFail, Table, fields, number};
use std::alloc::Global;

// Whether the vertex is at a plain node of the graph.
fn is_plain_at(graph: &Graph, vertices: &[Vertex], v: usize) -> bool
    requires { v < length vertices.now }
    ensures { IsTrue result → slice_get graph.now.nodes (vertex_at vertices.now v).node.0 ≡ Some Plain }
{
    let number = vertices[v].node.0 as usize;
    let nodes = graph.nodes();
    if number >= nodes.len() {
        return false;
    }
    match nodes[number] {
        Node::Plain => true,
        Node::Error(_, _) | Node::End | Node::Call(_, _) => false,
    }
}

// Expands an open leaf at a plain node, where the vertex is one.
fn expand(alloc: Global, graph: &Graph, unwinding: &mut Unwinding, v: u32) -> Result<bool, RowFail>
    requires { Legal graph.now unwinding.old }
    ensures { Legal graph.now unwinding.new }
{
    if v as usize >= unwinding.vertices().len() {
        return Err(RowFail::Bad);
    }
    if !unwinding.open_leaf(graph, VertexId(v)) {
        return Ok(false);
    }
    if !is_plain_at(graph, unwinding.vertices(), v as usize) {
        return Ok(false);
    }
    unwinding.expanded(alloc, graph, VertexId(v))?;
    Ok(true)
}

// Whether the label of the vertex is true.
fn is_unlabelled(vertices: &[Vertex], v: usize) -> bool
    requires { v < length vertices.now }
    ensures { IsTrue result → (vertex_at vertices.now v).label ≡ [] }
{
    vertices[v].label.as_slice().is_empty()
}

// Covers a vertex by another one, whose label is true, where that is legal.
fn cover(
    alloc: Global,
    graph: &Graph,
    unwinding: &mut Unwinding,
    v: u32,
    w: u32,
) -> Result<bool, RowFail>
    requires { Legal graph.now unwinding.old }
    ensures { Legal graph.now unwinding.new }
{
    let count = unwinding.vertices().len();
    if v as usize >= count || w as usize >= count {
        return Err(RowFail::Bad);
    }
    if !unwinding.may_settle(VertexId(v), VertexId(w)) {
        return Ok(false);
    }
    if !is_unlabelled(unwinding.vertices(), w as usize) {
        return Ok(false);
    }
    unwinding.cover_yes(alloc, graph, VertexId(v), VertexId(w))?;
    Ok(true)
}

// Makes the step of a word, or answers it.
fn act(
    alloc: Global,
    graph: &Graph,
    unwinding: &mut Unwinding,
    word: &str,
    rest: &str,
) -> Result<bool, RowFail>
    requires { Legal graph.now unwinding.old }
    ensures { Legal graph.now unwinding.new }
{
    match word {
        "expand" => expand(alloc, graph, unwinding, number(Some(rest))?),
        "cover" => {
            let (v, w) = fields(rest);
            cover(alloc, graph, unwinding, number(Some(v))?, number(Some(w))?)
        }
        _ => ask(alloc, graph, unwinding, word, rest),
    }
}

// Makes a step, whose answer is to be yes, or no behind `not`.
fn step(
    alloc: Global,
    graph: &Graph,
    unwinding: &mut Unwinding,
    part: &str,
) -> Result<bool, RowFail>
    requires { Legal graph.now unwinding.old }
    ensures { Legal graph.now unwinding.new }
{
    let (word, rest) = fields(part);
    if word == "not" {
        let (word, rest) = fields(rest);
        return Ok(!act(alloc, graph, unwinding, word, rest)?);
    }
    act(alloc, graph, unwinding, word, rest)
}

// Tries the row.
fn go(alloc: Global, text: &str, rest: &str) -> Result<bool, RowFail> {
    let graph = whole_graph(alloc, text)?;
    let unwinding = Unwinding::new(alloc, &graph)?;
    go_on(alloc, &graph, unwinding, rest)
}

// Whether the units behind this unwinding are as the row says.
fn go_on(alloc: Global, graph: &Graph, unwinding: Unwinding, rest: &str) -> Result<bool, RowFail>
    requires { Legal graph.now unwinding }
{
    let mut unwinding = unwinding;
    for part in rest.split(';') {
        if !step(alloc, graph, &mut unwinding, part)? {
            return Ok(false);
        }
    }
    Ok(true)
}

/// Rows of units over an unwinding of a graph of these parts.
#[derive(Drop)]
pub(crate) struct UnitRows<'a> {
    pub(crate) parts: &'a str,
}

impl Table for UnitRows<'_> {
    fn is_so(&mut self, alloc: Global, row: &str) -> Result<bool, RowFail> {
        let (kind, rest) = fields(row);
        match kind {
            "units" => go(alloc, self.parts, rest),
            _ => Err(RowFail::Bad),
        }
    }
}
