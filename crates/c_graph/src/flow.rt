ghost use Rattle.std.specs.Prelude.{ℕ, ◌≡◌, ◌<◌, ◌≤◌, ◌+◌, length, replicate, IfOk};
ghost use Rattle.c_graph.specs.Shape.{IsFlow, Flow, outs};
ghost use Rattle.c_graph.specs.Chains.{AreChains, Linked, chain, source_of};

use crate::graph::{Cell, Edge, EdgeId, LoopAt, Node, NodeId};
use bv_term::Terms;
use lv_base::Memory;
use std::alloc::Global;
use std::marker::Model;

/// The graph of a program: nodes, edges with operations, the cells of the store, and the terms of the operations. Its
/// type keeps that all numbers are in range, that operations fit their cells and terms, that edges lead from plain
/// nodes alone, and that no run stops at a plain node for want of an edge.
///
/// The edges of each node are linked: `first` has the number of the first edge that leads from a node, `next` that of
/// the next edge from the same node, and the number of all edges stands where there is none. So a node's edges are
/// found without a look at any other.
#[derive(Drop)]
pub struct Graph {
    nodes: Vec<Node>,
    edges: Vec<Edge>,
    cells: Vec<Cell>,
    terms: Terms,
    entry: NodeId,
    loops: Vec<LoopAt>,
    first: Vec<u32>,
    next: Vec<u32>,
}

impl Model for Graph {
    ghost use Rattle.c_graph.specs.Shape.{Flow, IsFlow};
    ghost use Rattle.c_graph.specs.Chains.{AreChains};

    ghost Value = { Flow };

    ghost view = { λ g. record {
      nodes = g.nodes.items;
      edges = g.edges.items;
      cells = g.cells.items;
      terms = g.terms;
      entry = g.entry;
      loops = g.loops.items;
    } };

    ghost invariant = { λ g. IsFlow (record {
      nodes = g.nodes.items;
      edges = g.edges.items;
      cells = g.cells.items;
      terms = g.terms;
      entry = g.entry;
      loops = g.loops.items;
    }) × AreChains g.nodes.items g.edges.items g.first.items g.next.items };
}

impl Graph {
    /// The graph of these parts, with its edges linked.
    pub fn new(
        alloc: Global,
        nodes: Vec<Node>,
        edges: Vec<Edge>,
        cells: Vec<Cell>,
        terms: Terms,
        entry: NodeId,
        loops: Vec<LoopAt>,
    ) -> Result<Graph, Memory>
        requires { IsFlow (record {
          nodes = nodes.items;
          edges = edges.items;
          cells = cells.items;
          terms = terms;
          entry = entry;
          loops = loops.items;
        }) }
        ensures { IfOk result (λ g. g ≡ record {
          nodes = nodes.items;
          edges = edges.items;
          cells = cells.items;
          terms = terms;
          entry = entry;
          loops = loops.items;
        }) }
    {
        let (first, next) = links(alloc, nodes.len(), &edges)?;
        Ok(Graph {
            nodes,
            edges,
            cells,
            terms,
            entry,
            loops,
            first,
            next,
        })
    }

    /// The nodes, by number.
    pub fn nodes(&self) -> &[Node]
        ensures value { result.now ≡ self.now.nodes }
        ensures flow { IsFlow self.now }
    {
        &self.nodes
    }

    /// The edges, by number.
    pub fn edges(&self) -> &[Edge]
        ensures value { result.now ≡ self.now.edges }
        ensures flow { IsFlow self.now }
    {
        &self.edges
    }

    /// The cells, by number.
    pub fn cells(&self) -> &[Cell]
        ensures value { result.now ≡ self.now.cells }
        ensures flow { IsFlow self.now }
    {
        &self.cells
    }

    /// The terms of the operations.
    pub fn terms(&self) -> &Terms
        ensures value { result.now ≡ self.now.terms }
        ensures flow { IsFlow self.now }
    {
        &self.terms
    }

    /// The node at which runs begin.
    pub fn entry(&self) -> NodeId
        ensures value { result ≡ self.now.entry }
        ensures flow { IsFlow self.now }
    {
        self.entry
    }

    /// The nodes of loops, by the offset of the loop's keyword.
    pub fn loops(&self) -> &[LoopAt]
        ensures value { result.now ≡ self.now.loops }
        ensures flow { IsFlow self.now }
    {
        &self.loops
    }

    /// The numbers of the edges that lead from a node, rising.
    pub fn outs(&self, alloc: Global, node: NodeId) -> Result<Vec<EdgeId>, Memory>
        ensures { IfOk result (λ v. v.items ≡ outs self.now node) }
    {
        if node.0 as usize >= self.first.len() {
            return Ok(Vec::new(alloc));
        }
        follow(
            alloc,
            &self.next,
            self.first[node.0 as usize],
            self.edges.len(),
        )
    }
}

/// The number of edges. It takes no memory.
pub fn edge_count(graph: &Graph) -> u32
    ensures value { result ≡ length graph.now.edges }
    ensures flow { IsFlow graph.now }
{
    graph.edges.len() as u32
}

/// The number of the node from which the edge of a number leads.
fn source(edges: &[Edge], number: usize) -> u32
    requires { number < length edges.now }
    ensures { result ≡ source_of edges.now number }
{
    edges[number].from.0
}

/// The first edge from each node, and the next edge from the same node: linked from the last edge to the first, so that
/// the numbers in a chain rise.
fn links(alloc: Global, nodes: usize, edges: &[Edge]) -> Result<(Vec<u32>, Vec<u32>), Memory>
    requires few { length edges.now < 4294967296 }
    requires sources { (k : ℕ) → k < length edges.now → source_of edges.now k < nodes }
    ensures { IfOk result (λ l. Linked nodes edges.now 0 l.0.items l.1.items) }
{
    let none = edges.len() as u32;
    let mut first = filled(alloc, none, nodes)?;
    let mut next = filled(alloc, none, edges.len())?;
    let mut number = edges.len();
    while number > 0 {
        number -= 1;
        let from = source(edges, number) as usize;
        next[number] = first[from];
        first[from] = number as u32;
    }
    Ok((first, next))
}

/// So many times the value.
fn filled(alloc: Global, value: u32, count: usize) -> Result<Vec<u32>, Memory>
    ensures { IfOk result (λ v. v.items ≡ replicate count value) }
{
    let values = vec![in alloc; value; count]?;
    Ok(values)
}

/// The chain from a number on, at most so long.
fn follow(alloc: Global, next: &[u32], from: u32, most: usize) -> Result<Vec<EdgeId>, Memory>
    ensures { IfOk result (λ v. v.items ≡ chain next.now most from) }
{
    let mut found = Vec::new(alloc);
    let mut at = from;
    let mut left = most;
    while left > 0 && (at as usize) < next.len() {
        found.push(EdgeId(at))?;
        at = next[at as usize];
        left -= 1;
    }
    Ok(found)
}
