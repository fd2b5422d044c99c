//! Paths from the root down to a vertex.
ghost use Rattle.std.specs.Prelude.{◌≡◌, ◌++◌, reverse, IfOk, OnOk};
ghost use Rattle.reach_tree.specs.Trees.{vertex_at};
ghost use Rattle.cover_engine.specs.Unwindings.{vertices_named};
ghost use Rattle.cover_engine.specs.Units.{edge_in, edges_to};

use c_graph::EdgeId;
use lv_base::Memory;
use reach_tree::{Vertex, VertexId};
use std::alloc::Global;
use std::marker::Model;

/// The vertices of a path, the root first. Contracts see the list of them.
#[derive(Drop)]
pub struct PathVertices {
    items: Vec<VertexId>,
}

impl Model for PathVertices {
    ghost use Rattle.std.specs.Prelude.{List};
    ghost use Rattle.reach_tree.specs.declared.vertex.VertexId.{VertexId};

    ghost Value = { List VertexId };

    ghost view = { λ p. p.items.items };
}

impl PathVertices {
    /// The vertices of a list. It takes no memory.
    pub fn new(items: Vec<VertexId>) -> PathVertices
        ensures { result ≡ items.items }
    {
        PathVertices { items }
    }

    /// The vertices in order.
    pub fn as_slice(&self) -> &[VertexId]
        ensures { result.now ≡ self.now }
    {
        &self.items
    }
}

/// The edges of a path, in its order. Contracts see the list of them.
#[derive(Drop)]
pub struct PathEdges {
    items: Vec<EdgeId>,
}

impl Model for PathEdges {
    ghost use Rattle.std.specs.Prelude.{List};
    ghost use Rattle.c_graph.specs.declared.graph.EdgeId.{EdgeId};

    ghost Value = { List EdgeId };

    ghost view = { λ p. p.items.items };
}

impl PathEdges {
    /// The edges of a list. It takes no memory.
    pub fn new(items: Vec<EdgeId>) -> PathEdges
        ensures { result ≡ items.items }
    {
        PathEdges { items }
    }

    /// The edges in order.
    pub fn as_slice(&self) -> &[EdgeId]
        ensures { result.now ≡ self.now }
    {
        &self.items
    }
}

/// The path of a vertex.
#[derive(Drop)]
pub struct Path {
    /// Its vertices, from the root down.
    pub vertices: PathVertices,
    /// The edges between them.
    pub edges: PathEdges,
}

/// The edge by which the vertex of this number was reached, none at the root and past the end.
fn edge_of(vertices: &[Vertex], v: usize) -> Option<EdgeId>
    ensures { result ≡ (vertex_at vertices.now v).by }
{
    if v < vertices.len() {
        vertices[v].by
    } else {
        None
    }
}

/// Appends the edge, where there is one.
fn push_edge(by: Option<EdgeId>, edges: &mut Vec<EdgeId>) -> Result<(), Memory>
    ensures { OnOk result (edges.new.items ≡ edges.old.items ++ edge_in by) }
{
    match by {
        None => Ok(()),
        Some(edge) => {
            edges.push(edge)?;
            Ok(())
        }
    }
}

/// The edges that lead to the vertices of these numbers.
fn edges_along(alloc: Global, vertices: &[Vertex], path: &[u32]) -> Result<Vec<EdgeId>, Memory>
    ensures { IfOk result (λ r. r.items ≡ edges_to vertices.now path.now) }
{
    let mut edges: Vec<EdgeId> = Vec::new(alloc);
    for number in path {
        push_edge(edge_of(vertices, *number as usize), &mut edges)?;
    }
    Ok(edges)
}

/// The vertices of these numbers.
fn vertices_of(alloc: Global, numbers: &[u32]) -> Result<Vec<VertexId>, Memory>
    ensures { IfOk result (λ r. r.items ≡ vertices_named numbers.now) }
{
    let mut vertices = Vec::new(alloc);
    for number in numbers {
        vertices.push(VertexId(*number))?;
    }
    Ok(vertices)
}

/// The path whose numbers are these, from its last vertex up to the root.
pub fn path_down(alloc: Global, vertices: &[Vertex], upwards: &[u32]) -> Result<Path, Memory>
    ensures vertices { IfOk result (λ p. p.vertices ≡ vertices_named (reverse upwards.now)) }
    ensures edges { IfOk result (λ p. p.edges ≡ edges_to vertices.now (reverse upwards.now)) }
{
    let down: Vec<u32> = upwards.iter().rev().copied().collect(alloc)?;
    let edges = edges_along(alloc, vertices, &down)?;
    let named = vertices_of(alloc, &down)?;
    Ok(Path {
        vertices: PathVertices::new(named),
        edges: PathEdges::new(edges),
    })
}
