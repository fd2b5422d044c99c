ghost use Rattle.std.specs.Prelude.{◌≡◌, ◌+◌, ◌^◌, ◌<◌, ◌↔◌, ◌∷◌, [], length, slice_get, All, IsTrue, IfOk, OnOk, OnErr, Some};
ghost use Rattle.bv_term.specs.WellFormed.{FitsTable};
ghost use Rattle.bv_term.specs.Laws.{Extends, IsPut};
ghost use Rattle.c_graph.specs.declared.graph.Node.TheVariants.{Plain};
ghost use Rattle.c_graph.specs.Shape.{widths_of};
ghost use Rattle.term_copy.specs.Copies.{AreCopies};
ghost use Rattle.reach_tree.specs.Trees.{MayExpand, MayStrengthen, changed, expanded, fresh, leaves_of, numbers_from, root_at, IsLabel, AreLabelled, relabelled, strengthened, vertex_at, with_children, with_conjunct, with_label};

use crate::vertex::{Children, Label, NewLabel, Vertex, VertexId};
use bv_term::{Term, TermId, Terms};
use c_graph::{Edge, EdgeId, Graph, Node, NodeId};
use lv_base::Memory;
use std::alloc::Global;
use std::marker::Model;
use term_copy::copied;

/// A tree of paths through a graph. Its first vertex is the root.
#[derive(Drop)]
pub struct Tree {
    vertices: Vec<Vertex>,
    terms: Terms,
}

impl Model for Tree {
    ghost use Rattle.std.specs.Prelude.{◌<◌, ◌^◌, length};
    ghost use Rattle.reach_tree.specs.Trees.{AreLabelled, Branches};

    ghost Value = { Branches };

    ghost view = { λ t. record { vertices = t.vertices.items; terms = t.terms } };

    ghost invariant = { λ t. (length t.vertices.items < 2 ^ 32) × AreLabelled t.terms t.vertices.items };
}

impl Tree {
    /// The tree of one vertex, at the graph's entry, with an empty label; its table has the graph's cells.
    pub fn new(alloc: Global, graph: &Graph) -> Result<Tree, Memory>
        ensures vertices { IfOk result (λ t. t.vertices ≡ root_at graph.now.entry ∷ []) }
        ensures cells { IfOk result (λ t. t.terms.cells ≡ widths_of graph.now.cells) }
        ensures terms { IfOk result (λ t. t.terms.terms ≡ []) }
    {
        let cells = graph.terms().cells().to_vec(alloc)?;
        let mut vertices = Vec::new(alloc);
        vertices.push(fresh_vertex(alloc, None, None, graph.entry()))?;
        Ok(Tree {
            vertices,
            terms: Terms::new(alloc, cells),
        })
    }

    /// The vertices, by number.
    pub fn vertices(&self) -> &[Vertex]
        ensures value { result.now ≡ self.now.vertices }
        ensures few { length self.now.vertices < 2 ^ 32 }
        ensures labelled { AreLabelled self.now.terms self.now.vertices }
    {
        &self.vertices
    }

    /// The table of the terms of the labels.
    pub fn terms(&self) -> &Terms
        ensures { result.now ≡ self.now.terms }
    {
        &self.terms
    }

    /// Puts a term into the table of the labels' terms. Vertices stay.
    pub fn put(&mut self, term: Term) -> Result<TermId, Memory>
        requires { FitsTable self.old.terms term }
        ensures put { IfOk result (λ id. IsPut self.old.terms self.new.terms term) }
        ensures named { IfOk result (λ id. slice_get self.new.terms.terms id.0 ≡ Some term) }
        ensures vertices { self.new.vertices ≡ self.old.vertices }
        ensures unchanged { OnErr result (self.new ≡ self.old) }
    {
        self.terms.put(term)
    }

    /// Puts all terms of another table over the same cells into the table of the labels' terms, and answers their new numbers.
    /// Vertices stay. After a failure some of the terms may stand there.
    pub fn take_terms(&mut self, alloc: Global, from: &Terms) -> Result<Vec<TermId>, Memory>
        requires { self.old.terms.cells ≡ from.now.cells }
        ensures extends { Extends self.old.terms self.new.terms }
        ensures count { IfOk result (λ to. length to.items ≡ length from.now.terms) }
        ensures copies { IfOk result (λ to. AreCopies from.now self.new.terms to.items) }
        ensures vertices { self.new.vertices ≡ self.old.vertices }
    {
        copied(alloc, from, &mut self.terms)
    }

    /// An equal tree.
    pub fn copy(&self, alloc: Global) -> Result<Tree, Memory>
        ensures { IfOk result (λ t. t ≡ self.now) }
    {
        let vertices = copy_of_vertices(alloc, &self.vertices)?;
        let terms = self.terms.copy()?;
        Ok(Tree { vertices, terms })
    }

    /// Whether a vertex of this number is there, without children, and at a plain node of the graph.
    pub fn may_expand(&self, graph: &Graph, v: VertexId) -> bool
        ensures { IsTrue result → MayExpand graph.now self.now v }
    {
        let number = v.0 as usize;
        if number >= self.vertices.len() {
            return false;
        }
        let vertex = &self.vertices[number];
        vertex.children.as_slice().is_empty() && is_plain(graph.nodes(), vertex.node)
    }

    /// Whether a vertex of the first number is there, and a term of width 1 of the second, and the vertex may be
    /// strengthened once more.
    pub fn may_strengthen(&self, v: VertexId, conjunct: TermId) -> bool
        ensures { IsTrue result → MayStrengthen self.now v conjunct }
    {
        let number = v.0 as usize;
        number < self.vertices.len()
            && conjunct.0 < self.terms.count()
            && self.terms.width_of(conjunct) == 1
            && self.vertices[number].version < u32::MAX
    }

    /// Appends one child of a vertex for each edge that leads from its node, in the order of the edges.
    pub fn expand(&mut self, alloc: Global, graph: &Graph, v: VertexId) -> Result<(), Memory>
        requires { MayExpand graph.now self.old v }
        ensures expanded { OnOk result (self.new.vertices ≡ expanded graph.now self.old.vertices v) }
        ensures terms { self.new.terms ≡ self.old.terms }
        ensures unchanged { OnErr result (self.new ≡ self.old) }
    {
        let first = self.vertices.len();
        let edges = graph.outs(alloc, self.vertices[v.0 as usize].node)?;
        if edges.len() > u32::MAX as usize - first {
            return Err(Memory);
        }
        let children = numbers(alloc, first as u32, edges.len() as u32)?;
        let mut leaves = new_leaves(alloc, graph.edges(), v, &edges)?;
        self.vertices.append(&mut leaves)?;
        set_children(&mut self.vertices, v.0 as usize, Children::new(children));
        Ok(())
    }

    /// Appends a conjunct to the label of a vertex, and raises its version by one.
    pub fn strengthen(&mut self, v: VertexId, conjunct: TermId) -> Result<(), Memory>
        requires { MayStrengthen self.old v conjunct }
        ensures strengthened { OnOk result (self.new.vertices ≡ strengthened self.old.vertices v conjunct) }
        ensures terms { self.new.terms ≡ self.old.terms }
        ensures unchanged { OnErr result (self.new ≡ self.old) }
    {
        add_conjunct(&mut self.vertices, v.0 as usize, conjunct)
    }

    /// Puts these labels and versions in place of those of their vertices, one after another. It takes no memory.
    pub fn relabel(&mut self, labels: Vec<NewLabel>)
        requires there { All (λ l. l.vertex.0 < length self.old.vertices) labels.items }
        requires labels { All (λ l. IsLabel self.old.terms l.label) labels.items }
        ensures vertices { self.new.vertices ≡ relabelled self.old.vertices labels.items }
        ensures terms { self.new.terms ≡ self.old.terms }
    {
        put_labels(&mut self.vertices, labels);
    }
}

fn put_labels(vertices: &mut Vec<Vertex>, labels: Vec<NewLabel>)
    requires { All (λ l. l.vertex.0 < length vertices.old.items) labels.items }
    ensures relabelled { vertices.new.items ≡ relabelled vertices.old.items labels.items }
    ensures length { length vertices.new.items ≡ length vertices.old.items }
{
    for new_label in labels {
        put_label(vertices, new_label);
    }
}

fn put_label(vertices: &mut Vec<Vertex>, new_label: NewLabel)
    requires { new_label.vertex.0 < length vertices.old.items }
    ensures relabelled { vertices.new.items ≡ changed vertices.old.items new_label.vertex.0 (with_label new_label.label new_label.version) }
    ensures length { length vertices.new.items ≡ length vertices.old.items }
{
    let vertex = &mut vertices[new_label.vertex.0 as usize];
    vertex.label = new_label.label;
    vertex.version = new_label.version;
}

/// A vertex with an empty label and no children.
fn fresh_vertex(alloc: Global, parent: Option<VertexId>, by: Option<EdgeId>, node: NodeId) -> Vertex
    ensures { result ≡ fresh parent by node }
{
    Vertex {
        parent,
        by,
        node,
        label: Label::new(Vec::new(alloc)),
        version: 0,
        children: Children::new(Vec::new(alloc)),
    }
}

/// So many numbers of vertices, from a number on.
fn numbers(alloc: Global, first: u32, count: u32) -> Result<Vec<VertexId>, Memory>
    requires { first + count < 2 ^ 32 }
    ensures { IfOk result (λ v. v.items ≡ numbers_from first count) }
{
    let mut numbers = Vec::new(alloc);
    for number in first..first + count {
        numbers.push(VertexId(number))?;
    }
    Ok(numbers)
}

/// A child of the vertex for each of these edges.
fn new_leaves(
    alloc: Global,
    edges: &[Edge],
    v: VertexId,
    outs: &[EdgeId],
) -> Result<Vec<Vertex>, Memory>
    requires { All (λ e. e.0 < length edges.now) outs.now }
    ensures { IfOk result (λ x. x.items ≡ leaves_of edges.now v outs.now) }
{
    let mut leaves = Vec::new(alloc);
    for out in outs {
        let to = edges[out.0 as usize].to;
        leaves.push(fresh_vertex(alloc, Some(v), Some(*out), to))?;
    }
    Ok(leaves)
}

fn set_children(vertices: &mut Vec<Vertex>, v: usize, children: Children)
    requires { v < length vertices.old.items }
    ensures { vertices.new.items ≡ changed vertices.old.items v (with_children children) }
{
    let vertex = &mut vertices[v];
    vertex.children = children;
}

fn add_conjunct(vertices: &mut Vec<Vertex>, v: usize, conjunct: TermId) -> Result<(), Memory>
    requires vertex { v < length vertices.old.items }
    requires version { (vertex_at vertices.old.items v).version < 4294967295 }
    ensures added { OnOk result (vertices.new.items ≡ changed vertices.old.items v (with_conjunct conjunct)) }
    ensures unchanged { OnErr result (vertices.new.items ≡ vertices.old.items) }
{
    let vertex = &mut vertices[v];
    vertex.label.push(conjunct)?;
    vertex.version += 1;
    Ok(())
}

/// Whether the node is a plain one.
fn is_plain(nodes: &[Node], node: NodeId) -> bool
    ensures { IsTrue result ↔ (slice_get nodes.now node.0 ≡ Some Plain) }
{
    let number = node.0 as usize;
    if number >= nodes.len() {
        return false;
    }
    match nodes[number] {
        Node::Plain => true,
        Node::Error(_, _) | Node::End | Node::Call(_, _) => false,
    }
}

fn copy_of_vertices(alloc: Global, vertices: &[Vertex]) -> Result<Vec<Vertex>, Memory>
    ensures { IfOk result (λ v. v.items ≡ vertices.now) }
{
    let mut copies = Vec::new(alloc);
    for vertex in vertices {
        let copy = vertex_copy(alloc, vertex)?;
        copies.push(copy)?;
    }
    Ok(copies)
}

fn vertex_copy(alloc: Global, vertex: &Vertex) -> Result<Vertex, Memory>
    ensures { IfOk result (λ v. v ≡ vertex.now) }
{
    let label = vertex.label.as_slice().to_vec(alloc)?;
    let children = vertex.children.as_slice().to_vec(alloc)?;
    Ok(Vertex {
        parent: vertex.parent,
        by: vertex.by,
        node: vertex.node,
        label: Label::new(label),
        version: vertex.version,
        children: Children::new(children),
    })
}
