//! Look-ups over the parts of an unwinding. They take no memory.
ghost use Rattle.std.specs.Prelude.{◌≡◌, ◌<◌, ◌||◌, length, false, slice_get};
ghost use Rattle.cover_engine.specs.Units.{apart_now};
ghost use Rattle.reach_tree.specs.Trees.{vertex_at};
ghost use Rattle.needed_cells.specs.Formulas.{is_false_term};
ghost use Rattle.cover_engine.specs.Unwindings.{has, is_end, path_up, some_false};
ghost use Rattle.cover_engine.specs.Caches.{IsFamily};

use crate::unit::Apart;
use bv_term::{Term, TermId, Terms};
use c_graph::Node;
use reach_tree::{Vertex, VertexId};

/// The parent of the vertex of this number, none past the end.
pub fn parent_of(vertices: &[Vertex], v: usize) -> Option<VertexId>
    ensures { result ≡ (vertex_at vertices.now v).parent }
{
    if v < vertices.len() {
        vertices[v].parent
    } else {
        None
    }
}

/// Whether the vertex u is the vertex of the second number or an ancestor of it. It climbs only as far as u, since parents
/// have lower numbers.
#[tactic(auto, using(crate::proofs::Climbing::climbing, crate::proofs::Subtrees::not_on))]
pub fn above_at(vertices: &[Vertex], u: usize, v: usize) -> bool
    requires family { IsFamily vertices.now }
    requires inside { v < length vertices.now }
    ensures { result ≡ has u (path_up vertices.now (length vertices.now) v) }
{
    let mut at = v;
    let mut left = vertices.len();
    while left > 0 && u <= at {
        if at == u {
            return true;
        }
        match parent_of(vertices, at) {
            None => return false,
            Some(parent) => at = parent.0 as usize,
        }
        left -= 1;
    }
    false
}

/// Whether the term is false, a constant 0 of width 1.
fn is_false(terms: &Terms, term: TermId) -> bool
    ensures { result ≡ is_false_term terms.now term }
{
    if term.0 >= terms.count() {
        return false;
    }
    match terms.get(term) {
        Term::Constant(width, value) => width == 1 && value == 0,
        _ => false,
    }
}

/// Whether the label has the conjunct false.
fn has_false(terms: &Terms, label: &[TermId]) -> bool
    ensures { result ≡ some_false terms.now label.now }
{
    for conjunct in label {
        if is_false(terms, *conjunct) {
            return true;
        }
    }
    false
}

/// Whether the node of this number is an end.
pub fn ends(nodes: &[Node], node: usize) -> bool
    ensures { result ≡ is_end (slice_get nodes.now node) }
{
    if node >= nodes.len() {
        return false;
    }
    match nodes[node] {
        Node::End => true,
        Node::Plain | Node::Error(_, _) | Node::Call(_, _) => false,
    }
}

/// Whether the vertex's label has the conjunct false or its node is an end.
pub fn closed_at(nodes: &[Node], terms: &Terms, vertex: &Vertex) -> bool
    ensures { result ≡ (some_false terms.now vertex.now.label || is_end (slice_get nodes.now vertex.now.node.0)) }
{
    has_false(terms, vertex.label.as_slice()) || ends(nodes, vertex.node.0 as usize)
}

/// The pair as it is kept apart now.
pub fn entry_of(vertices: &[Vertex], v: VertexId, w: VertexId) -> Apart
    requires left { v.0 < length vertices.now }
    requires right { w.0 < length vertices.now }
    ensures { result ≡ apart_now vertices.now v w }
{
    Apart {
        left: v,
        right: w,
        left_version: vertices[v.0 as usize].version,
        right_version: vertices[w.0 as usize].version,
    }
}
