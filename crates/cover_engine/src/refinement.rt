//! The parts of a Refine unit.
ghost use Rattle.std.specs.Prelude.{ℕ, ◌≡◌, ◌<◌, All, length, reverse, IfOk};
ghost use Rattle.reach_tree.specs.Trees.{vertex_at};
ghost use Rattle.needed_cells.specs.Formulas.{is_true_term};
ghost use Rattle.cover_engine.specs.Unwindings.{has, path_of};
ghost use Rattle.cover_engine.specs.Units.{numbers_of, strengthens};
ghost use Rattle.cover_engine.specs.Caches.{IsFamily};
ghost use Rattle.cover_engine.specs.Settlings.{version_at};
ghost use Rattle.cover_engine.specs.Keeping.{label_with, labelled, new_labels_of};

use crate::look_up::parent_of;
use bv_term::{Term, TermId, Terms};
use lv_base::Memory;
use reach_tree::{Label, NewLabel, Tree, Vertex, VertexId};
use std::alloc::Global;

/// The numbers on the path of a vertex, from itself up to the root.
pub fn path_to(alloc: Global, vertices: &[Vertex], v: VertexId) -> Result<Vec<u32>, Memory>
    ensures { IfOk result (λ p. p.items ≡ path_of vertices.now v) }
{
    let mut path = Vec::new(alloc);
    let mut at = v.0;
    let mut left = vertices.len();
    while left > 0 {
        path.push(at)?;
        match parent_of(vertices, at as usize) {
            None => return Ok(path),
            Some(parent) => at = parent.0,
        }
        left -= 1;
    }
    Ok(path)
}

/// Whether the term is true, a constant 1 of width 1.
fn is_true(terms: &Terms, term: TermId) -> bool
    ensures { result ≡ is_true_term terms.now term }
{
    if term.0 >= terms.count() {
        return false;
    }
    match terms.get(term) {
        Term::Constant(width, value) => width == 1 && value == 1,
        _ => false,
    }
}

/// Whether the number is among these.
pub fn has_number(numbers: &[u32], number: u32) -> bool
    ensures { result ≡ has number numbers.now }
{
    for one in numbers {
        if *one == number {
            return true;
        }
    }
    false
}

/// Whether the term is a conjunct of the label.
fn has_conjunct(label: &[TermId], term: TermId) -> bool
    ensures { result ≡ has term.0 (numbers_of label.now) }
{
    for conjunct in label {
        if conjunct.0 == term.0 {
            return true;
        }
    }
    false
}

/// Whether the formula strengthens the vertex: it is neither true nor already a conjunct of the vertex's label.
fn adds(tree: &Tree, vertex: u32, formula: TermId) -> bool
    ensures { result ≡ strengthens tree.now.terms tree.now.vertices vertex formula }
{
    let number = vertex as usize;
    let vertices = tree.vertices();
    if number >= vertices.len() {
        return !is_true(tree.terms(), formula);
    }
    !is_true(tree.terms(), formula) && !has_conjunct(vertices[number].label.as_slice(), formula)
}

/// The labels that formulas give to the vertices of a path, each with one conjunct more where its formula adds one.
fn new_labels(
    alloc: Global,
    tree: &Tree,
    path: &[u32],
    formulas: &[TermId],
) -> Result<Vec<NewLabel>, Memory>
    requires inside { All (λ x. x < length tree.now.vertices) path.now }
    requires versions { (k : ℕ) → version_at tree.now.vertices k < 4294967295 }
    ensures { IfOk result (λ r. r.items ≡ new_labels_of tree.now.terms tree.now.vertices path.now formulas.now) }
{
    let mut labels = Vec::new(alloc);
    for (place, formula) in formulas.iter().enumerate() {
        if place >= path.len() {
            return Ok(labels);
        }
        let vertex = path[place];
        if adds(tree, vertex, *formula) {
            let label = label_of(alloc, tree.vertices(), vertex, *formula)?;
            labels.push(label)?;
        }
    }
    Ok(labels)
}

/// The label of a vertex with one conjunct more, and its version then.
fn label_of(alloc: Global, vertices: &[Vertex], v: u32, formula: TermId) -> Result<NewLabel, Memory>
    requires inside { v < length vertices.now }
    requires version { version_at vertices.now v < 4294967295 }
    ensures { IfOk result (λ l. l ≡ label_with vertices.now v formula) }
{
    let vertex = &vertices[v as usize];
    let mut conjuncts = vertex.label.as_slice().to_vec(alloc)?;
    conjuncts.push(formula)?;
    Ok(NewLabel {
        vertex: VertexId(v),
        label: Label::new(conjuncts),
        version: vertex.version + 1,
    })
}

/// The labels that formulas, one for each vertex of a path from the root on, give to the vertices of the path.
pub fn labels_along(
    alloc: Global,
    tree: &Tree,
    v: VertexId,
    formulas: &[TermId],
) -> Result<Vec<NewLabel>, Memory>
    requires family { IsFamily tree.now.vertices }
    requires inside { v.0 < length tree.now.vertices }
    requires versions { (k : ℕ) → version_at tree.now.vertices k < 4294967295 }
    ensures { IfOk result (λ r. r.items ≡ new_labels_of tree.now.terms tree.now.vertices (path_of tree.now.vertices v) (reverse formulas.now)) }
{
    let path = path_to(alloc, tree.vertices(), v)?;
    let upwards: Vec<TermId> = formulas.iter().rev().copied().collect(alloc)?;
    new_labels(alloc, tree, &path, &upwards)
}

/// The numbers of the vertices that get these labels.
pub fn labelled_by(alloc: Global, labels: &[NewLabel]) -> Result<Vec<u32>, Memory>
    ensures { IfOk result (λ r. r.items ≡ labelled labels.now) }
{
    let mut numbers = Vec::new(alloc);
    for label in labels {
        numbers.push(label.vertex.0)?;
    }
    Ok(numbers)
}
