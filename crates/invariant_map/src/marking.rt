//! The terms of which the labels that count are built.

ghost use Rattle.std.specs.Prelude.{◌≡◌, ◌<◌, ℕ, length, All, IfOk, vec_len};
ghost use Rattle.invariant_map.specs.Copies.{EachUse, IsClosed, KeepsMarks, is_marked, uses_marked};
ghost use Rattle.invariant_map.specs.Labels.{AreLabels, AreLabelsMarked, IsLabelMarked, counts};

use crate::operands::{Uses, operands};
use bv_term::{TermId, Terms};
use cover_engine::Unwinding;
use lv_base::Memory;
use reach_tree::VertexId;
use std::alloc::Global;

/// Whether a vertex counts: it is uncovered, and at one of so many nodes.
pub fn counts(unwinding: &Unwinding, nodes: usize, number: u32) -> bool
    requires { number < length unwinding.now.vertices }
    ensures { result ≡ counts unwinding.now nodes number }
{
    let node = unwinding.vertices()[number as usize].node;
    (node.0 as usize) < nodes && !unwinding.covered(VertexId(number))
}

// Marks the conjuncts of a label.
fn mark_label(marks: &mut [bool], label: &[TermId])
    requires { All (λ t. t.0 < length marks.old) label.now }
    ensures kept { KeepsMarks marks.old marks.new }
    ensures marked { IsLabelMarked marks.new label.now }
{
    for term in label {
        marks[term.0 as usize] = true;
    }
}

// Marks the conjuncts of the label of each vertex that counts.
fn mark_labels(unwinding: &Unwinding, nodes: usize, marks: &mut [bool])
    requires labels { AreLabels unwinding.now }
    requires length { length marks.old ≡ length unwinding.now.terms.terms }
    ensures marked { AreLabelsMarked unwinding.now nodes marks.new (length unwinding.now.vertices) }
{
    let vertices = unwinding.vertices();
    for number in 0..unwinding.count() {
        if counts(unwinding, nodes, number) {
            mark_label(marks, vertices[number as usize].label.as_slice());
        }
    }
}

// Marks operands.
fn mark_uses(marks: &mut [bool], uses: Uses)
    requires { EachUse (λ k. k < length marks.old) uses }
    ensures { marks.new ≡ uses_marked marks.old uses }
{
    match uses {
        Uses::Nothing => {}
        Uses::One(first) => marks[first as usize] = true,
        Uses::Two(first, second) => {
            marks[first as usize] = true;
            marks[second as usize] = true;
        }
        Uses::Three(first, second, third) => {
            marks[first as usize] = true;
            marks[second as usize] = true;
            marks[third as usize] = true;
        }
    }
}

/// Whether a number is marked.
pub fn is_at(marks: &[bool], number: usize) -> bool
    requires { number < length marks.now }
    ensures { result ≡ is_marked marks.now number }
{
    marks[number]
}

// Marks all terms of which marked ones are built.
fn mark_below(terms: &Terms, marks: &mut [bool])
    requires { length marks.old ≡ length terms.now.terms }
    ensures kept { KeepsMarks marks.old marks.new }
    ensures closed { IsClosed terms.now.terms marks.new 0 }
{
    let mut at = terms.count();
    while at > 0 {
        at -= 1;
        if is_at(marks, at as usize) {
            mark_uses(marks, operands(terms.get(TermId(at))));
        }
    }
}

/// Marks of the terms of which the labels are built that count.
pub fn needed(alloc: Global, unwinding: &Unwinding, nodes: usize) -> Result<Vec<bool>, Memory>
    requires { AreLabels unwinding.now }
    ensures length { IfOk result (λ m. length m.items ≡ length unwinding.now.terms.terms) }
    ensures closed { IfOk result (λ m. IsClosed unwinding.now.terms.terms m.items 0) }
    ensures marked { IfOk result (λ m. AreLabelsMarked unwinding.now nodes m.items (length unwinding.now.vertices)) }
{
    let mut marks = vec![in alloc; false; unwinding.terms().count() as usize]?;
    mark_labels(unwinding, nodes, &mut marks);
    mark_below(unwinding.terms(), &mut marks);
    Ok(marks)
}
