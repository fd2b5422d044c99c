//! What joins conjuncts to labels, and labels to formulas.

ghost use Rattle.std.specs.Prelude.{◌≡◌, ◌<◌, ◌+◌, ◌↔◌, ◌⊎◌, ℕ, List, length, All, IfOk};
ghost use Rattle.bv_term.specs.Laws.{Extends};
ghost use Rattle.bv_term.specs.Values.{Holds, IsStore};
ghost use Rattle.c_graph.specs.Shape.{HasWidth};
ghost use Rattle.reach_tree.specs.Trees.{vertex_at};
ghost use Rattle.invariant_map.specs.Labels.{AreFilled, AreParts, ArePlaced, AreTerms, EitherHolds, IsFilled, IsLabel, IsPlaced, IsTermOrNone};

use crate::copying::put_term;
use crate::marking::counts;
use crate::operands::place;
use bv_term::{Term, TermId, Terms};
use cover_engine::Unwinding;
use lv_base::Memory;
use std::alloc::Global;

// Both.
fn put_and(terms: &mut Terms, left: TermId, right: TermId) -> Result<TermId, Memory>
    requires left { HasWidth terms.old left 1 }
    requires right { HasWidth terms.old right 1 }
    ensures extends { Extends terms.old terms.new }
    ensures bit { IfOk result (λ t. HasWidth terms.new t 1) }
    ensures holds { IfOk result (λ t. (store : List ℕ) → IsStore terms.new.cells store
        → (Holds terms.new store t) ↔ ((Holds terms.old store left) × (Holds terms.old store right))) }
{
    let _count = terms.count();
    put_term(terms, Term::And(left, right))
}

// One or both.
fn put_or(terms: &mut Terms, left: TermId, right: TermId) -> Result<TermId, Memory>
    requires left { HasWidth terms.old left 1 }
    requires right { HasWidth terms.old right 1 }
    ensures extends { Extends terms.old terms.new }
    ensures bit { IfOk result (λ t. HasWidth terms.new t 1) }
    ensures holds { IfOk result (λ t. (store : List ℕ) → IsStore terms.new.cells store
        → (Holds terms.new store t) ↔ ((Holds terms.old store left) ⊎ (Holds terms.old store right))) }
{
    let _count = terms.count();
    put_term(terms, Term::Or(left, right))
}

// Puts the conjunction of a label's conjuncts, in their order; the empty label is true.
fn put_label(
    unwinding: &Unwinding,
    number: u32,
    places: &[TermId],
    terms: &mut Terms,
) -> Result<TermId, Memory>
    requires there { number < length unwinding.now.vertices }
    requires placed { All (IsPlaced unwinding.now.terms terms.old places.now) (vertex_at unwinding.now.vertices number).label }
    ensures extends { Extends terms.old terms.new }
    ensures label { IfOk result (λ t. IsLabel unwinding.now.terms terms.new (vertex_at unwinding.now.vertices number).label t) }
{
    let label = unwinding.vertices()[number as usize].label.as_slice();
    if label.is_empty() {
        return put_term(terms, Term::Constant(1, 1));
    }
    let mut joined = place(places, label[0]);
    for at in 1..label.len() {
        joined = put_and(terms, joined, place(places, label[at]))?;
    }
    Ok(joined)
}

// The formula of a node with a further label.
fn put_further(terms: &mut Terms, before: Option<TermId>, label: TermId) -> Result<TermId, Memory>
    requires before { IsTermOrNone terms.old before }
    requires label { HasWidth terms.old label 1 }
    ensures extends { Extends terms.old terms.new }
    ensures bit { IfOk result (λ t. HasWidth terms.new t 1) }
    ensures holds { IfOk result (λ t. (store : List ℕ) → IsStore terms.new.cells store
        → (Holds terms.new store t) ↔ (EitherHolds terms.old store before label)) }
{
    match before {
        None => Ok(label),
        Some(formula) => put_or(terms, formula, label),
    }
}

// Joins the label of a vertex to the formula of its node, if it counts.
fn join_vertex(
    unwinding: &Unwinding,
    number: u32,
    places: &[TermId],
    terms: &mut Terms,
    parts: &mut [Option<TermId>],
) -> Result<(), Memory>
    requires there { number < length unwinding.now.vertices }
    requires placed { ArePlaced unwinding.now (length parts.old) terms.old places.now }
    requires parts { AreParts unwinding.now number terms.old parts.old }
    ensures extends { Extends terms.old terms.new }
    ensures parts { IfOk result (λ _. AreParts unwinding.now (number + 1) terms.new parts.new) }
{
    if !counts(unwinding, parts.len(), number) {
        return Ok(());
    }
    let label = put_label(unwinding, number, places, terms)?;
    let node = unwinding.vertices()[number as usize].node.0 as usize;
    let joined = put_further(terms, parts[node], label)?;
    parts[node] = Some(joined);
    Ok(())
}

/// The formula of each node as far as a vertex counts there, in the order of the vertices.
pub fn joined(
    alloc: Global,
    unwinding: &Unwinding,
    nodes: usize,
    places: &[TermId],
    terms: &mut Terms,
) -> Result<Vec<Option<TermId>>, Memory>
    requires placed { ArePlaced unwinding.now nodes terms.old places.now }
    ensures extends { Extends terms.old terms.new }
    ensures length { IfOk result (λ p. length p.items ≡ nodes) }
    ensures parts { IfOk result (λ p. AreParts unwinding.now (length unwinding.now.vertices) terms.new p.items) }
{
    let mut parts = vec![in alloc; None; nodes]?;
    for number in 0..unwinding.count() {
        join_vertex(unwinding, number, places, terms, &mut parts)?;
    }
    Ok(parts)
}

// A formula, false where there is none.
fn put_whole(terms: &mut Terms, part: Option<TermId>) -> Result<TermId, Memory>
    requires { IsTermOrNone terms.old part }
    ensures extends { Extends terms.old terms.new }
    ensures filled { IfOk result (λ t. IsFilled terms.old terms.new part t) }
{
    match part {
        Some(formula) => Ok(formula),
        None => put_term(terms, Term::Constant(1, 0)),
    }
}

/// The formula of each node.
pub fn filled(
    alloc: Global,
    parts: &[Option<TermId>],
    terms: &mut Terms,
) -> Result<Vec<TermId>, Memory>
    requires { AreTerms terms.old parts.now }
    ensures extends { Extends terms.old terms.new }
    ensures length { IfOk result (λ f. length f.items ≡ length parts.now) }
    ensures filled { IfOk result (λ f. AreFilled terms.old terms.new parts.now f.items) }
{
    let mut formulas = Vec::new(alloc);
    for part in parts {
        let formula = put_whole(terms, *part)?;
        formulas.push(formula)?;
    }
    Ok(formulas)
}
