//! Formulas written as terms.

ghost use Rattle.std.specs.Prelude.{◌≡◌, ℕ, ◌+◌, ◌-◌, ◌<◌, ◌≤◌, ◌&&◌, ◌||◌, ◌==◌, Bool, true, not, List, length, slice_get, slice_index_or, Some, IfOk};
ghost use Rattle.bv_term.specs.WellFormed.{FitsTable, IsTable};
ghost use Rattle.bv_term.specs.Laws.{Extends};
ghost use Rattle.formula_diagrams.specs.Shape.{IsBitIn, count};
ghost use Rattle.formula_diagrams.specs.Truths.{choice, holds, is_set};
ghost use Rattle.formula_diagrams.specs.Writings.{AreBelow, AreWritten, IsClosed, IsOneBit, IsSide, IsTruth, SideTells, is_marked, marked, side_of};

use crate::arena::Diagrams;
use crate::items::{BitOf, Node, NodeId};
use bv_term::{Term, TermId, Terms};
use lv_base::Memory;
use std::alloc::Global;

/// A side of a node that is written.
#[derive(Clone, Copy)]
pub enum Side {
    /// False.
    Never,
    /// True.
    Always,
    Written(TermId),
}

// Puts a term.
fn put_term(terms: &mut Terms, term: Term) -> Result<TermId, Memory>
    requires { FitsTable terms.old term }
    ensures extends { Extends terms.old terms.new }
    ensures table { IsTable terms.new }
    ensures named { IfOk result (λ id. slice_get terms.new.terms id.0 ≡ Some term) }
{
    let outcome = terms.put(term);
    let _count = terms.count();
    outcome
}

// The term of a bit.
fn put_bit(terms: &mut Terms, bit: BitOf) -> Result<TermId, Memory>
    requires { IsBitIn terms.old.cells bit }
    ensures extends { Extends terms.old terms.new }
    ensures truth { IfOk result (λ t. IsTruth terms.new t (λ store. is_set store bit)) }
{
    let cell = put_term(terms, Term::Cell(bit.cell))?;
    put_term(terms, Term::Bit(bit.bit, cell))
}

fn put_not(terms: &mut Terms, of: TermId) -> Result<TermId, Memory>
    requires { IsOneBit terms.old of }
    ensures extends { Extends terms.old terms.new }
    ensures bit { IfOk result (λ t. IsOneBit terms.new t) }
    ensures truth { (f : List ℕ → Bool) → IsTruth terms.old of f → IfOk result (λ t. IsTruth terms.new t (λ store. not (f store))) }
{
    put_term(terms, Term::Not(of))
}

fn put_and(terms: &mut Terms, left: TermId, right: TermId) -> Result<TermId, Memory>
    requires left { IsOneBit terms.old left }
    requires right { IsOneBit terms.old right }
    ensures extends { Extends terms.old terms.new }
    ensures bit { IfOk result (λ t. IsOneBit terms.new t) }
    ensures truth { (f g : List ℕ → Bool) → IsTruth terms.old left f → IsTruth terms.old right g → IfOk result (λ t. IsTruth terms.new t (λ store. f store && g store)) }
{
    put_term(terms, Term::And(left, right))
}

fn put_or(terms: &mut Terms, left: TermId, right: TermId) -> Result<TermId, Memory>
    requires left { IsOneBit terms.old left }
    requires right { IsOneBit terms.old right }
    ensures extends { Extends terms.old terms.new }
    ensures bit { IfOk result (λ t. IsOneBit terms.new t) }
    ensures truth { (f g : List ℕ → Bool) → IsTruth terms.old left f → IsTruth terms.old right g → IfOk result (λ t. IsTruth terms.new t (λ store. f store || g store)) }
{
    put_term(terms, Term::Or(left, right))
}

// Both sides of a choice are terms.
fn put_sides(terms: &mut Terms, top: TermId, low: TermId, high: TermId) -> Result<TermId, Memory>
    requires top { IsOneBit terms.old top }
    requires low { IsOneBit terms.old low }
    requires high { IsOneBit terms.old high }
    ensures extends { Extends terms.old terms.new }
    ensures bit { IfOk result (λ t. IsOneBit terms.new t) }
    ensures truth { (f g h : List ℕ → Bool) → IsTruth terms.old top f → IsTruth terms.old low g → IsTruth terms.old high h → IfOk result (λ t. IsTruth terms.new t (λ store. choice (f store) (h store) (g store))) }
{
    let upper = put_and(terms, top, high)?;
    let other = put_not(terms, top)?;
    let lower = put_and(terms, other, low)?;
    put_or(terms, upper, lower)
}

// `~top & side`, or `~top o side`.
fn put_other(terms: &mut Terms, top: TermId, side: TermId, is_both: bool) -> Result<TermId, Memory>
    requires top { IsOneBit terms.old top }
    requires side { IsOneBit terms.old side }
    ensures extends { Extends terms.old terms.new }
    ensures bit { IfOk result (λ t. IsOneBit terms.new t) }
    ensures truth { (f g : List ℕ → Bool) → IsTruth terms.old top f → IsTruth terms.old side g → IfOk result (λ t. IsTruth terms.new t (λ store. choice is_both (not (f store) && g store) (not (f store) || g store))) }
{
    let other = put_not(terms, top)?;
    if is_both {
        put_and(terms, other, side)
    } else {
        put_or(terms, other, side)
    }
}

// The constant of an end.
fn put_end(terms: &mut Terms, id: NodeId) -> Result<TermId, Memory>
    requires { id.0 < 2 }
    ensures extends { Extends terms.old terms.new }
    ensures bit { IfOk result (λ t. IsOneBit terms.new t) }
    ensures truth { IfOk result (λ t. IsTruth terms.new t (λ store. id.0 == 1)) }
{
    put_term(terms, Term::Constant(1, id.0 as u128))
}

// A choice between two sides.
fn put_choice(terms: &mut Terms, top: TermId, low: Side, high: Side) -> Result<TermId, Memory>
    requires top { IsOneBit terms.old top }
    requires low { IsSide terms.old low }
    requires high { IsSide terms.old high }
    ensures extends { Extends terms.old terms.new }
    ensures bit { IfOk result (λ t. IsOneBit terms.new t) }
    ensures truth { (f g h : List ℕ → Bool) → IsTruth terms.old top f → SideTells terms.old low g → SideTells terms.old high h → IfOk result (λ t. IsTruth terms.new t (λ store. choice (f store) (h store) (g store))) }
{
    match (low, high) {
        (Side::Written(lower), Side::Written(upper)) => put_sides(terms, top, lower, upper),
        (Side::Written(lower), Side::Never) => put_other(terms, top, lower, true),
        (Side::Written(lower), Side::Always) => put_or(terms, top, lower),
        (Side::Never, Side::Written(upper)) => put_and(terms, top, upper),
        (Side::Always, Side::Written(upper)) => put_other(terms, top, upper, false),
        (Side::Never, Side::Always) => Ok(top),
        (Side::Always, Side::Never) => put_not(terms, top),
        (Side::Never, Side::Never) => put_end(terms, NodeId(0)),
        (Side::Always, Side::Always) => put_end(terms, NodeId(1)),
    }
}

// Marks a number; ends have no mark.
fn mark(marks: &mut [bool], id: NodeId)
    requires { id.0 < length marks.old + 2 }
    ensures { marks.new ≡ marked marks.old id }
{
    if id.0 >= 2 {
        marks[id.0 as usize - 2] = true;
    }
}

// Marks the two sides of a node.
fn mark_sides(marks: &mut [bool], node: Node)
    requires low { node.low.0 < length marks.old + 2 }
    requires high { node.high.0 < length marks.old + 2 }
    ensures { marks.new ≡ marked (marked marks.old node.low) node.high }
{
    mark(marks, node.low);
    mark(marks, node.high);
}

fn node_of(nodes: &[Node], place: usize) -> Node
    requires { place < length nodes.now }
    ensures { slice_get nodes.now place ≡ Some result }
{
    nodes[place]
}

// Marks all nodes that marked ones stand on.
fn mark_below(nodes: &[Node], marks: &mut [bool])
    requires below { AreBelow nodes.now }
    requires many { length marks.old ≤ length nodes.now }
    ensures closed { IsClosed nodes.now marks.new 0 }
    ensures kept { (k : ℕ) → is_marked marks.old k ≡ true → is_marked marks.new k ≡ true }
{
    let mut at = marks.len();
    while at > 0 {
        at -= 1;
        if marks[at] {
            let node = node_of(nodes, at);
            mark_sides(marks, node);
        }
    }
}

// Marks of the places up to this one, which is marked alone.
fn first_marks(alloc: Global, place: usize) -> Result<Vec<bool>, Memory>
    ensures length { IfOk result (λ m. length m.items ≡ place + 1) }
    ensures last { IfOk result (λ m. is_marked m.items place ≡ true) }
{
    let mut marks = vec![in alloc; false; place]?;
    marks.push(true)?;
    Ok(marks)
}

// Marks the node at a place, and all nodes that it stands on.
fn needed(alloc: Global, nodes: &Diagrams, place: usize) -> Result<Vec<bool>, Memory>
    requires { place < length nodes.now.nodes }
    ensures length { IfOk result (λ m. length m.items ≡ place + 1) }
    ensures last { IfOk result (λ m. is_marked m.items place ≡ true) }
    ensures closed { IfOk result (λ m. IsClosed nodes.now.nodes m.items 0) }
{
    let mut marks = first_marks(alloc, place)?;
    mark_below(nodes.nodes(), &mut marks);
    Ok(marks)
}

// The side that has a number.
fn side_at(written: &Vec<TermId>, id: NodeId) -> Side
    requires { id.0 < length written.now.items + 2 }
    ensures { result ≡ side_of written.now.items id }
{
    match id.0 {
        0 => Side::Never,
        1 => Side::Always,
        _ => Side::Written(written[id.0 as usize - 2]),
    }
}

// The term of the node at a place, which is marked; those before are written.
fn put_needed(
    nodes: &Diagrams,
    marks: &[bool],
    written: &Vec<TermId>,
    place: usize,
    terms: &mut Terms,
) -> Result<TermId, Memory>
    requires there { place < length nodes.now.nodes }
    requires place { length written.now.items ≡ place }
    requires closed { IsClosed nodes.now.nodes marks.now 0 }
    requires marked { is_marked marks.now place ≡ true }
    requires written { AreWritten nodes.now terms.old marks.now written.now.items }
    requires cells { terms.old.cells ≡ nodes.now.cells }
    ensures extends { Extends terms.old terms.new }
    ensures truth { IfOk result (λ t. IsTruth terms.new t (λ store. holds nodes.now store (place + 2))) }
{
    let node = nodes.at(place);
    let top = put_bit(terms, node.top)?;
    let low = side_at(written, node.low);
    let high = side_at(written, node.high);
    put_choice(terms, top, low, high)
}

fn is_at(marks: &[bool], place: usize) -> bool
    requires { place < length marks.now }
    ensures { result ≡ is_marked marks.now place }
{
    marks[place]
}

// The term of the node at a place if it is marked.
fn put_next(
    nodes: &Diagrams,
    marks: &[bool],
    written: &Vec<TermId>,
    place: usize,
    terms: &mut Terms,
) -> Result<TermId, Memory>
    requires there { place < length marks.now }
    requires many { length marks.now ≤ length nodes.now.nodes }
    requires place { length written.now.items ≡ place }
    requires closed { IsClosed nodes.now.nodes marks.now 0 }
    requires written { AreWritten nodes.now terms.old marks.now written.now.items }
    requires cells { terms.old.cells ≡ nodes.now.cells }
    ensures extends { Extends terms.old terms.new }
    ensures truth { is_marked marks.now place ≡ true → IfOk result (λ t. IsTruth terms.new t (λ store. holds nodes.now store (place + 2))) }
{
    if is_at(marks, place) {
        put_needed(nodes, marks, written, place, terms)
    } else {
        Ok(TermId(0))
    }
}

// The terms of the marked nodes; an unmarked one has none that is meant.
fn put_marked(
    alloc: Global,
    nodes: &Diagrams,
    marks: &[bool],
    terms: &mut Terms,
) -> Result<Vec<TermId>, Memory>
    requires many { length marks.now ≤ length nodes.now.nodes }
    requires closed { IsClosed nodes.now.nodes marks.now 0 }
    requires cells { terms.old.cells ≡ nodes.now.cells }
    ensures extends { Extends terms.old terms.new }
    ensures length { IfOk result (λ ts. length ts.items ≡ length marks.now) }
    ensures written { IfOk result (λ ts. AreWritten nodes.now terms.new marks.now ts.items) }
{
    let mut written = Vec::new(alloc);
    for place in 0..marks.len() {
        let id = put_next(nodes, marks, &written, place, terms)?;
        written.push(id)?;
    }
    Ok(written)
}

// The term of a number that is no end.
fn put_inner(
    alloc: Global,
    nodes: &Diagrams,
    place: usize,
    terms: &mut Terms,
) -> Result<TermId, Memory>
    requires there { place < length nodes.now.nodes }
    requires cells { terms.old.cells ≡ nodes.now.cells }
    ensures extends { Extends terms.old terms.new }
    ensures truth { IfOk result (λ t. IsTruth terms.new t (λ store. holds nodes.now store (place + 2))) }
{
    let marks = needed(alloc, nodes, place)?;
    let written = put_marked(alloc, nodes, &marks, terms)?;
    Ok(written[place])
}

/// Puts the formula of a number into a table over the same cells.
pub fn write_node(
    alloc: Global,
    nodes: &Diagrams,
    id: NodeId,
    terms: &mut Terms,
) -> Result<TermId, Memory>
    requires there { id.0 < count nodes.now }
    requires cells { terms.old.cells ≡ nodes.now.cells }
    ensures extends { Extends terms.old terms.new }
    ensures truth { IfOk result (λ t. IsTruth terms.new t (λ store. holds nodes.now store id.0)) }
{
    let is_end = id.0 < 2;
    if is_end {
        put_end(terms, id)
    } else {
        put_inner(alloc, nodes, id.0 as usize - 2, terms)
    }
}
