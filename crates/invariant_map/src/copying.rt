//! Copies of the marked terms of a table.

ghost use Rattle.std.specs.Prelude.{◌≡◌, ◌<◌, length, slice_get, Some, IfOk, true};
ghost use Rattle.bv_term.specs.WellFormed.{FitsTable, IsTable};
ghost use Rattle.bv_term.specs.Laws.{Extends};
ghost use Rattle.invariant_map.specs.Copies.{AreCopies, AreOperandsCopied, IsClosed, IsCopy, is_marked};

use crate::marking::is_at;
use crate::operands::moved;
use bv_term::{Term, TermId, Terms};
use lv_base::Memory;
use std::alloc::Global;

/// Puts a term.
pub fn put_term(terms: &mut Terms, term: Term) -> Result<TermId, Memory>
    requires { FitsTable terms.old term }
    ensures extends { Extends terms.old terms.new }
    ensures table { IsTable terms.new }
    ensures named { IfOk result (λ id. slice_get terms.new.terms id.0 ≡ Some term) }
{
    let outcome = terms.put(term);
    let _count = terms.count();
    outcome
}

// Puts the copy of a term, whose operands are copied.
fn put_copy(
    from: &Terms,
    number: u32,
    places: &Vec<TermId>,
    terms: &mut Terms,
) -> Result<TermId, Memory>
    requires there { number < length from.now.terms }
    requires places { length places.now.items ≡ number }
    requires cells { terms.old.cells ≡ from.now.cells }
    requires copies { AreOperandsCopied from.now terms.old places.now.items number }
    ensures extends { Extends terms.old terms.new }
    ensures copy { IfOk result (λ t. IsCopy from.now terms.new number t) }
{
    let _count = from.count();
    let copy = moved(places, from.get(TermId(number)));
    put_term(terms, copy)
}

// Puts the copy of a term, if it is marked; those before are copied if they are marked.
fn put_next(
    from: &Terms,
    marks: &[bool],
    number: u32,
    places: &Vec<TermId>,
    terms: &mut Terms,
) -> Result<TermId, Memory>
    requires there { number < length marks.now }
    requires marks { length marks.now ≡ length from.now.terms }
    requires closed { IsClosed from.now.terms marks.now 0 }
    requires places { length places.now.items ≡ number }
    requires cells { terms.old.cells ≡ from.now.cells }
    requires copies { AreCopies from.now terms.old marks.now places.now.items }
    ensures extends { Extends terms.old terms.new }
    ensures copy { is_marked marks.now number ≡ true → IfOk result (λ t. IsCopy from.now terms.new number t) }
{
    let _count = from.count();
    if is_at(marks, number as usize) {
        put_copy(from, number, places, terms)
    } else {
        Ok(TermId(0))
    }
}

/// The place of each copy: the marked terms are put in rising order. What is not marked has no place that is meant.
pub fn copied(
    alloc: Global,
    from: &Terms,
    marks: &[bool],
    terms: &mut Terms,
) -> Result<Vec<TermId>, Memory>
    requires marks { length marks.now ≡ length from.now.terms }
    requires closed { IsClosed from.now.terms marks.now 0 }
    requires cells { terms.old.cells ≡ from.now.cells }
    ensures extends { Extends terms.old terms.new }
    ensures length { IfOk result (λ p. length p.items ≡ length marks.now) }
    ensures copies { IfOk result (λ p. AreCopies from.now terms.new marks.now p.items) }
{
    let mut places = Vec::new(alloc);
    for number in 0..from.count() {
        let place = put_next(from, marks, number, &places, terms)?;
        places.push(place)?;
    }
    Ok(places)
}
