//! Terms of guards, simplified where a side is known.
ghost use Rattle.std.specs.Prelude.{◌≡◌, IfOk};
ghost use Rattle.block_emission.specs.Putting as made;

use bv_term::{Term, TermId, Terms};
use lv_base::Memory;

/// A truth: that a guard's cell is 1, or also a term of width 1; without a cell the guard is 1.
#[derive(Clone, Copy)]
pub(crate) enum Test {
    On(Option<u32>),
    Under(Option<u32>, TermId),
}

/// The terms of the graph that is made. Where a term was not well formed, nothing that was made of these counts.
#[derive(Drop)]
pub(crate) struct Truths {
    pub(crate) terms: Terms,
    pub(crate) is_sound: bool,
}

/// The number of the term. One that is not well formed over the table is not put: number 0 stands in its place, and the table is not
/// sound from then on.
pub(crate) fn put(truths: &mut Truths, term: Term) -> Result<TermId, Memory>
    ensures made { IfOk result (λ t. (truths.new, t) ≡ made.put truths.old term) }
{
    if !truths.terms.fits(term) {
        truths.is_sound = false;
        return Ok(TermId(0));
    }
    truths.terms.put(term)
}

/// The width of a term, 1 past the end.
pub(crate) fn width_of(truths: &Truths, term: TermId) -> u32
    ensures made { result ≡ made.width_of truths.now term }
{
    if term.0 < truths.terms.count() {
        truths.terms.width_of(term)
    } else {
        1
    }
}

/// The truth as a term.
pub(crate) fn term_of(truths: &mut Truths, test: Test) -> Result<TermId, Memory>
    ensures made { IfOk result (λ t. (truths.new, t) ≡ made.term_of truths.old test) }
{
    match test {
        Test::On(None) => put(truths, Term::Constant(1, 1)),
        Test::On(Some(cell)) => put(truths, Term::Cell(cell)),
        Test::Under(None, term) => Ok(term),
        Test::Under(Some(cell), term) => both(truths, cell, term),
    }
}

/// That a cell is 1, and a term.
fn both(truths: &mut Truths, cell: u32, term: TermId) -> Result<TermId, Memory>
    ensures made { IfOk result (λ t. (truths.new, t) ≡ made.both truths.old cell term) }
{
    let on = put(truths, Term::Cell(cell))?;
    put(truths, Term::And(on, term))
}

pub(crate) fn complement(truths: &mut Truths, term: TermId) -> Result<TermId, Memory>
    ensures made { IfOk result (λ t. (truths.new, t) ≡ made.complement truths.old term) }
{
    put(truths, Term::Not(term))
}

pub(crate) fn either(truths: &mut Truths, first: TermId, second: TermId) -> Result<TermId, Memory>
    ensures made { IfOk result (λ t. (truths.new, t) ≡ made.either truths.old first second) }
{
    put(truths, Term::Or(first, second))
}

pub(crate) fn select(
    truths: &mut Truths,
    test: TermId,
    first: TermId,
    second: TermId,
) -> Result<TermId, Memory>
    ensures made { IfOk result (λ t. (truths.new, t) ≡ made.select truths.old test first second) }
{
    put(truths, Term::Select(test, first, second))
}
