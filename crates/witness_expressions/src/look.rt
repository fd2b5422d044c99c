//! Terms by number, and what of them can be written.

ghost use Rattle.std.specs.Prelude.{◌≡◌, ℕ, List, Option, Some, slice_get};
ghost use Rattle.bv_term.specs.WellFormed.{IsTable};
ghost use Rattle.witness_expressions.specs.Expressions.{rows_of};
ghost use Rattle.witness_expressions.specs.Shapes.{Says, Splits, conjuncts_of, shape_of};

use bv_term::{Term, TermId, Terms};

/// A term, as far as it can be written.
#[derive(Clone, Copy)]
pub enum Shape {
    /// A constant.
    Truth(u128),
    /// Both of two terms.
    Both(TermId, TermId),
    /// One or both of two terms.
    Either(TermId, TermId),
    /// The complement of a term.
    Complement(TermId),
    /// A bit, by its number, of a term.
    BitOf(u32, TermId),
    /// Anything else.
    Other,
}

/// The term of this number, if the table has one.
pub(crate) fn look(terms: &Terms, term: TermId) -> Option<Term>
    ensures value { result ≡ slice_get terms.now.terms term.0 }
    ensures table { IsTable terms.now }
{
    if term.0 < terms.count() {
        Some(terms.get(term))
    } else {
        None
    }
}

fn shape_of_term(term: Option<Term>) -> Shape
    ensures { result ≡ shape_of term }
{
    match term {
        Some(Term::Constant(_, value)) => Shape::Truth(value),
        Some(Term::And(i, j)) => Shape::Both(i, j),
        Some(Term::Or(i, j)) => Shape::Either(i, j),
        Some(Term::Not(i)) => Shape::Complement(i),
        Some(Term::Bit(number, i)) => Shape::BitOf(number, i),
        _ => Shape::Other,
    }
}

fn both_of(shape: Shape) -> Option<(TermId, TermId)>
    ensures { result ≡ conjuncts_of shape }
{
    match shape {
        Shape::Both(i, j) => Some((i, j)),
        _ => None,
    }
}

/// The shape of a term, which says what its text is.
pub(crate) fn shape_at(terms: &Terms, term: TermId) -> Shape
    ensures { (names : ℕ → Option (List ℕ)) → Says names terms.now.terms (rows_of names terms.now.terms) term result }
{
    let found = look(terms, term);
    shape_of_term(found)
}

/// The terms into which a formula is split; none where it is a part.
pub(crate) fn conjuncts(terms: &Terms, term: TermId) -> Option<(TermId, TermId)>
    ensures { (names : ℕ → Option (List ℕ)) → Splits (rows_of names terms.now.terms) term result }
{
    let found = look(terms, term);
    both_of(shape_of_term(found))
}
