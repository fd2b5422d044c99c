//! The terms of a cone: where each has its value from, and its operands under their numbers in the cone.
ghost use Rattle.std.specs.Prelude.{◌≡◌, nat_eq};
ghost use Rattle.std.specs.HashMap.{get};
ghost use Rattle.term_laws.specs.Operands.{renamed};
ghost use Rattle.term_values.specs.Steps.{lacking, number_in, or_lacking, shape_of, source_of};

use bv_term::{Term, TermId};
use std::collections::HashMap;

/// Where a term of a cone has its value from.
#[derive(Clone, Copy, PartialEq, Eq, Debug)]
pub enum Source {
    /// A cell of the store.
    Stored(u32),
    /// An element of an array in the store: the array's first cell, its length, and the term that is the index.
    Indexed(u32, u32, TermId),
    /// Its operands.
    Computed,
}

/// Where the term has its value from.
pub fn source_of(step: Term) -> Source
    ensures { result ≡ source_of step }
{
    match step {
        Term::Cell(cell) => Source::Stored(cell),
        Term::Element(first, length, index) => Source::Indexed(first, length, index),
        _ => Source::Computed,
    }
}

/// What stands for the term in a table without cells: itself where it is computed, else a constant of its width.
pub fn shape_of(source: Source, width: u32, step: Term) -> Term
    ensures { result ≡ shape_of source width step }
{
    match source {
        Source::Stored(_) => Term::Constant(width, 0),
        Source::Indexed(_, _, _) => Term::Constant(width, 0),
        Source::Computed => step,
    }
}

/// The number in the cone of a term, 0 where it has none.
pub fn number_in(places: &HashMap<u32, u32>, term: TermId) -> TermId
    ensures { result ≡ number_in (get nat_eq places.now) term }
{
    match places.get(&term.0).copied() {
        Some(number) => TermId(number),
        None => TermId(0),
    }
}

/// The term with the numbers in the cone of its operands in place of theirs.
pub fn renumbered(places: &HashMap<u32, u32>, term: Term) -> Term
    ensures { result ≡ renamed (number_in (get nat_eq places.now)) term }
{
    match term {
        Term::Constant(_, _) | Term::Cell(_) => term,
        Term::Element(first, length, i) => Term::Element(first, length, number_in(places, i)),
        Term::Add(i, j) => Term::Add(number_in(places, i), number_in(places, j)),
        Term::Subtract(i, j) => Term::Subtract(number_in(places, i), number_in(places, j)),
        Term::Multiply(i, j) => Term::Multiply(number_in(places, i), number_in(places, j)),
        Term::Divide(i, j) => Term::Divide(number_in(places, i), number_in(places, j)),
        Term::Remainder(i, j) => Term::Remainder(number_in(places, i), number_in(places, j)),
        Term::And(i, j) => Term::And(number_in(places, i), number_in(places, j)),
        Term::Or(i, j) => Term::Or(number_in(places, i), number_in(places, j)),
        Term::Xor(i, j) => Term::Xor(number_in(places, i), number_in(places, j)),
        Term::Not(i) => Term::Not(number_in(places, i)),
        Term::ShiftLeft(i, j) => Term::ShiftLeft(number_in(places, i), number_in(places, j)),
        Term::ShiftRight(i, j) => Term::ShiftRight(number_in(places, i), number_in(places, j)),
        Term::ShiftSigned(i, j) => Term::ShiftSigned(number_in(places, i), number_in(places, j)),
        Term::Equal(i, j) => Term::Equal(number_in(places, i), number_in(places, j)),
        Term::Less(i, j) => Term::Less(number_in(places, i), number_in(places, j)),
        Term::LessSigned(i, j) => Term::LessSigned(number_in(places, i), number_in(places, j)),
        Term::Select(i, j, k) => Term::Select(
            number_in(places, i),
            number_in(places, j),
            number_in(places, k),
        ),
        Term::ZeroExtend(width, i) => Term::ZeroExtend(width, number_in(places, i)),
        Term::SignExtend(width, i) => Term::SignExtend(width, number_in(places, i)),
        Term::Truncate(width, i) => Term::Truncate(width, number_in(places, i)),
        Term::Bit(number, i) => Term::Bit(number, number_in(places, i)),
    }
}

/// The operand where it has no number in the cone, else what others lack.
fn or_lacking(places: &HashMap<u32, u32>, operand: TermId, others: Option<TermId>) -> Option<TermId>
    ensures { result ≡ or_lacking (get nat_eq places.now operand.0) operand others }
{
    match places.get(&operand.0).copied() {
        Some(_) => others,
        None => Some(operand),
    }
}

/// The first operand of a term that has no number in the cone.
pub fn lacking(places: &HashMap<u32, u32>, term: Term) -> Option<TermId>
    ensures { result ≡ lacking (get nat_eq places.now) term }
{
    match term {
        Term::Constant(_, _) | Term::Cell(_) => None,
        Term::Element(_, _, i)
        | Term::Not(i)
        | Term::ZeroExtend(_, i)
        | Term::SignExtend(_, i)
        | Term::Truncate(_, i)
        | Term::Bit(_, i) => or_lacking(places, i, None),
        Term::Add(i, j)
        | Term::Subtract(i, j)
        | Term::Multiply(i, j)
        | Term::Divide(i, j)
        | Term::Remainder(i, j)
        | Term::And(i, j)
        | Term::Or(i, j)
        | Term::Xor(i, j)
        | Term::ShiftLeft(i, j)
        | Term::ShiftRight(i, j)
        | Term::ShiftSigned(i, j)
        | Term::Equal(i, j)
        | Term::Less(i, j)
        | Term::LessSigned(i, j) => or_lacking(places, i, or_lacking(places, j, None)),
        Term::Select(i, j, k) => {
            or_lacking(
                places,
                i,
                or_lacking(places, j, or_lacking(places, k, None)),
            )
        }
    }
}
