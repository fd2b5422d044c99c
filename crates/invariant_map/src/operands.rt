//! The operands of terms, and terms over other numbers.

ghost use Rattle.std.specs.Prelude.{◌≡◌, ◌<◌, length};
ghost use Rattle.invariant_map.specs.Copies.{Each, moved, place_of, uses_of};

use bv_term::{Term, TermId};

/// The operands of a term.
#[derive(Clone, Copy, PartialEq, Eq, Debug)]
pub enum Uses {
    /// None.
    Nothing,
    /// The term of this number.
    One(u32),
    /// Two terms.
    Two(u32, u32),
    /// Three terms.
    Three(u32, u32, u32),
}

/// The operands of a term.
pub fn operands(term: Term) -> Uses
    ensures { result ≡ uses_of term }
{
    match term {
        Term::Constant(_, _) => Uses::Nothing,
        Term::Cell(_) => Uses::Nothing,
        Term::Element(_, _, i) => Uses::One(i.0),
        Term::Add(i, j) => Uses::Two(i.0, j.0),
        Term::Subtract(i, j) => Uses::Two(i.0, j.0),
        Term::Multiply(i, j) => Uses::Two(i.0, j.0),
        Term::Divide(i, j) => Uses::Two(i.0, j.0),
        Term::Remainder(i, j) => Uses::Two(i.0, j.0),
        Term::And(i, j) => Uses::Two(i.0, j.0),
        Term::Or(i, j) => Uses::Two(i.0, j.0),
        Term::Xor(i, j) => Uses::Two(i.0, j.0),
        Term::Not(i) => Uses::One(i.0),
        Term::ShiftLeft(i, j) => Uses::Two(i.0, j.0),
        Term::ShiftRight(i, j) => Uses::Two(i.0, j.0),
        Term::ShiftSigned(i, j) => Uses::Two(i.0, j.0),
        Term::Equal(i, j) => Uses::Two(i.0, j.0),
        Term::Less(i, j) => Uses::Two(i.0, j.0),
        Term::LessSigned(i, j) => Uses::Two(i.0, j.0),
        Term::Select(i, j, k) => Uses::Three(i.0, j.0, k.0),
        Term::ZeroExtend(_, i) => Uses::One(i.0),
        Term::SignExtend(_, i) => Uses::One(i.0),
        Term::Truncate(_, i) => Uses::One(i.0),
        Term::Bit(_, i) => Uses::One(i.0),
    }
}

/// The place of a term.
pub fn place(places: &[TermId], term: TermId) -> TermId
    requires { term.0 < length places.now }
    ensures { result ≡ place_of places.now term }
{
    places[term.0 as usize]
}

/// The term over the places of its operands.
pub fn moved(places: &[TermId], term: Term) -> Term
    requires { Each (λ k. k < length places.now) term }
    ensures { result ≡ moved places.now term }
{
    match term {
        Term::Constant(width, value) => Term::Constant(width, value),
        Term::Cell(cell) => Term::Cell(cell),
        Term::Element(first, length, i) => Term::Element(first, length, place(places, i)),
        Term::Add(i, j) => Term::Add(place(places, i), place(places, j)),
        Term::Subtract(i, j) => Term::Subtract(place(places, i), place(places, j)),
        Term::Multiply(i, j) => Term::Multiply(place(places, i), place(places, j)),
        Term::Divide(i, j) => Term::Divide(place(places, i), place(places, j)),
        Term::Remainder(i, j) => Term::Remainder(place(places, i), place(places, j)),
        Term::And(i, j) => Term::And(place(places, i), place(places, j)),
        Term::Or(i, j) => Term::Or(place(places, i), place(places, j)),
        Term::Xor(i, j) => Term::Xor(place(places, i), place(places, j)),
        Term::Not(i) => Term::Not(place(places, i)),
        Term::ShiftLeft(i, j) => Term::ShiftLeft(place(places, i), place(places, j)),
        Term::ShiftRight(i, j) => Term::ShiftRight(place(places, i), place(places, j)),
        Term::ShiftSigned(i, j) => Term::ShiftSigned(place(places, i), place(places, j)),
        Term::Equal(i, j) => Term::Equal(place(places, i), place(places, j)),
        Term::Less(i, j) => Term::Less(place(places, i), place(places, j)),
        Term::LessSigned(i, j) => Term::LessSigned(place(places, i), place(places, j)),
        Term::Select(i, j, k) => {
            Term::Select(place(places, i), place(places, j), place(places, k))
        }
        Term::ZeroExtend(width, i) => Term::ZeroExtend(width, place(places, i)),
        Term::SignExtend(width, i) => Term::SignExtend(width, place(places, i)),
        Term::Truncate(width, i) => Term::Truncate(width, place(places, i)),
        Term::Bit(bit, i) => Term::Bit(bit, place(places, i)),
    }
}
