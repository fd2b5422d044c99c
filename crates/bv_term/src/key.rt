ghost use Rattle.std.specs.Prelude.{◌≡◌, ◌++◌};
ghost use Rattle.std.proofs.Common.{rules};
ghost use Rattle.std.specs.Hash as fed;
ghost use Rattle.std.specs.Cmp.Rules.{comparing, hashing};
ghost use Rattle.bv_term.specs.Keys.{key, key_of};

use crate::Term;
use std::hash::{Hash, Hasher};

/// A term as a row of numbers, under which a table finds it.
#[derive(Clone, Copy)]
pub struct Key {
    pub kind: u8,
    pub first: u32,
    pub second: u32,
    pub third: u32,
    pub number: u128,
}

impl PartialEq for Key {
    ghost use Rattle.std.specs.Prelude.{◌≡◌};
    ghost use Rattle.std.proofs.Common.{rules};
    ghost use Rattle.std.specs.Cmp.Rules.{comparing};
    ghost use Rattle.bv_term.specs.Keys.{same_key};

    ghost eq = { same_key };

    ghost laws = { Prim.search (comparing, rules) };

    fn eq(&self, other: &Key) -> bool {
        self.kind == other.kind
            && self.first == other.first
            && self.second == other.second
            && self.third == other.third
            && self.number == other.number
    }
}

impl Eq for Key {
    ghost laws = { Prim.search (comparing, rules) };
}

impl Hash for Key {
    ghost hash_input = { λ a. fed.u8 a.kind ++ fed.u32 a.first ++ fed.u32 a.second ++ fed.u32 a.third ++ fed.u128 a.number };

    ghost respects_eq = { Prim.search (hashing, rules) };

    fn hash<H: Hasher>(&self, state: &mut H) {
        self.kind.hash(state);
        self.first.hash(state);
        self.second.hash(state);
        self.third.hash(state);
        self.number.hash(state);
    }
}

impl Key {
    const fn row(kind: u8, first: u32, second: u32, third: u32) -> Key
        ensures { result ≡ key kind first second third 0 }
    {
        Key {
            kind,
            first,
            second,
            third,
            number: 0,
        }
    }

    /// The row of a term.
    pub fn of(term: Term) -> Key
        ensures { result ≡ key_of term }
    {
        match term {
            Term::Constant(width, value) => Key {
                kind: 0,
                first: width,
                second: 0,
                third: 0,
                number: value,
            },
            Term::Cell(cell) => Key::row(1, cell, 0, 0),
            Term::Element(first, length, i) => Key::row(2, first, length, i.0),
            Term::Add(i, j) => Key::row(3, i.0, j.0, 0),
            Term::Subtract(i, j) => Key::row(4, i.0, j.0, 0),
            Term::Multiply(i, j) => Key::row(5, i.0, j.0, 0),
            Term::Divide(i, j) => Key::row(6, i.0, j.0, 0),
            Term::Remainder(i, j) => Key::row(7, i.0, j.0, 0),
            Term::And(i, j) => Key::row(8, i.0, j.0, 0),
            Term::Or(i, j) => Key::row(9, i.0, j.0, 0),
            Term::Xor(i, j) => Key::row(10, i.0, j.0, 0),
            Term::Not(i) => Key::row(11, i.0, 0, 0),
            Term::ShiftLeft(i, j) => Key::row(12, i.0, j.0, 0),
            Term::ShiftRight(i, j) => Key::row(13, i.0, j.0, 0),
            Term::ShiftSigned(i, j) => Key::row(14, i.0, j.0, 0),
            Term::Equal(i, j) => Key::row(15, i.0, j.0, 0),
            Term::Less(i, j) => Key::row(16, i.0, j.0, 0),
            Term::LessSigned(i, j) => Key::row(17, i.0, j.0, 0),
            Term::Select(i, j, k) => Key::row(18, i.0, j.0, k.0),
            Term::ZeroExtend(width, i) => Key::row(19, width, i.0, 0),
            Term::SignExtend(width, i) => Key::row(20, width, i.0, 0),
            Term::Truncate(width, i) => Key::row(21, width, i.0, 0),
            Term::Bit(bit, i) => Key::row(22, bit, i.0, 0),
        }
    }
}
