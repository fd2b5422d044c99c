//! The bytes of pairs. Nearly all of a certificate are pairs of its chains, so what their bytes make of a place is told at once,
//! without a look at the other fields.

ghost use Rattle.cert_text.specs.declared.place.Part.{Part};
ghost use Rattle.cert_text.specs.declared.place.Slot.{Slot};
ghost use Rattle.cert_text.specs.Quick.{IsQuick, IsTold};
ghost use Rattle.cert_text.specs.Steps.{place_of};

use crate::place::{Part, Place, Slot};

/// What a byte makes of a number of a pair.
#[derive(Clone, Copy)]
pub enum Told {
    /// The number goes on.
    Digits(u32),
    /// The byte is the blank behind this number.
    Number(u32),
    /// The byte is another one.
    Other,
}

/// What a byte makes of a place in a pair.
#[derive(Clone, Copy)]
pub enum Quick {
    /// The number goes on.
    Digits(u32),
    /// This pivot is whole.
    Pivot(u32),
    /// This pair of a pivot and a clause is whole, and another one follows.
    Pair(u32, u32),
    /// It is left to a step to tell.
    Other,
}

const BLANK: u8 = b' ';

// A number below this one has a digit more below 2^32.
const TENTH: u32 = 429_496_729;

// A byte behind some digits.
fn behind(value: u32, byte: u8) -> Told
    ensures { IsTold (Part.Digits value) byte result }
{
    if byte == BLANK {
        return Told::Number(value);
    }
    if byte < b'0' || byte > b'9' || value == 0 || value >= TENTH {
        return Told::Other;
    }
    Told::Digits(value * 10 + (byte - b'0') as u32)
}

// The first byte of a number.
fn first(byte: u8) -> Told
    ensures { IsTold Part.Fresh byte result }
{
    if byte < b'0' || byte > b'9' {
        return Told::Other;
    }
    Told::Digits((byte - b'0') as u32)
}

// A byte of a number.
fn told_by(part: Part, byte: u8) -> Told
    ensures { IsTold part byte result }
{
    match part {
        Part::Digits(value) => behind(value, byte),
        Part::Fresh => first(byte),
        _ => Told::Other,
    }
}

// A byte of a pivot.
fn pivot_byte(left: u32, chains: u32, part: Part, byte: u8) -> Quick
    ensures { IsQuick (place_of Slot.Pivot left chains) part byte result }
{
    match told_by(part, byte) {
        Told::Digits(value) => Quick::Digits(value),
        Told::Number(value) => Quick::Pivot(value),
        Told::Other => Quick::Other,
    }
}

// A byte of a clause behind its pivot.
fn clause_byte(pivot: u32, left: u32, chains: u32, part: Part, byte: u8) -> Quick
    ensures { IsQuick (place_of (Slot.Clause pivot) left chains) part byte result }
{
    match told_by(part, byte) {
        Told::Digits(value) => Quick::Digits(value),
        Told::Number(value) => Quick::Pair(pivot, value),
        Told::Other => Quick::Other,
    }
}

/// What a byte makes of a place and what was read of its field, where it is one of a pair.
pub fn quick_step(place: Place, part: Part, byte: u8) -> Quick
    ensures { IsQuick place part byte result }
{
    match place.slot {
        Slot::Pivot => pivot_byte(place.left, place.chains, part, byte),
        Slot::Clause(pivot) => clause_byte(pivot, place.left, place.chains, part, byte),
        _ => Quick::Other,
    }
}
