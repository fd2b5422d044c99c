ghost use Rattle.std.specs.Prelude.{◌≡◌, IsTrue};
ghost use Rattle.lv_base.specs.Integers as int;
ghost use Rattle.c_meaning.specs.Kinds as k;
ghost use Rattle.c_meaning.specs.Rules as rule;

use lv_base::{Kind, Model, width};

fn rank(kind: Kind) -> u8
    ensures { result ≡ k.rank kind }
{
    match kind {
        Kind::Bool => 0,
        Kind::Char => 1,
        Kind::UChar => 1,
        Kind::Short => 2,
        Kind::UShort => 2,
        Kind::Int => 3,
        Kind::UInt => 3,
        Kind::Long => 4,
        Kind::ULong => 4,
        Kind::LongLong => 5,
        Kind::ULongLong => 5,
    }
}

/// Whether a kind is signed.
pub fn is_signed(kind: Kind) -> bool
    ensures { result ≡ int.is_signed kind }
{
    match kind {
        Kind::Bool => false,
        Kind::Char => true,
        Kind::UChar => false,
        Kind::Short => true,
        Kind::UShort => false,
        Kind::Int => true,
        Kind::UInt => false,
        Kind::Long => true,
        Kind::ULong => false,
        Kind::LongLong => true,
        Kind::ULongLong => false,
    }
}

/// Whether promotion leaves a kind as it is (C11 6.3.1.1).
pub fn is_promoted(kind: Kind) -> bool
    ensures { result ≡ int.is_promoted kind }
{
    match kind {
        Kind::Bool => false,
        Kind::Char => false,
        Kind::UChar => false,
        Kind::Short => false,
        Kind::UShort => false,
        Kind::Int => true,
        Kind::UInt => true,
        Kind::Long => true,
        Kind::ULong => true,
        Kind::LongLong => true,
        Kind::ULongLong => true,
    }
}

/// The promoted kind: `int` for a kind of a lower rank (C11 6.3.1.1).
pub fn promoted(kind: Kind) -> Kind
    ensures kind { result ≡ k.promoted kind }
    ensures promoted { IsTrue (int.is_promoted result) }
{
    if is_promoted(kind) { kind } else { Kind::Int }
}

/// Whether two kinds are one, by rank and sign.
pub fn is_same_kind(a: Kind, b: Kind) -> bool
    ensures { result ≡ rule.is_same_kind a b }
{
    let signed = is_signed(b);
    rank(a) == rank(b) && (if is_signed(a) { signed } else { !signed })
}

fn unsigned_of(kind: Kind) -> Kind
    ensures kind { result ≡ k.unsigned_of kind }
    ensures promoted { IsTrue (int.is_promoted kind) → IsTrue (int.is_promoted result) }
{
    match kind {
        Kind::Bool => Kind::Bool,
        Kind::Char => Kind::UChar,
        Kind::UChar => Kind::UChar,
        Kind::Short => Kind::UShort,
        Kind::UShort => Kind::UShort,
        Kind::Int => Kind::UInt,
        Kind::UInt => Kind::UInt,
        Kind::Long => Kind::ULong,
        Kind::ULong => Kind::ULong,
        Kind::LongLong => Kind::ULongLong,
        Kind::ULongLong => Kind::ULongLong,
    }
}

fn greater(a: Kind, b: Kind) -> Kind
    ensures kind { result ≡ k.greater a b }
    ensures promoted { IsTrue (int.is_promoted a) → IsTrue (int.is_promoted b) → IsTrue (int.is_promoted result) }
{
    if rank(b) <= rank(a) { a } else { b }
}

fn mixed(model: Model, unsigned: Kind, signed: Kind) -> Kind
    ensures kind { result ≡ k.mixed model unsigned signed }
    ensures promoted { IsTrue (int.is_promoted unsigned) → IsTrue (int.is_promoted signed) → IsTrue (int.is_promoted result) }
{
    if rank(signed) <= rank(unsigned) {
        return unsigned;
    }
    if width(unsigned, model) < width(signed, model) {
        return signed;
    }
    unsigned_of(signed)
}

fn common_promoted(model: Model, a_signed: bool, b_signed: bool, a: Kind, b: Kind) -> Kind
    ensures kind { result ≡ k.common_promoted model a_signed b_signed a b }
    ensures promoted { IsTrue (int.is_promoted a) → IsTrue (int.is_promoted b) → IsTrue (int.is_promoted result) }
{
    match (a_signed, b_signed) {
        (true, true) => greater(a, b),
        (false, false) => greater(a, b),
        (false, true) => mixed(model, a, b),
        (true, false) => mixed(model, b, a),
    }
}

/// The kind to which the usual arithmetic conversions take two kinds (C11 6.3.1.8).
pub fn common(model: Model, a: Kind, b: Kind) -> Kind
    ensures kind { result ≡ k.common model a b }
    ensures promoted { IsTrue (int.is_promoted result) }
{
    let a = promoted(a);
    let b = promoted(b);
    common_promoted(model, is_signed(a), is_signed(b), a, b)
}
