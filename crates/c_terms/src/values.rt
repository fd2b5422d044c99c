//! Values of slots and of objects' elements, as terms. A slot's cell has 64 bits, an element's the width of its kind.
ghost use Rattle.std.specs.Prelude.{◌≡◌, ℕ, List, IfOk};
ghost use Rattle.lv_base.specs.Integers as int;
ghost use Rattle.c_terms.specs.Made as made;
ghost use Rattle.c_terms.specs.Numbers as of;
ghost use Rattle.c_terms.specs.Operations as by;
ghost use Rattle.c_terms.specs.Shown.{Puts, Shows};

use crate::words::{SLOT_WIDTH, Words};
use bv_term::TermId;
use lv_base::{Kind, Memory, Model, width};

/// Whether a kind has negative values; `char` does.
pub fn is_signed(kind: Kind) -> bool
    ensures { result ≡ int.is_signed kind }
{
    match kind {
        Kind::Char | Kind::Short | Kind::Int | Kind::Long | Kind::LongLong => true,
        Kind::Bool | Kind::UChar | Kind::UShort => false,
        Kind::UInt | Kind::ULong | Kind::ULongLong => false,
    }
}

fn is_bool(kind: Kind) -> bool
    ensures { result ≡ of.is_bool kind }
{
    match kind {
        Kind::Bool => true,
        Kind::Char | Kind::Short | Kind::Int | Kind::Long | Kind::LongLong => false,
        Kind::UChar | Kind::UShort | Kind::UInt | Kind::ULong | Kind::ULongLong => false,
    }
}

/// The kind to which arithmetic promotes (C11 6.3.1.1).
pub fn promoted(kind: Kind) -> Kind
    ensures { result ≡ of.promoted kind }
{
    match kind {
        Kind::Bool | Kind::Char | Kind::UChar | Kind::Short | Kind::UShort => Kind::Int,
        Kind::Int => Kind::Int,
        Kind::UInt => Kind::UInt,
        Kind::Long => Kind::Long,
        Kind::ULong => Kind::ULong,
        Kind::LongLong => Kind::LongLong,
        Kind::ULongLong => Kind::ULongLong,
    }
}

/// The low bits of a slot's value, as many as the kind has.
pub fn narrow(words: &mut Words, kind: Kind, model: Model, slot: TermId) -> Result<TermId, Memory>
    ensures shows { (store : List ℕ) (a : ℕ) → Shows words.old.terms store slot 64 a
        → IfOk result (λ t. Puts words.old words.new store t (int.width_of kind model) (of.narrowed kind model a)) }
    ensures made { IfOk result (λ t. (words.new, t) ≡ made.narrow words.old kind model slot) }
{
    let bits = width(kind, model);
    if bits < SLOT_WIDTH {
        words.truncate(bits, slot)
    } else {
        Ok(slot)
    }
}

/// The value of a slot that has these bits in a kind.
pub fn widen(words: &mut Words, kind: Kind, model: Model, bits: TermId) -> Result<TermId, Memory>
    ensures shows { (store : List ℕ) (a : ℕ) → Shows words.old.terms store bits (int.width_of kind model) a
        → IfOk result (λ t. Puts words.old words.new store t 64 (of.widened kind model a)) }
    ensures made { IfOk result (λ t. (words.new, t) ≡ made.widen words.old kind model bits) }
{
    if width(kind, model) >= SLOT_WIDTH {
        return Ok(bits);
    }
    if is_signed(kind) {
        words.extend_sign(SLOT_WIDTH, bits)
    } else {
        words.extend_zero(SLOT_WIDTH, bits)
    }
}

// 1 where a slot's value is not 0, as the value of a slot.
fn nonzero(words: &mut Words, slot: TermId) -> Result<TermId, Memory>
    ensures shows { (store : List ℕ) (a : ℕ) → Shows words.old.terms store slot 64 a
        → IfOk result (λ t. Puts words.old words.new store t 64 (of.nonzero a)) }
    ensures made { IfOk result (λ t. (words.new, t) ≡ made.nonzero words.old slot) }
{
    let zero = words.is_zero(slot)?;
    let is_true = words.not(zero)?;
    words.truth(is_true)
}

// The value of a slot that has the slot's low bits in a kind.
fn cut(words: &mut Words, kind: Kind, model: Model, slot: TermId) -> Result<TermId, Memory>
    ensures shows { (store : List ℕ) (a : ℕ) → Shows words.old.terms store slot 64 a
        → IfOk result (λ t. Puts words.old words.new store t 64 (of.widened kind model (of.narrowed kind model a))) }
    ensures made { IfOk result (λ t. (words.new, t) ≡ made.cut words.old kind model slot) }
{
    let bits = narrow(words, kind, model, slot)?;
    widen(words, kind, model, bits)
}

/// A slot's value converted to a kind (C11 6.3.1.2, 6.3.1.3).
pub fn converted(
    words: &mut Words,
    kind: Kind,
    model: Model,
    slot: TermId,
) -> Result<TermId, Memory>
    ensures shows { (store : List ℕ) (a : ℕ) → Shows words.old.terms store slot 64 a
        → IfOk result (λ t. Puts words.old words.new store t 64 (of.converted kind model a)) }
    ensures made { IfOk result (λ t. (words.new, t) ≡ made.converted words.old kind model slot) }
{
    if is_bool(kind) {
        nonzero(words, slot)
    } else {
        cut(words, kind, model, slot)
    }
}

/// A slot's value with a minus in a kind, where that does not overflow.
pub fn negated(words: &mut Words, kind: Kind, model: Model, slot: TermId) -> Result<TermId, Memory>
    ensures shows { (store : List ℕ) (a : ℕ) → Shows words.old.terms store slot 64 a
        → IfOk result (λ t. Puts words.old words.new store t 64 (by.negation kind model a)) }
    ensures made { IfOk result (λ t. (words.new, t) ≡ made.negated words.old kind model slot) }
{
    let bits = narrow(words, kind, model, slot)?;
    let zero = words.zero(width(kind, model))?;
    let less = words.subtract(zero, bits)?;
    widen(words, kind, model, less)
}

/// The complement of a slot's value in a kind, bit by bit.
pub fn complement(
    words: &mut Words,
    kind: Kind,
    model: Model,
    slot: TermId,
) -> Result<TermId, Memory>
    ensures shows { (store : List ℕ) (a : ℕ) → Shows words.old.terms store slot 64 a
        → IfOk result (λ t. Puts words.old words.new store t 64 (by.complement kind model a)) }
    ensures made { IfOk result (λ t. (words.new, t) ≡ made.complement words.old kind model slot) }
{
    let bits = narrow(words, kind, model, slot)?;
    let turned = words.not(bits)?;
    widen(words, kind, model, turned)
}
