ghost use Rattle.std.specs.Prelude.{◌≡◌, ◌*ℤ◌, ◌≤ℤ◌, ◌<ℤ◌, pos, true, IfSome, Result, Ok, ℤ, IsTrue};
ghost use Rattle.lv_base.specs.Integers as int;
ghost use Rattle.c_run.specs.Run as run;
ghost use Rattle.c_run.specs.Operators as operators;
ghost use Rattle.c_typed.specs.Run as typed;
ghost use Rattle.typed_range_laws.specs.Guards as guards;
ghost use Rattle.slot_board.specs.Seen.{applied_value, plain_value, finished, is_index_of};

use c_tree::{BinaryOp, Crement};
use lv_base::{ErrorKind, Kind, Model, Op};
use quick_integers::{arith, cut_quotient, cut_remainder, greatest, in_range, least};

/// The value that a conversion to a kind gives. One of the kind's own stays as it is.
#[inline(always)]
#[tactic(auto, using(crate::proofs::Quick::converted_same))]
pub fn convert(value: i128, kind: Kind, model: Model) -> i128
    ensures { result ≡ int.converted kind model value }
{
    if in_range(kind, model, value) {
        return value;
    }
    quick_integers::convert(value, kind, model)
}

/// 1 of what holds, and 0.
#[inline(always)]
pub fn truth(holds: bool) -> i128
    ensures { result ≡ int.truth holds }
{
    if holds { 1 } else { 0 }
}

/// The first of two values where this holds, and else the second.
#[inline(always)]
pub fn chosen(holds: bool, first: i128, second: i128) -> i128
    ensures { result ≡ run.choose holds first second }
{
    if holds { first } else { second }
}

/// Whether a value is 0.
#[inline(always)]
pub fn is_zero(value: i128) -> bool
    ensures { result ≡ int.is_zero value }
{
    value <= 0 && 0 <= value
}

/// Whether a value is not 0.
#[inline(always)]
pub fn is_true(value: i128) -> bool
    ensures { result ≡ run.is_true value }
{
    !is_zero(value)
}

#[inline(always)]
fn is_promoted(kind: Kind) -> bool
    ensures { result ≡ int.is_promoted kind }
{
    match kind {
        Kind::Int | Kind::UInt => true,
        Kind::Long | Kind::ULong => true,
        Kind::LongLong | Kind::ULongLong => true,
        Kind::Bool => false,
        Kind::Char | Kind::UChar => false,
        Kind::Short | Kind::UShort => false,
    }
}

/// What arithmetic promotes a kind to.
#[inline(always)]
pub fn promoted(kind: Kind) -> Kind
    ensures { result ≡ typed.promoted kind }
{
    if is_promoted(kind) { kind } else { Kind::Int }
}

#[inline(always)]
fn is_signed(kind: Kind) -> bool
    ensures { result ≡ int.is_signed kind }
{
    matches!(
        kind,
        Kind::Char | Kind::Short | Kind::Int | Kind::Long | Kind::LongLong
    )
}

#[inline(always)]
fn is_shift(op: Op) -> bool
    ensures { result ≡ int.is_shift op }
{
    match op {
        Op::Shl | Op::Shr => true,
        Op::Add | Op::Sub | Op::Mul | Op::Div | Op::Rem => false,
        Op::And | Op::Or | Op::Xor => false,
        Op::Less | Op::LessEqual | Op::Equal => false,
    }
}

#[inline(always)]
fn is_any(value: i128) -> bool
    ensures test { result ≡ guards.is_any value }
    ensures range { IsTrue result → int.InAny value }
{
    -9223372036854775808 <= value && value <= 18446744073709551615
}

// Whether a value may be the right operand of an operation.
#[inline(always)]
fn is_right(op: Op, kind: Kind, model: Model, value: i128) -> bool
    ensures test { result ≡ guards.is_right op kind model value }
    ensures range { IsTrue result → int.IsRight op kind model value }
{
    if is_shift(op) {
        return is_any(value);
    }
    in_range(kind, model, value)
}

// Whether a value lies between these.
#[inline(always)]
fn between(low: i64, high: u64, value: i128) -> bool
    ensures { IsTrue result → (low ≤ℤ value) × (value ≤ℤ pos high) }
{
    low as i128 <= value && value <= high as i128
}

// Whether a kind is promoted, and both operands lie between these.
#[inline(always)]
fn are_given(low: i64, high: u64, kind: Kind, left: i128, right: i128) -> bool
    ensures promoted { IsTrue result → IsTrue (int.is_promoted kind) }
    ensures left { IsTrue result → (low ≤ℤ left) × (left ≤ℤ pos high) }
    ensures right { IsTrue result → (low ≤ℤ right) × (right ≤ℤ pos high) }
{
    between(low, high, left) && between(low, high, right) && is_promoted(kind)
}

// A sum, a difference or a product, where the kind with these ends holds it.
#[inline(always)]
#[tactic(auto, using(crate::proofs::Quick::exact_between))]
fn summed(low: i64, high: u64, kind: Kind, model: Model, value: i128) -> Option<i128>
    requires low { low ≡ int.least_of kind model }
    requires high { pos high ≡ int.greatest_of kind model }
    ensures { IfSome result (λ v. Ok v ≡ int.exact kind model value) }
{
    if between(low, high, value) {
        return Some(value);
    }
    None
}

// A sum of two values of a kind.
#[inline(always)]
fn added(low: i64, high: u64, kind: Kind, model: Model, left: i128, right: i128) -> Option<i128>
    requires low { low ≡ int.least_of kind model }
    requires high { pos high ≡ int.greatest_of kind model }
    requires left { int.InRange kind model left }
    requires right { int.InRange kind model right }
    ensures { IfSome result (λ v. Ok v ≡ int.arith_of Op.Add kind model left right) }
{
    summed(low, high, kind, model, left + right)
}

// A difference of two values of a kind.
#[inline(always)]
fn subtracted(
    low: i64,
    high: u64,
    kind: Kind,
    model: Model,
    left: i128,
    right: i128,
) -> Option<i128>
    requires low { low ≡ int.least_of kind model }
    requires high { pos high ≡ int.greatest_of kind model }
    requires left { int.InRange kind model left }
    requires right { int.InRange kind model right }
    ensures { IfSome result (λ v. Ok v ≡ int.arith_of Op.Sub kind model left right) }
{
    summed(low, high, kind, model, left - right)
}

// A product of two values of a signed kind.
#[inline(always)]
fn multiplied(
    low: i64,
    high: u64,
    kind: Kind,
    model: Model,
    left: i128,
    right: i128,
) -> Option<i128>
    requires low { low ≡ int.least_of kind model }
    requires high { pos high ≡ int.greatest_of kind model }
    requires left { int.InRange kind model left }
    requires right { int.InRange kind model right }
    ensures { IfSome result (λ v. Ok v ≡ int.exact kind model (left *ℤ right)) }
{
    if is_signed(kind) {
        return summed(low, high, kind, model, left * right);
    }
    None
}

// Whether there is a quotient with no sign.
#[inline(always)]
fn is_plain(left: i128, right: i128) -> bool
    ensures { IsTrue result → (pos 0 ≤ℤ left) × (pos 0 <ℤ right) }
{
    0 <= left && 0 < right
}

// A quotient of two values of a kind, where it has no sign.
#[inline(always)]
#[tactic(auto, using(crate::proofs::Quick::plain_quotient))]
fn divided(kind: Kind, model: Model, left: i128, right: i128) -> Option<i128>
    requires left { int.InRange kind model left }
    requires right { int.InRange kind model right }
    ensures { IfSome result (λ v. Ok v ≡ int.quotient kind model left right) }
{
    if is_plain(left, right) {
        return Some(cut_quotient(left, right));
    }
    None
}

// What such a quotient leaves.
#[inline(always)]
#[tactic(auto, using(crate::proofs::Quick::plain_rest))]
fn left_over(kind: Kind, model: Model, left: i128, right: i128) -> Option<i128>
    requires left { int.InRange kind model left }
    requires right { int.InRange kind model right }
    ensures { IfSome result (λ v. Ok v ≡ int.remainder kind model left right) }
{
    if is_plain(left, right) {
        return Some(cut_remainder(left, right));
    }
    None
}

// The value of an operation on two values of its kind, whose ends these are, where there is a short way to it.
#[inline(always)]
fn operated(
    low: i64,
    high: u64,
    op: Op,
    kind: Kind,
    model: Model,
    left: i128,
    right: i128,
) -> Option<i128>
    requires low { low ≡ int.least_of kind model }
    requires high { pos high ≡ int.greatest_of kind model }
    requires left { int.InRange kind model left }
    requires right { int.InRange kind model right }
    ensures { IfSome result (λ v. Ok v ≡ int.arith_of op kind model left right) }
{
    match op {
        Op::Add => added(low, high, kind, model, left, right),
        Op::Sub => subtracted(low, high, kind, model, left, right),
        Op::Mul => multiplied(low, high, kind, model, left, right),
        Op::Div => divided(kind, model, left, right),
        Op::Rem => left_over(kind, model, left, right),
        Op::Less => Some(truth(left < right)),
        Op::LessEqual => Some(truth(left <= right)),
        Op::Equal => Some(truth(left == right)),
        Op::And | Op::Or | Op::Xor => None,
        Op::Shl | Op::Shr => None,
    }
}

/// The value of an operation in a promoted kind on two values of it, where there is a short way to it.
#[inline(always)]
pub fn quickly(model: Model, op: Op, kind: Kind, left: i128, right: i128) -> Option<i128>
    ensures { IfSome result (λ v. Ok v ≡ guards.guarded model op kind left right) }
{
    let low = least(kind, model);
    let high = greatest(kind, model);
    if are_given(low, high, kind, left, right) {
        return operated(low, high, op, kind, model, left, right);
    }
    None
}

/// The operation in a promoted kind, or the error that it meets. Where an operand is no value of the kind it is not done:
/// in the code of a typed tree that never happens.
#[inline(never)]
pub fn guarded(model: Model, op: Op, kind: Kind, left: i128, right: i128) -> Result<i128, ErrorKind>
    ensures { result ≡ guards.guarded model op kind left right }
{
    if is_promoted(kind) && in_range(kind, model, left) && is_right(op, kind, model, right) {
        return arith(op, kind, model, left, right);
    }
    Err(ErrorKind::Overflow)
}

// The value of a binary operator on two values of its kind, whose ends these are, where there is a short way to it.
#[inline(always)]
#[tactic(auto, using(crate::proofs::Quick::finished_plain))]
fn combined(
    low: i64,
    high: u64,
    op: BinaryOp,
    kind: Kind,
    model: Model,
    left: i128,
    right: i128,
) -> Option<i128>
    requires low { low ≡ int.least_of kind model }
    requires high { pos high ≡ int.greatest_of kind model }
    requires left { int.InRange kind model left }
    requires right { int.InRange kind model right }
    ensures { IfSome result (λ v. Ok v ≡ plain_value model op kind left right) }
{
    match op {
        BinaryOp::Add => added(low, high, kind, model, left, right),
        BinaryOp::Subtract => subtracted(low, high, kind, model, left, right),
        BinaryOp::Multiply => multiplied(low, high, kind, model, left, right),
        BinaryOp::Divide => divided(kind, model, left, right),
        BinaryOp::Remainder => left_over(kind, model, left, right),
        BinaryOp::Less => Some(truth(left < right)),
        BinaryOp::Greater => Some(truth(right < left)),
        BinaryOp::LessEqual => Some(truth(left <= right)),
        BinaryOp::GreaterEqual => Some(truth(right <= left)),
        BinaryOp::Equal => Some(truth(left == right)),
        BinaryOp::NotEqual => Some(truth(is_zero(truth(left == right)))),
        BinaryOp::OrElse | BinaryOp::BitOr => None,
        BinaryOp::AndAlso | BinaryOp::BitAnd => None,
        BinaryOp::BitXor | BinaryOp::ShiftLeft | BinaryOp::ShiftRight => None,
    }
}

fn op_of(op: BinaryOp) -> Op
    ensures { result ≡ operators.op_of op }
{
    match op {
        BinaryOp::OrElse => Op::Or,
        BinaryOp::AndAlso => Op::And,
        BinaryOp::BitOr => Op::Or,
        BinaryOp::BitXor => Op::Xor,
        BinaryOp::BitAnd => Op::And,
        BinaryOp::Equal => Op::Equal,
        BinaryOp::NotEqual => Op::Equal,
        BinaryOp::Less => Op::Less,
        BinaryOp::Greater => Op::Less,
        BinaryOp::LessEqual => Op::LessEqual,
        BinaryOp::GreaterEqual => Op::LessEqual,
        BinaryOp::ShiftLeft => Op::Shl,
        BinaryOp::ShiftRight => Op::Shr,
        BinaryOp::Add => Op::Add,
        BinaryOp::Subtract => Op::Sub,
        BinaryOp::Multiply => Op::Mul,
        BinaryOp::Divide => Op::Div,
        BinaryOp::Remainder => Op::Rem,
    }
}

fn is_turned(op: BinaryOp) -> bool
    ensures { result ≡ operators.is_turned op }
{
    matches!(op, BinaryOp::Greater | BinaryOp::GreaterEqual)
}

fn negated(op: BinaryOp, value: i128) -> i128
    ensures { result ≡ operators.negated (operators.is_negated op) value }
{
    match op {
        BinaryOp::NotEqual => truth(!is_true(value)),
        _ => value,
    }
}

/// What a binary operator but for `&&` and `||` gives of two values of its kind, or the error that it meets.
#[inline(never)]
pub fn applied(
    model: Model,
    op: BinaryOp,
    kind: Kind,
    left: i128,
    right: i128,
) -> Result<i128, ErrorKind>
    ensures { result ≡ applied_value model op kind left right }
{
    let computed = if is_turned(op) {
        guarded(model, op_of(op), kind, right, left)
    } else {
        guarded(model, op_of(op), kind, left, right)
    };
    match computed {
        Ok(value) => Ok(negated(op, value)),
        Err(error) => Err(error),
    }
}

/// The same, where it is a value to which there is a short way.
#[inline(always)]
pub fn quickly_applied(
    model: Model,
    op: BinaryOp,
    kind: Kind,
    left: i128,
    right: i128,
) -> Option<i128>
    ensures { IfSome result (λ v. Ok v ≡ applied_value model op kind left right) }
{
    let low = least(kind, model);
    let high = greatest(kind, model);
    if are_given(low, high, kind, left, right) {
        return combined(low, high, op, kind, model, left, right);
    }
    None
}

/// The operation of `++` and of `--`.
#[inline(always)]
pub fn crement_op(by: Crement) -> Op
    ensures { result ≡ operators.crement_op by }
{
    match by {
        Crement::Increment => Op::Add,
        Crement::Decrement => Op::Sub,
    }
}

/// Whether an index is one of so many elements.
#[inline(always)]
pub fn is_index(index: i128, count: usize) -> bool
    ensures { result ≡ is_index_of count index }
{
    0 <= index && index < count as i128
}
