ghost use Rattle.std.specs.Prelude.{◌≡◌, IsTrue};
ghost use Rattle.lv_base.specs.Integers as int;
ghost use Rattle.c_meaning.specs.Kinds as k;

use crate::kinds::{common, promoted};
use c_tree::BinaryOp;
use lv_base::{Kind, Model};

/// Whether an operator shifts, which promotes each operand by itself (C11 6.5.7).
pub fn is_shift(op: BinaryOp) -> bool
    ensures { result ≡ k.is_shift op }
{
    match op {
        BinaryOp::ShiftLeft => true,
        BinaryOp::ShiftRight => true,
        BinaryOp::OrElse => false,
        BinaryOp::AndAlso => false,
        BinaryOp::BitOr => false,
        BinaryOp::BitXor => false,
        BinaryOp::BitAnd => false,
        BinaryOp::Equal => false,
        BinaryOp::NotEqual => false,
        BinaryOp::Less => false,
        BinaryOp::Greater => false,
        BinaryOp::LessEqual => false,
        BinaryOp::GreaterEqual => false,
        BinaryOp::Add => false,
        BinaryOp::Subtract => false,
        BinaryOp::Multiply => false,
        BinaryOp::Divide => false,
        BinaryOp::Remainder => false,
    }
}

/// Whether the result of an operator is an `int` of 0 or 1.
pub fn is_truth(op: BinaryOp) -> bool
    ensures { result ≡ k.is_truth op }
{
    match op {
        BinaryOp::OrElse => true,
        BinaryOp::AndAlso => true,
        BinaryOp::Equal => true,
        BinaryOp::NotEqual => true,
        BinaryOp::Less => true,
        BinaryOp::Greater => true,
        BinaryOp::LessEqual => true,
        BinaryOp::GreaterEqual => true,
        BinaryOp::BitOr => false,
        BinaryOp::BitXor => false,
        BinaryOp::BitAnd => false,
        BinaryOp::ShiftLeft => false,
        BinaryOp::ShiftRight => false,
        BinaryOp::Add => false,
        BinaryOp::Subtract => false,
        BinaryOp::Multiply => false,
        BinaryOp::Divide => false,
        BinaryOp::Remainder => false,
    }
}

/// The kind in which an operation on these kinds is computed, and to which its left operand is converted.
pub fn operation_kind(model: Model, op: BinaryOp, a: Kind, b: Kind) -> Kind
    ensures kind { result ≡ k.operation_kind model op a b }
    ensures promoted { IsTrue (int.is_promoted result) }
{
    if is_shift(op) {
        promoted(a)
    } else {
        common(model, a, b)
    }
}

/// The kind to which the right operand is converted.
pub fn right_kind(model: Model, op: BinaryOp, a: Kind, b: Kind) -> Kind
    ensures kind { result ≡ k.right_kind model op a b }
    ensures promoted { IsTrue (int.is_promoted result) }
{
    if is_shift(op) {
        promoted(b)
    } else {
        common(model, a, b)
    }
}

/// The kind of the result.
pub fn result_kind(model: Model, op: BinaryOp, a: Kind, b: Kind) -> Kind
    ensures { result ≡ k.result_kind model op a b }
{
    if is_truth(op) {
        Kind::Int
    } else {
        operation_kind(model, op, a, b)
    }
}
