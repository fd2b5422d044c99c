ghost use Rattle.std.specs.Prelude.{◌≡◌, IsTrue, true, false};
ghost use Rattle.lv_base.specs.Integers as int;
ghost use Rattle.c_run.specs.Operators as op;
ghost use Rattle.type_kinds.specs.Seen as kinds;
ghost use Rattle.type_constants.specs.Evaluated as ev;

use c_tree::{BinaryOp, PrefixOp};
use lv_base::{Kind, Model, Op, arith, convert};
use type_kinds::{ExprType, kind_of, operation_kind, promoted, right_kind, size_of};

fn truth(holds: bool) -> i128
    ensures { result ≡ int.truth holds }
{
    if holds { 1 } else { 0 }
}

fn is_zero(value: i128) -> bool
    ensures { result ≡ int.is_zero value }
{
    value <= 0 && 0 <= value
}

fn computed(op: Op, kind: Kind, model: Model, left: i128, right: i128) -> Option<i128>
    requires kind { IsTrue (int.is_promoted kind) }
    requires left { int.InRange kind model left }
    requires right { int.IsRight op kind model right }
    ensures { result ≡ ev.ok_value (int.arith_of op kind model left right) }
{
    match arith(op, kind, model, left, right) {
        Ok(value) => Some(value),
        Err(_) => None,
    }
}

// An operation on two values that are converted to its kind.
fn plain(op: Op, kind: Kind, model: Model, left: i128, right: i128) -> Option<i128>
    requires kind { IsTrue (int.is_promoted kind) }
    requires plain { int.is_shift op ≡ false }
    ensures { result ≡ ev.ok_value (int.arith_of op kind model (int.converted kind model left) (int.converted kind model right)) }
{
    let left = convert(left, kind, model);
    let right = convert(right, kind, model);
    computed(op, kind, model, left, right)
}

// A shift, whose right operand has a kind of its own.
fn shifted(op: Op, kind: Kind, amount: Kind, model: Model, left: i128, right: i128) -> Option<i128>
    requires kind { IsTrue (int.is_promoted kind) }
    requires shift { int.is_shift op ≡ true }
    ensures { result ≡ ev.ok_value (int.arith_of op kind model (int.converted kind model left) (int.converted amount model right)) }
{
    let left = convert(left, kind, model);
    let right = convert(right, amount, model);
    computed(op, kind, model, left, right)
}

fn turned(value: Option<i128>) -> Option<i128>
    ensures { result ≡ ev.finished true value }
{
    match value {
        None => None,
        Some(value) => Some(truth(is_zero(value))),
    }
}

// A binary operator on two values of these kinds.
fn applied(op: BinaryOp, model: Model, k: Kind, l: Kind, x: i128, y: i128) -> Option<i128>
    ensures { result ≡ ev.applied_constant model op k l x y }
{
    let kind = operation_kind(model, op, k, l);
    match op {
        BinaryOp::OrElse => plain(Op::Or, kind, model, x, y),
        BinaryOp::AndAlso => plain(Op::And, kind, model, x, y),
        BinaryOp::BitOr => plain(Op::Or, kind, model, x, y),
        BinaryOp::BitXor => plain(Op::Xor, kind, model, x, y),
        BinaryOp::BitAnd => plain(Op::And, kind, model, x, y),
        BinaryOp::Equal => plain(Op::Equal, kind, model, x, y),
        BinaryOp::NotEqual => turned(plain(Op::Equal, kind, model, x, y)),
        BinaryOp::Less => plain(Op::Less, kind, model, x, y),
        BinaryOp::Greater => plain(Op::Less, kind, model, y, x),
        BinaryOp::LessEqual => plain(Op::LessEqual, kind, model, x, y),
        BinaryOp::GreaterEqual => plain(Op::LessEqual, kind, model, y, x),
        BinaryOp::ShiftLeft => shifted(Op::Shl, kind, promoted(l), model, x, y),
        BinaryOp::ShiftRight => shifted(Op::Shr, kind, promoted(l), model, x, y),
        BinaryOp::Add => plain(Op::Add, kind, model, x, y),
        BinaryOp::Subtract => plain(Op::Sub, kind, model, x, y),
        BinaryOp::Multiply => plain(Op::Mul, kind, model, x, y),
        BinaryOp::Divide => plain(Op::Div, kind, model, x, y),
        BinaryOp::Remainder => plain(Op::Rem, kind, model, x, y),
    }
}

fn truth_of(value: Option<i128>) -> Option<i128>
    ensures { result ≡ ev.truth_constant value }
{
    match value {
        None => None,
        Some(value) => Some(truth(!is_zero(value))),
    }
}

fn both(x: i128, y: Option<i128>) -> Option<i128>
    ensures { result ≡ ev.both_constant x y }
{
    if is_zero(x) { Some(0) } else { truth_of(y) }
}

fn either(x: i128, y: Option<i128>) -> Option<i128>
    ensures { result ≡ ev.either_constant x y }
{
    if is_zero(x) { truth_of(y) } else { Some(1) }
}

fn apply(op: BinaryOp, model: Model, k: Kind, l: Kind, x: i128, y: Option<i128>) -> Option<i128>
    ensures { result ≡ ev.apply_constant model op k l x y }
{
    match y {
        None => None,
        Some(y) => applied(op, model, k, l, x, y),
    }
}

/// The value of a binary operator on operands of these kinds and values, where it has one.
pub fn binary_constant(
    op: BinaryOp,
    model: Model,
    k: Kind,
    l: Kind,
    x: Option<i128>,
    y: Option<i128>,
) -> Option<i128>
    ensures { result ≡ ev.binary_constant model op k l x y }
{
    match x {
        None => None,
        Some(x) => match op {
            BinaryOp::AndAlso => both(x, y),
            BinaryOp::OrElse => either(x, y),
            _ => apply(op, model, k, l, x, y),
        },
    }
}

fn plus(kind: Kind, model: Model, value: Option<i128>) -> Option<i128>
    ensures { result ≡ ev.plus_constant model kind value }
{
    match value {
        None => None,
        Some(value) => Some(convert(value, kind, model)),
    }
}

fn minus(kind: Kind, model: Model, value: Option<i128>) -> Option<i128>
    requires { IsTrue (int.is_promoted kind) }
    ensures { result ≡ ev.minus_constant model kind value }
{
    match value {
        None => None,
        Some(value) => {
            let right = convert(value, kind, model);
            computed(Op::Sub, kind, model, 0, right)
        }
    }
}

fn complement(kind: Kind, model: Model, value: Option<i128>) -> Option<i128>
    requires { IsTrue (int.is_promoted kind) }
    ensures { result ≡ ev.complement_constant model kind value }
{
    match value {
        None => None,
        Some(value) => plain(Op::Xor, kind, model, value, -1),
    }
}

/// The value of a prefix operator on an operand of this type and value, where it has one.
pub fn prefix_constant(
    op: PrefixOp,
    model: Model,
    of: ExprType<'_>,
    value: Option<i128>,
) -> Option<i128>
    ensures { result ≡ ev.prefix_constant model op (kinds.type_of of.entry) value }
{
    match op {
        PrefixOp::Increment => None,
        PrefixOp::Decrement => None,
        PrefixOp::Sizeof => Some(size_of(model, of) as i128),
        PrefixOp::Extension => value,
        PrefixOp::Not => turned(value),
        PrefixOp::Plus => plus(promoted(kind_of(of)), model, value),
        PrefixOp::Minus => minus(promoted(kind_of(of)), model, value),
        PrefixOp::Complement => complement(promoted(kind_of(of)), model, value),
    }
}

fn as_type(model: Model, of: ExprType<'_>, value: i128) -> i128
    ensures { result ≡ ev.as_value model (kinds.type_of of.entry) value }
{
    match of {
        ExprType::Kind(k) => convert(value, k, model),
        ExprType::Void => 0,
        ExprType::Array(_, _) => 0,
        ExprType::Function(_, _) => 0,
        ExprType::None => 0,
    }
}

/// A value converted to this type, and 0 where it is void.
pub fn cast_constant(model: Model, of: ExprType<'_>, value: Option<i128>) -> Option<i128>
    ensures { result ≡ ev.cast_constant model (kinds.type_of of.entry) value }
{
    match value {
        None => None,
        Some(value) => Some(as_type(model, of, value)),
    }
}

/// The value of `?:` of this type, where it has one.
pub fn cond_constant(
    model: Model,
    of: ExprType<'_>,
    test: Option<i128>,
    a: Option<i128>,
    b: Option<i128>,
) -> Option<i128>
    ensures { result ≡ ev.cond_constant model (kinds.type_of of.entry) test a b }
{
    match test {
        None => None,
        Some(test) => {
            let chosen = if is_zero(test) { b } else { a };
            cast_constant(model, of, chosen)
        }
    }
}
