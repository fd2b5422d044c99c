ghost use Rattle.std.specs.Prelude.{◌≡◌, IfOk};
ghost use Rattle.c_run.specs.Operators as o;
ghost use Rattle.c_meaning.specs.Kinds as k;
ghost use Rattle.c_typed.specs.Tree as t;
ghost use Rattle.c_typed.specs.View as tv;
ghost use Rattle.typed_values.specs.Made as made;

use crate::nodes::converted;
use c_tree::{AssignOp, BinaryOp, PrefixOp};
use c_typed::{Target, Value};
use lv_base::{Kind, Memory, Model};
use std::alloc::Global;
use type_kinds::{operation_kind, promoted, right_kind};

/// The operation of an assignment.
fn assigned_op(op: AssignOp) -> BinaryOp
    ensures { result ≡ o.assigned_op op }
{
    match op {
        AssignOp::Plain => BinaryOp::Add,
        AssignOp::Multiply => BinaryOp::Multiply,
        AssignOp::Divide => BinaryOp::Divide,
        AssignOp::Remainder => BinaryOp::Remainder,
        AssignOp::Add => BinaryOp::Add,
        AssignOp::Subtract => BinaryOp::Subtract,
        AssignOp::ShiftLeft => BinaryOp::ShiftLeft,
        AssignOp::ShiftRight => BinaryOp::ShiftRight,
        AssignOp::BitAnd => BinaryOp::BitAnd,
        AssignOp::BitXor => BinaryOp::BitXor,
        AssignOp::BitOr => BinaryOp::BitOr,
    }
}

// An operation that computes both operands.
fn computed(
    alloc: Global,
    model: Model,
    op: BinaryOp,
    at: u32,
    left: Kind,
    right: Kind,
    a: Box<Value>,
    b: Box<Value>,
) -> Result<Box<Value>, Memory>
    ensures { IfOk result (λ r. tv.value r.value ≡ t.vBinary op (k.operation_kind model op left right) at (t.vConvert (k.operation_kind model op left right) (tv.value a.value)) (t.vConvert (k.right_kind model op left right) (tv.value b.value))) }
{
    let kind = operation_kind(model, op, left, right);
    let a = converted(alloc, kind, a)?;
    let b = converted(alloc, right_kind(model, op, left, right), b)?;
    Ok(Box::new(alloc, Value::Binary(op, kind, at, a, b))?)
}

fn both(alloc: Global, a: Box<Value>, b: Box<Value>) -> Result<Box<Value>, Memory>
    ensures { IfOk result (λ r. tv.value r.value ≡ t.vBoth (tv.value a.value) (tv.value b.value)) }
{
    Ok(Box::new(alloc, Value::Both(a, b))?)
}

fn either(alloc: Global, a: Box<Value>, b: Box<Value>) -> Result<Box<Value>, Memory>
    ensures { IfOk result (λ r. tv.value r.value ≡ t.vEither (tv.value a.value) (tv.value b.value)) }
{
    Ok(Box::new(alloc, Value::Either(a, b))?)
}

/// A binary operation on operands of these kinds, which are converted but for `&&` and `||` (C11 6.5.5 to 6.5.14).
pub fn binary(
    alloc: Global,
    model: Model,
    op: BinaryOp,
    at: u32,
    left: Kind,
    right: Kind,
    a: Box<Value>,
    b: Box<Value>,
) -> Result<Box<Value>, Memory>
    ensures { IfOk result (λ r. tv.value r.value ≡ made.binary_value model op at left right (tv.value a.value) (tv.value b.value)) }
{
    match op {
        BinaryOp::AndAlso => both(alloc, a, b),
        BinaryOp::OrElse => either(alloc, a, b),
        BinaryOp::BitOr
        | BinaryOp::BitXor
        | BinaryOp::BitAnd
        | BinaryOp::Equal
        | BinaryOp::NotEqual
        | BinaryOp::Less
        | BinaryOp::Greater
        | BinaryOp::LessEqual
        | BinaryOp::GreaterEqual
        | BinaryOp::ShiftLeft
        | BinaryOp::ShiftRight
        | BinaryOp::Add
        | BinaryOp::Subtract
        | BinaryOp::Multiply
        | BinaryOp::Divide
        | BinaryOp::Remainder => computed(alloc, model, op, at, left, right, a, b),
    }
}

fn plain_assigned(
    alloc: Global,
    at: u32,
    kind: Kind,
    target: Box<Target>,
    value: Box<Value>,
) -> Result<Box<Value>, Memory>
    ensures { IfOk result (λ r. tv.value r.value ≡ t.vAssign kind at (tv.target target.value) (t.vConvert kind (tv.value value.value))) }
{
    let value = converted(alloc, kind, value)?;
    Ok(Box::new(alloc, Value::Assign(kind, at, target, value))?)
}

fn updated(
    alloc: Global,
    model: Model,
    op: BinaryOp,
    at: u32,
    left: Kind,
    right: Kind,
    target: Box<Target>,
    value: Box<Value>,
) -> Result<Box<Value>, Memory>
    ensures { IfOk result (λ r. tv.value r.value ≡ t.vUpdate op (k.operation_kind model op left right) left at (tv.target target.value) (t.vConvert (k.right_kind model op left right) (tv.value value.value))) }
{
    let kind = operation_kind(model, op, left, right);
    let value = converted(alloc, right_kind(model, op, left, right), value)?;
    Ok(Box::new(alloc, Value::Update(op, kind, left, at, target, value))?)
}

/// An assignment to a target of the left kind of a value of the right kind (C11 6.5.16).
pub fn assigned(
    alloc: Global,
    model: Model,
    op: AssignOp,
    at: u32,
    left: Kind,
    right: Kind,
    target: Box<Target>,
    value: Box<Value>,
) -> Result<Box<Value>, Memory>
    ensures { IfOk result (λ r. tv.value r.value ≡ made.assigned_value model op at left right (tv.target target.value) (tv.value value.value)) }
{
    match op {
        AssignOp::Plain => plain_assigned(alloc, at, left, target, value),
        AssignOp::Multiply
        | AssignOp::Divide
        | AssignOp::Remainder
        | AssignOp::Add
        | AssignOp::Subtract
        | AssignOp::ShiftLeft
        | AssignOp::ShiftRight
        | AssignOp::BitAnd
        | AssignOp::BitXor
        | AssignOp::BitOr => {
            updated(
                alloc,
                model,
                assigned_op(op),
                at,
                left,
                right,
                target,
                value,
            )
        }
    }
}

fn negated(alloc: Global, at: u32, kind: Kind, value: Box<Value>) -> Result<Box<Value>, Memory>
    ensures { IfOk result (λ r. tv.value r.value ≡ t.vNegate kind at (t.vConvert kind (tv.value value.value))) }
{
    let value = converted(alloc, kind, value)?;
    Ok(Box::new(alloc, Value::Negate(kind, at, value))?)
}

fn complement(alloc: Global, at: u32, kind: Kind, value: Box<Value>) -> Result<Box<Value>, Memory>
    ensures { IfOk result (λ r. tv.value r.value ≡ t.vComplement kind at (t.vConvert kind (tv.value value.value))) }
{
    let value = converted(alloc, kind, value)?;
    Ok(Box::new(alloc, Value::Complement(kind, at, value))?)
}

fn not_true(alloc: Global, value: Box<Value>) -> Result<Box<Value>, Memory>
    ensures { IfOk result (λ r. tv.value r.value ≡ t.vNot (tv.value value.value)) }
{
    Ok(Box::new(alloc, Value::Not(value))?)
}

/// A prefix operator on a value of this kind (C11 6.5.3.3). `__extension__` is nothing, and no other one takes a value.
pub fn prefixed(
    alloc: Global,
    op: PrefixOp,
    at: u32,
    operand: Kind,
    value: Box<Value>,
) -> Result<Box<Value>, Memory>
    ensures { IfOk result (λ r. tv.value r.value ≡ made.prefix_value op at operand (tv.value value.value)) }
{
    match op {
        PrefixOp::Plus => converted(alloc, promoted(operand), value),
        PrefixOp::Minus => negated(alloc, at, promoted(operand), value),
        PrefixOp::Complement => complement(alloc, at, promoted(operand), value),
        PrefixOp::Not => not_true(alloc, value),
        PrefixOp::Increment => Ok(value),
        PrefixOp::Decrement => Ok(value),
        PrefixOp::Extension => Ok(value),
        PrefixOp::Sizeof => Ok(value),
    }
}
