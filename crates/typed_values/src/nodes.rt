ghost use Rattle.std.specs.Prelude.{◌≡◌, ◌≤◌, IfOk, OnErr, None, Some, pos};
ghost use Rattle.c_meaning.specs.Kinds as k;
ghost use Rattle.c_typed.specs.Tree as t;
ghost use Rattle.c_typed.specs.View as tv;
ghost use Rattle.c_types.specs.Elaborated as el;
ghost use Rattle.type_kinds.specs.Seen as kinds;

use c_tree::Crement;
use c_typed::{Target, Value};
use lv_base::{Kind, Memory, Model};
use std::alloc::Global;
use type_kinds::{ExprType, size_kind, size_of};

/// A number of an object or of a function. No memory holds as many as make it too great.
pub fn number_of(number: usize) -> Result<u32, Memory>
    ensures same { IfOk result (λ n. n ≡ number) }
    ensures cause { OnErr result (4294967296 ≤ number) }
{
    if number > u32::MAX as usize {
        return Err(Memory);
    }
    Ok(number as u32)
}

/// A node of its own.
pub fn boxed(alloc: Global, value: Value) -> Result<Box<Value>, Memory>
    ensures { IfOk result (λ r. tv.value r.value ≡ tv.value value) }
{
    Ok(Box::new(alloc, value)?)
}

/// A constant of a kind.
pub fn constant(alloc: Global, kind: Kind, value: i128) -> Result<Box<Value>, Memory>
    ensures { IfOk result (λ r. tv.value r.value ≡ t.vConstant kind value) }
{
    Ok(Box::new(alloc, Value::Constant(kind, value))?)
}

/// What has no value.
pub fn nothing(alloc: Global) -> Result<Box<Value>, Memory>
    ensures { IfOk result (λ r. tv.value r.value ≡ t.vNothing) }
{
    Ok(Box::new(alloc, Value::Nothing)?)
}

/// The end of the run.
pub fn abort(alloc: Global) -> Result<Box<Value>, Memory>
    ensures { IfOk result (λ r. tv.value r.value ≡ t.vAbort) }
{
    Ok(Box::new(alloc, Value::Abort)?)
}

/// The error, at a called name.
pub fn reach(alloc: Global, at: u32) -> Result<Box<Value>, Memory>
    ensures { IfOk result (λ r. tv.value r.value ≡ t.vReach at) }
{
    Ok(Box::new(alloc, Value::Reach(at))?)
}

/// A value, converted to a kind.
pub fn converted(alloc: Global, kind: Kind, value: Box<Value>) -> Result<Box<Value>, Memory>
    ensures { IfOk result (λ r. tv.value r.value ≡ t.vConvert kind (tv.value value.value)) }
{
    Ok(Box::new(alloc, Value::Convert(kind, value))?)
}

/// A value that is dropped.
pub fn discarded(alloc: Global, value: Box<Value>) -> Result<Box<Value>, Memory>
    ensures { IfOk result (λ r. tv.value r.value ≡ t.vDiscard (tv.value value.value)) }
{
    Ok(Box::new(alloc, Value::Discard(value))?)
}

/// A drawn input of a kind, converted to the declared result of the function that draws it.
pub fn drawn(alloc: Global, declared_result: Option<Kind>, kind: Kind) -> Result<Box<Value>, Memory>
    ensures { IfOk result (λ r. tv.value r.value ≡ el.drawn_as declared_result (t.vDraw kind)) }
{
    let value = Box::new(alloc, Value::Draw(kind))?;
    match declared_result {
        None => discarded(alloc, value),
        Some(wanted) => converted(alloc, wanted, value),
    }
}

/// A size in bytes.
pub fn size(alloc: Global, model: Model, of: ExprType<'_>) -> Result<Box<Value>, Memory>
    ensures { IfOk result (λ r. tv.value r.value ≡ t.vConstant (k.size_kind model) (pos (k.size_of model (kinds.type_of of.entry)))) }
{
    constant(alloc, size_kind(model), size_of(model, of) as i128)
}

/// A value in a cast to a type (C11 6.5.4).
pub fn cast(alloc: Global, to: ExprType<'_>, value: Box<Value>) -> Result<Box<Value>, Memory>
    ensures { IfOk result (λ r. tv.value r.value ≡ el.cast_to (kinds.type_of to.entry) (tv.value value.value)) }
{
    match to {
        ExprType::Kind(kind) => converted(alloc, kind, value),
        ExprType::Void => discarded(alloc, value),
        ExprType::Array(_, _) => discarded(alloc, value),
        ExprType::Function(_, _) => discarded(alloc, value),
        ExprType::None => discarded(alloc, value),
    }
}

fn arms(
    alloc: Global,
    kind: Kind,
    test: Box<Value>,
    a: Box<Value>,
    b: Box<Value>,
) -> Result<Box<Value>, Memory>
    ensures { IfOk result (λ r. tv.value r.value ≡ t.vCond (Some kind) (tv.value test.value) (t.vConvert kind (tv.value a.value)) (t.vConvert kind (tv.value b.value))) }
{
    let a = converted(alloc, kind, a)?;
    let b = converted(alloc, kind, b)?;
    Ok(Box::new(alloc, Value::Cond(Some(kind), test, a, b))?)
}

fn plain_arms(
    alloc: Global,
    test: Box<Value>,
    a: Box<Value>,
    b: Box<Value>,
) -> Result<Box<Value>, Memory>
    ensures { IfOk result (λ r. tv.value r.value ≡ t.vCond None (tv.value test.value) (tv.value a.value) (tv.value b.value)) }
{
    Ok(Box::new(alloc, Value::Cond(None, test, a, b))?)
}

/// `?:` of a type, to which its arms are converted (C11 6.5.15).
pub fn choice(
    alloc: Global,
    of: ExprType<'_>,
    test: Box<Value>,
    a: Box<Value>,
    b: Box<Value>,
) -> Result<Box<Value>, Memory>
    ensures { IfOk result (λ r. tv.value r.value ≡ el.choice (kinds.type_of of.entry) (tv.value test.value) (tv.value a.value) (tv.value b.value)) }
{
    match of {
        ExprType::Kind(kind) => arms(alloc, kind, test, a, b),
        ExprType::Void => plain_arms(alloc, test, a, b),
        ExprType::Array(_, _) => plain_arms(alloc, test, a, b),
        ExprType::Function(_, _) => plain_arms(alloc, test, a, b),
        ExprType::None => plain_arms(alloc, test, a, b),
    }
}

/// An element of an array that is read.
pub fn element(
    alloc: Global,
    kind: Kind,
    at: u32,
    array: u32,
    index: Box<Value>,
) -> Result<Box<Value>, Memory>
    ensures { IfOk result (λ r. tv.value r.value ≡ t.vElement kind at array (tv.value index.value)) }
{
    Ok(Box::new(alloc, Value::Element(kind, at, array, index))?)
}

/// `++` or `--`, before its operand or behind it.
pub fn changed(
    alloc: Global,
    before: bool,
    by: Crement,
    kind: Kind,
    at: u32,
    target: Box<Target>,
) -> Result<Box<Value>, Memory>
    ensures { IfOk result (λ r. tv.value r.value ≡ t.vChange before by kind at (tv.target target.value)) }
{
    Ok(Box::new(alloc, Value::Change(before, by, kind, at, target))?)
}

/// A scalar that is assigned to.
pub fn object_target(alloc: Global, object: u32) -> Result<Box<Target>, Memory>
    ensures { IfOk result (λ r. tv.target r.value ≡ t.gObject object) }
{
    Ok(Box::new(alloc, Target::Object(object))?)
}

/// An element that is assigned to.
pub fn element_target(
    alloc: Global,
    at: u32,
    array: u32,
    index: Box<Value>,
) -> Result<Box<Target>, Memory>
    ensures { IfOk result (λ r. tv.target r.value ≡ t.gElement at array (tv.value index.value)) }
{
    Ok(Box::new(alloc, Target::Element(at, array, index))?)
}
