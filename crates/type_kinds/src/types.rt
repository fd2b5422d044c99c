ghost use Rattle.std.specs.Prelude.{◌≡◌, ◌*◌, ◌≤◌, pos, nat_eq};
ghost use Rattle.c_meaning.specs.Bindings as b;
ghost use Rattle.c_meaning.specs.Kinds as k;
ghost use Rattle.c_meaning.specs.Types as ty;
ghost use Rattle.type_kinds.specs.Seen.{type_of as seen};

use crate::kinds::{common, promoted};
use crate::operations::result_kind;
use c_tree::{BinaryOp, PrefixOp};
use lv_base::{Kind, Model, width};

/// The type of an expression: a kind, void, an array with its elements' kind and its length, or a function with its
/// result and its parameters. `None` is that of an expression to which the rules give no type.
#[derive(Clone, Copy)]
pub enum ExprType<'a> {
    Kind(Kind),
    Void,
    Array(Kind, u64),
    Function(Option<Kind>, &'a [Kind]),
    None,
}

/// The type of an operation on operands of these types.
pub fn binary_type<'a>(model: Model, op: BinaryOp, a: ExprType<'a>, b: ExprType<'a>) -> ExprType<'a>
    ensures { seen result ≡ ty.binary_type model op (seen a.entry) (seen b.entry) }
{
    match a {
        ExprType::Kind(k) => match b {
            ExprType::Kind(l) => ExprType::Kind(result_kind(model, op, k, l)),
            ExprType::Void => ExprType::None,
            ExprType::Array(_, _) => ExprType::None,
            ExprType::Function(_, _) => ExprType::None,
            ExprType::None => ExprType::None,
        },
        ExprType::Void => ExprType::None,
        ExprType::Array(_, _) => ExprType::None,
        ExprType::Function(_, _) => ExprType::None,
        ExprType::None => ExprType::None,
    }
}

fn promoted_type<'a>(operand: ExprType<'a>) -> ExprType<'a>
    ensures { seen result ≡ ty.promoted_type (seen operand.entry) }
{
    match operand {
        ExprType::Kind(k) => ExprType::Kind(promoted(k)),
        ExprType::Void => ExprType::None,
        ExprType::Array(_, _) => ExprType::None,
        ExprType::Function(_, _) => ExprType::None,
        ExprType::None => ExprType::None,
    }
}

/// The type of a prefix operator on an operand of this type.
pub fn prefix_type<'a>(model: Model, op: PrefixOp, operand: ExprType<'a>) -> ExprType<'a>
    ensures { seen result ≡ ty.prefix_type model op (seen operand.entry) }
{
    match op {
        PrefixOp::Increment => operand,
        PrefixOp::Decrement => operand,
        PrefixOp::Plus => promoted_type(operand),
        PrefixOp::Minus => promoted_type(operand),
        PrefixOp::Complement => promoted_type(operand),
        PrefixOp::Not => ExprType::Kind(Kind::Int),
        PrefixOp::Extension => operand,
        PrefixOp::Sizeof => ExprType::Kind(size_kind(model)),
    }
}

/// The type of `?:` with arms of these types.
pub fn arms_type<'a>(model: Model, a: ExprType<'a>, b: ExprType<'a>) -> ExprType<'a>
    ensures { seen result ≡ ty.arms_type model (seen a.entry) (seen b.entry) }
{
    match a {
        ExprType::Kind(k) => match b {
            ExprType::Kind(l) => ExprType::Kind(common(model, k, l)),
            ExprType::Void => ExprType::None,
            ExprType::Array(_, _) => ExprType::None,
            ExprType::Function(_, _) => ExprType::None,
            ExprType::None => ExprType::None,
        },
        ExprType::Void => match b {
            ExprType::Kind(_) => ExprType::None,
            ExprType::Void => ExprType::Void,
            ExprType::Array(_, _) => ExprType::None,
            ExprType::Function(_, _) => ExprType::None,
            ExprType::None => ExprType::None,
        },
        ExprType::Array(_, _) => ExprType::None,
        ExprType::Function(_, _) => ExprType::None,
        ExprType::None => ExprType::None,
    }
}

/// The type of an element of an expression of this type.
pub fn element_type<'a>(array: ExprType<'a>) -> ExprType<'a>
    ensures { seen result ≡ ty.element_type (seen array.entry) }
{
    match array {
        ExprType::Array(k, _) => ExprType::Kind(k),
        ExprType::Kind(_) => ExprType::None,
        ExprType::Void => ExprType::None,
        ExprType::Function(_, _) => ExprType::None,
        ExprType::None => ExprType::None,
    }
}

/// The type of a function's result; none is void.
pub fn result_type<'a>(result_kind: Option<Kind>) -> ExprType<'a>
    ensures { seen result ≡ k.result_type result_kind }
{
    match result_kind {
        None => ExprType::Void,
        Some(k) => ExprType::Kind(k),
    }
}

/// The type of a call of an expression of this type.
pub fn called_type<'a>(function: ExprType<'a>) -> ExprType<'a>
    ensures { seen result ≡ ty.called_type (seen function.entry) }
{
    match function {
        ExprType::Function(result_kind, _) => result_type(result_kind),
        ExprType::Kind(_) => ExprType::None,
        ExprType::Void => ExprType::None,
        ExprType::Array(_, _) => ExprType::None,
        ExprType::None => ExprType::None,
    }
}

/// The kind of a type that has values, and `int` of any other.
pub fn kind_of(of: ExprType<'_>) -> Kind
    ensures { result ≡ k.kind_of (seen of.entry) }
{
    match of {
        ExprType::Kind(k) => k,
        ExprType::Array(k, _) => k,
        ExprType::Void => Kind::Int,
        ExprType::Function(_, _) => Kind::Int,
        ExprType::None => Kind::Int,
    }
}

/// The kind of a type that is one.
pub fn kind_in(of: ExprType<'_>) -> Option<Kind>
    ensures { result ≡ b.kind_in (seen of.entry) }
{
    match of {
        ExprType::Kind(k) => Some(k),
        ExprType::Array(_, _) => None,
        ExprType::Void => None,
        ExprType::Function(_, _) => None,
        ExprType::None => None,
    }
}

/// The kind of a type that is one, and `int` of any other.
pub fn kind_or_int(of: ExprType<'_>) -> Kind
    ensures { result ≡ b.kind_or_int (seen of.entry) }
{
    match of {
        ExprType::Kind(k) => k,
        ExprType::Array(_, _) => Kind::Int,
        ExprType::Void => Kind::Int,
        ExprType::Function(_, _) => Kind::Int,
        ExprType::None => Kind::Int,
    }
}

/// Whether a type is a kind, so that its expression has a value.
pub fn is_kind(of: ExprType<'_>) -> bool
    ensures { result ≡ k.is_kind (seen of.entry) }
{
    match of {
        ExprType::Kind(_) => true,
        ExprType::Array(_, _) => false,
        ExprType::Void => false,
        ExprType::Function(_, _) => false,
        ExprType::None => false,
    }
}

/// Whether a type is an array.
pub fn is_array(of: ExprType<'_>) -> bool
    ensures { result ≡ k.is_array (seen of.entry) }
{
    match of {
        ExprType::Array(_, _) => true,
        ExprType::Kind(_) => false,
        ExprType::Void => false,
        ExprType::Function(_, _) => false,
        ExprType::None => false,
    }
}

/// Whether a type is void.
pub fn is_void(of: ExprType<'_>) -> bool
    ensures { result ≡ k.is_void (seen of.entry) }
{
    match of {
        ExprType::Void => true,
        ExprType::Kind(_) => false,
        ExprType::Array(_, _) => false,
        ExprType::Function(_, _) => false,
        ExprType::None => false,
    }
}

/// The bytes of a kind; `_Bool` has one (C11 6.5.3.4).
pub fn bytes_of(kind: Kind, model: Model) -> u32
    ensures bytes { result ≡ k.bytes_of kind model }
    ensures most { result ≤ 8 }
{
    match kind {
        Kind::Bool => 1,
        Kind::Char => 1,
        Kind::UChar => 1,
        Kind::Short => 2,
        Kind::UShort => 2,
        Kind::Int => 4,
        Kind::UInt => 4,
        Kind::Long => width(Kind::Long, model) / 8,
        Kind::ULong => width(Kind::ULong, model) / 8,
        Kind::LongLong => 8,
        Kind::ULongLong => 8,
    }
}

/// The kind of what `sizeof` gives.
pub fn size_kind(model: Model) -> Kind
    ensures { result ≡ k.size_kind model }
{
    match model {
        Model::Ilp32 => Kind::UInt,
        Model::Lp64 => Kind::ULong,
    }
}

/// The bytes of a type; void and functions have none.
pub fn size_of(model: Model, of: ExprType<'_>) -> u128
    ensures size { result ≡ k.size_of model (seen of.entry) }
    ensures most { result ≤ 8 * (18446744073709551615) }
{
    match of {
        ExprType::Kind(k) => bytes_of(k, model) as u128,
        ExprType::Array(k, length) => (length as u128) * (bytes_of(k, model) as u128),
        ExprType::Void => 0,
        ExprType::Function(_, _) => 0,
        ExprType::None => 0,
    }
}
