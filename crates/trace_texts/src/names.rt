ghost use Rattle.std.specs.Prelude.{◌≡◌};
ghost use Rattle.trace_texts.specs.Names as names;

use c_tree::{BinaryOp, Crement};
use lv_base::Kind;

/// A kind as C spells it (C11 6.7.2).
pub fn kind_text(kind: Kind) -> &'static str
    ensures { result.now ≡ names.kind_text kind }
{
    match kind {
        Kind::Bool => "_Bool",
        Kind::Char => "char",
        Kind::UChar => "unsigned char",
        Kind::Short => "short",
        Kind::UShort => "unsigned short",
        Kind::Int => "int",
        Kind::UInt => "unsigned int",
        Kind::Long => "long",
        Kind::ULong => "unsigned long",
        Kind::LongLong => "long long",
        Kind::ULongLong => "unsigned long long",
    }
}

/// An operator of two operands as C spells it.
pub fn operator_text(op: BinaryOp) -> &'static str
    ensures { result.now ≡ names.operator_text op }
{
    match op {
        BinaryOp::OrElse => "||",
        BinaryOp::AndAlso => "&&",
        BinaryOp::BitOr => "|",
        BinaryOp::BitXor => "^",
        BinaryOp::BitAnd => "&",
        BinaryOp::Equal => "==",
        BinaryOp::NotEqual => "!=",
        BinaryOp::Less => "<",
        BinaryOp::Greater => ">",
        BinaryOp::LessEqual => "<=",
        BinaryOp::GreaterEqual => ">=",
        BinaryOp::ShiftLeft => "<<",
        BinaryOp::ShiftRight => ">>",
        BinaryOp::Add => "+",
        BinaryOp::Subtract => "-",
        BinaryOp::Multiply => "*",
        BinaryOp::Divide => "/",
        BinaryOp::Remainder => "%",
    }
}

/// `++` or `--`.
pub fn crement_text(by: Crement) -> &'static str
    ensures { result.now ≡ names.crement_text by }
{
    match by {
        Crement::Increment => "++",
        Crement::Decrement => "--",
    }
}
