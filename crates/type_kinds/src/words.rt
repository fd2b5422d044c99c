ghost use Rattle.std.specs.Prelude.{◌≡◌};
ghost use Rattle.c_tree.specs.Words as wo;
ghost use Rattle.c_meaning.specs.Bindings as b;
ghost use Rattle.c_meaning.specs.Kinds as k;
ghost use Rattle.type_kinds.specs.Seen.{type_of as seen};

use crate::types::ExprType;
use c_tree::{Signedness, Size, TypeWord, Typing};
use lv_base::Kind;

fn with_signed(k: Typing) -> Option<Typing>
    ensures { result ≡ wo.with_signed k }
{
    match k {
        Typing::Untyped => Some(Typing::Basic(Signedness::Signed, Size::Unstated, false)),
        Typing::Basic(Signedness::Unstated, z, i) => {
            Some(Typing::Basic(Signedness::Signed, z, i))
        }
        _ => None,
    }
}

fn with_unsigned(k: Typing) -> Option<Typing>
    ensures { result ≡ wo.with_unsigned k }
{
    match k {
        Typing::Untyped => Some(Typing::Basic(Signedness::Unsigned, Size::Unstated, false)),
        Typing::Basic(Signedness::Unstated, z, i) => {
            Some(Typing::Basic(Signedness::Unsigned, z, i))
        }
        _ => None,
    }
}

fn with_int(k: Typing) -> Option<Typing>
    ensures { result ≡ wo.with_int k }
{
    match k {
        Typing::Untyped => Some(Typing::Basic(Signedness::Unstated, Size::Unstated, true)),
        Typing::Basic(s, Size::Unstated, false) => Some(Typing::Basic(s, Size::Unstated, true)),
        Typing::Basic(s, Size::Short, false) => Some(Typing::Basic(s, Size::Short, true)),
        Typing::Basic(s, Size::Long, false) => Some(Typing::Basic(s, Size::Long, true)),
        Typing::Basic(s, Size::LongLong, false) => Some(Typing::Basic(s, Size::LongLong, true)),
        _ => None,
    }
}

fn with_char(k: Typing) -> Option<Typing>
    ensures { result ≡ wo.with_char k }
{
    match k {
        Typing::Untyped => Some(Typing::Basic(Signedness::Unstated, Size::Char, false)),
        Typing::Basic(s, Size::Unstated, false) => Some(Typing::Basic(s, Size::Char, false)),
        _ => None,
    }
}

fn with_short(k: Typing) -> Option<Typing>
    ensures { result ≡ wo.with_short k }
{
    match k {
        Typing::Untyped => Some(Typing::Basic(Signedness::Unstated, Size::Short, false)),
        Typing::Basic(s, Size::Unstated, i) => Some(Typing::Basic(s, Size::Short, i)),
        _ => None,
    }
}

fn with_long(k: Typing) -> Option<Typing>
    ensures { result ≡ wo.with_long k }
{
    match k {
        Typing::Untyped => Some(Typing::Basic(Signedness::Unstated, Size::Long, false)),
        Typing::Basic(s, Size::Unstated, i) => Some(Typing::Basic(s, Size::Long, i)),
        Typing::Basic(s, Size::Long, i) => Some(Typing::Basic(s, Size::LongLong, i)),
        _ => None,
    }
}

fn alone(whole: Typing, k: Typing) -> Option<Typing>
    ensures { result ≡ wo.alone whole k }
{
    match k {
        Typing::Untyped => Some(whole),
        _ => None,
    }
}

/// What some type words say with one more (C11 6.7.2).
pub fn type_with(w: TypeWord, k: Typing) -> Option<Typing>
    ensures { result ≡ wo.type_with w k }
{
    match w {
        TypeWord::Void => alone(Typing::Void, k),
        TypeWord::Bool => alone(Typing::Bool, k),
        TypeWord::Char => with_char(k),
        TypeWord::Short => with_short(k),
        TypeWord::Int => with_int(k),
        TypeWord::Long => with_long(k),
        TypeWord::Signed | TypeWord::SignedAlternate => with_signed(k),
        TypeWord::Unsigned => with_unsigned(k),
    }
}

fn with_sign(sign: Signedness, signed: Kind, unsigned: Kind) -> Kind
    ensures { result ≡ k.with_sign sign signed unsigned }
{
    match sign {
        Signedness::Unsigned => unsigned,
        Signedness::Unstated => signed,
        Signedness::Signed => signed,
    }
}

/// The kind that the words of an integer type name.
pub fn words_kind(sign: Signedness, size: Size) -> Kind
    ensures { result ≡ k.words_kind sign size }
{
    match size {
        Size::Unstated => with_sign(sign, Kind::Int, Kind::UInt),
        Size::Char => with_sign(sign, Kind::Char, Kind::UChar),
        Size::Short => with_sign(sign, Kind::Short, Kind::UShort),
        Size::Long => with_sign(sign, Kind::Long, Kind::ULong),
        Size::LongLong => with_sign(sign, Kind::LongLong, Kind::ULongLong),
    }
}

/// The type that type words name; a typedef name or an enumeration is none of them.
pub fn typing_type<'a>(typing: Typing) -> ExprType<'a>
    ensures { seen result ≡ b.typing_type typing }
{
    match typing {
        Typing::Void => ExprType::Void,
        Typing::Bool => ExprType::Kind(Kind::Bool),
        Typing::Basic(sign, size, _) => ExprType::Kind(words_kind(sign, size)),
        Typing::Untyped => ExprType::None,
        Typing::Named => ExprType::None,
    }
}
