ghost use Rattle.std.specs.Prelude.{◌≡◌, ◌<◌, ◌≤◌, ◌^◌, ◌-◌, ◌↔◌, IsTrue, pos};
ghost use Rattle.lv_base.specs.Integers.{width_of, is_signed, least_of, greatest_of, is_in_range, InRange};

use lv_base::{Kind, Model};

/// Whether the kind is signed; plain `char` is.
pub fn signed(kind: Kind) -> bool
    ensures { result ≡ is_signed kind }
{
    matches!(
        kind,
        Kind::Char | Kind::Short | Kind::Int | Kind::Long | Kind::LongLong
    )
}

// A match of one level whose arms are numbers of 64 bits becomes a look-up in a table: so the model is first, and each kind
// has its arm in both.

/// The number whose bits, as many as the kind has, are all 1.
pub fn ones(kind: Kind, model: Model) -> u64
    ensures { result ≡ 2 ^ width_of kind model - 1 }
{
    match model {
        Model::Ilp32 => match kind {
            Kind::Bool => 0x1,
            Kind::Char | Kind::UChar => 0xFF,
            Kind::Short | Kind::UShort => 0xFFFF,
            Kind::Int | Kind::UInt | Kind::Long | Kind::ULong => 0xFFFF_FFFF,
            Kind::LongLong | Kind::ULongLong => 0xFFFF_FFFF_FFFF_FFFF,
        },
        Model::Lp64 => match kind {
            Kind::Bool => 0x1,
            Kind::Char | Kind::UChar => 0xFF,
            Kind::Short | Kind::UShort => 0xFFFF,
            Kind::Int | Kind::UInt => 0xFFFF_FFFF,
            Kind::Long | Kind::ULong => 0xFFFF_FFFF_FFFF_FFFF,
            Kind::LongLong | Kind::ULongLong => 0xFFFF_FFFF_FFFF_FFFF,
        },
    }
}

/// The number whose highest bit alone is 1.
pub fn highest(kind: Kind, model: Model) -> u64
    ensures { result ≡ 2 ^ (width_of kind model - 1) }
{
    match model {
        Model::Ilp32 => match kind {
            Kind::Bool => 0x1,
            Kind::Char | Kind::UChar => 0x80,
            Kind::Short | Kind::UShort => 0x8000,
            Kind::Int | Kind::UInt | Kind::Long | Kind::ULong => 0x8000_0000,
            Kind::LongLong | Kind::ULongLong => 0x8000_0000_0000_0000,
        },
        Model::Lp64 => match kind {
            Kind::Bool => 0x1,
            Kind::Char | Kind::UChar => 0x80,
            Kind::Short | Kind::UShort => 0x8000,
            Kind::Int | Kind::UInt => 0x8000_0000,
            Kind::Long | Kind::ULong => 0x8000_0000_0000_0000,
            Kind::LongLong | Kind::ULongLong => 0x8000_0000_0000_0000,
        },
    }
}

/// The least value of a kind.
#[inline(always)]
pub fn least(kind: Kind, model: Model) -> i64
    ensures { result ≡ least_of kind model }
{
    match model {
        Model::Ilp32 => match kind {
            Kind::Bool | Kind::UChar | Kind::UShort => 0,
            Kind::UInt | Kind::ULong | Kind::ULongLong => 0,
            Kind::Char => -128,
            Kind::Short => -32_768,
            Kind::Int | Kind::Long => -2_147_483_648,
            Kind::LongLong => -9_223_372_036_854_775_808,
        },
        Model::Lp64 => match kind {
            Kind::Bool | Kind::UChar | Kind::UShort => 0,
            Kind::UInt | Kind::ULong | Kind::ULongLong => 0,
            Kind::Char => -128,
            Kind::Short => -32_768,
            Kind::Int => -2_147_483_648,
            Kind::Long | Kind::LongLong => -9_223_372_036_854_775_808,
        },
    }
}

/// The greatest value of a kind.
#[inline(always)]
pub fn greatest(kind: Kind, model: Model) -> u64
    ensures { pos result ≡ greatest_of kind model }
{
    match model {
        Model::Ilp32 => match kind {
            Kind::Bool => 1,
            Kind::Char => 127,
            Kind::UChar => 255,
            Kind::Short => 32_767,
            Kind::UShort => 65_535,
            Kind::Int | Kind::Long => 2_147_483_647,
            Kind::UInt | Kind::ULong => 4_294_967_295,
            Kind::LongLong => 9_223_372_036_854_775_807,
            Kind::ULongLong => 18_446_744_073_709_551_615,
        },
        Model::Lp64 => match kind {
            Kind::Bool => 1,
            Kind::Char => 127,
            Kind::UChar => 255,
            Kind::Short => 32_767,
            Kind::UShort => 65_535,
            Kind::Int => 2_147_483_647,
            Kind::UInt => 4_294_967_295,
            Kind::Long | Kind::LongLong => 9_223_372_036_854_775_807,
            Kind::ULong | Kind::ULongLong => 18_446_744_073_709_551_615,
        },
    }
}

/// Whether a value is one of the kind's.
#[inline(always)]
pub fn in_range(kind: Kind, model: Model, value: i128) -> bool
    ensures test { result ≡ is_in_range kind model value }
    ensures range { IsTrue result ↔ InRange kind model value }
{
    least(kind, model) as i128 <= value && value <= greatest(kind, model) as i128
}
