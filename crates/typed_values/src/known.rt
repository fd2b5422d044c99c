ghost use Rattle.std.specs.Prelude.{◌≡◌};
ghost use Rattle.c_meaning.specs.Known as k;
ghost use Rattle.typed_values.specs.Made as made;

use lv_base::Kind;

/// What a function without a body means: it reaches the error, ends the run, or draws the next input, a value of a kind.
#[derive(Clone, Copy, PartialEq, Eq)]
pub enum Known {
    Reaches,
    Aborts,
    Draws(Kind),
}

// The functions that draw a kind of at most 16 bits, or what `other` says.
fn small_draw(name: &[u8], other: Option<Known>) -> Option<Known>
    ensures { made.some_known result ≡ made.small_draw name.now (made.some_known other) }
{
    if b"__VERIFIER_nondet_bool".as_slice() == name {
        return Some(Known::Draws(Kind::Bool));
    }
    if b"__VERIFIER_nondet_char".as_slice() == name {
        return Some(Known::Draws(Kind::Char));
    }
    if b"__VERIFIER_nondet_uchar".as_slice() == name {
        return Some(Known::Draws(Kind::UChar));
    }
    if b"__VERIFIER_nondet_short".as_slice() == name {
        return Some(Known::Draws(Kind::Short));
    }
    if b"__VERIFIER_nondet_ushort".as_slice() == name {
        return Some(Known::Draws(Kind::UShort));
    }
    other
}

// The functions that draw a kind of 32 bits or more.
fn large_draw(name: &[u8]) -> Option<Known>
    ensures { made.some_known result ≡ made.large_draw name.now }
{
    if b"__VERIFIER_nondet_int".as_slice() == name {
        return Some(Known::Draws(Kind::Int));
    }
    if b"__VERIFIER_nondet_uint".as_slice() == name {
        return Some(Known::Draws(Kind::UInt));
    }
    if b"__VERIFIER_nondet_unsigned".as_slice() == name {
        return Some(Known::Draws(Kind::UInt));
    }
    if b"__VERIFIER_nondet_long".as_slice() == name {
        return Some(Known::Draws(Kind::Long));
    }
    if b"__VERIFIER_nondet_ulong".as_slice() == name {
        return Some(Known::Draws(Kind::ULong));
    }
    if b"__VERIFIER_nondet_longlong".as_slice() == name {
        return Some(Known::Draws(Kind::LongLong));
    }
    if b"__VERIFIER_nondet_ulonglong".as_slice() == name {
        return Some(Known::Draws(Kind::ULongLong));
    }
    None
}

fn known_by(name: &[u8]) -> Option<Known>
    ensures { made.some_known result ≡ made.known_by name.now }
{
    if b"reach_error".as_slice() == name {
        return Some(Known::Reaches);
    }
    if b"abort".as_slice() == name {
        return Some(Known::Aborts);
    }
    small_draw(name, large_draw(name))
}

/// What a function of this name means without a body.
pub fn known_of(name: &[u8]) -> Option<Known>
    ensures { made.some_known result ≡ k.known_of name.now }
{
    known_by(name)
}
