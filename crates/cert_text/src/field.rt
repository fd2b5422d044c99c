//! One byte more of what is read.

ghost use Rattle.std.specs.Prelude.{◌≡◌, ◌<◌, IfSome};
ghost use Rattle.cert_text.specs.Fields.{text_more, digit_more, digit_part, wide_digit_part, number_more, wide_more, hex_value, digit_of};

use crate::place::Part;

/// What a byte makes of a part.
#[derive(Clone, Copy)]
pub enum More {
    /// No spelling goes on with the byte.
    Refused,
    /// The part goes on.
    Part(Part),
    /// The words are whole.
    Text,
    /// The byte stands behind this number.
    Number(u32),
    /// The byte stands behind this value of a constant.
    Wide(u128),
}

const TENTH: u32 = 429_496_729;

const WIDE_TENTH: u128 = 34_028_236_692_093_846_346_337_460_743_176_821_145;

// The value of a decimal digit.
fn digit(byte: u8) -> Option<u8>
    ensures value { result ≡ digit_of byte }
    ensures small { IfSome result (λ d. d < 10) }
{
    if byte < b'0' || byte > b'9' {
        None
    } else {
        Some(byte - b'0')
    }
}

/// The value of a lower-case hexadecimal digit.
pub fn hex_digit(byte: u8) -> Option<u8>
    ensures value { result ≡ hex_value byte }
    ensures small { IfSome result (λ d. d < 16) }
{
    if byte >= b'0' && byte <= b'9' {
        return Some(byte - b'0');
    }
    if byte >= b'a' && byte <= b'f' {
        return Some(byte - 87);
    }
    None
}

/// A byte of words of which the first `at` bytes were read.
pub fn text_step(text: &[u8], at: usize, byte: u8) -> More
    ensures { result ≡ text_more text.now at byte }
{
    if at >= text.len() {
        return More::Refused;
    }
    if text[at] != byte {
        return More::Refused;
    }
    if at + 1 == text.len() {
        More::Text
    } else {
        More::Part(Part::Matched(at + 1))
    }
}

// A digit behind the digits of a number, which does not begin with 0.
fn longer(value: u32, digit: u8) -> Option<u32>
    requires { digit < 10 }
    ensures { result ≡ digit_more 4294967295 value digit }
{
    if value == 0 {
        return None;
    }
    if value > TENTH || (value == TENTH && digit > 5) {
        return None;
    }
    Some(value * 10 + digit as u32)
}

// A digit behind the digits of a constant's value.
fn wide_longer(wide: u128, digit: u8) -> Option<u128>
    requires { digit < 10 }
    ensures { result ≡ digit_more 340282366920938463463374607431768211455 wide digit }
{
    if wide == 0 {
        return None;
    }
    if wide > WIDE_TENTH || (wide == WIDE_TENTH && digit > 5) {
        return None;
    }
    Some(wide * 10 + digit as u128)
}

// What a digit makes of a number.
fn number_digit(part: Part, last: u8) -> More
    requires { last < 10 }
    ensures { result ≡ digit_part part last }
{
    match part {
        Part::Fresh => More::Part(Part::Digits(last as u32)),
        Part::Digits(value) => match longer(value, last) {
            None => More::Refused,
            Some(next) => More::Part(Part::Digits(next)),
        },
        _ => More::Refused,
    }
}

// What a digit makes of a constant's value.
fn wide_digit(part: Part, last: u8) -> More
    requires { last < 10 }
    ensures { result ≡ wide_digit_part part last }
{
    match part {
        Part::Fresh => More::Part(Part::WideDigits(last as u128)),
        Part::WideDigits(value) => match wide_longer(value, last) {
            None => More::Refused,
            Some(next) => More::Part(Part::WideDigits(next)),
        },
        _ => More::Refused,
    }
}

/// A byte of a number, or the one behind it.
pub fn number_step(part: Part, byte: u8) -> More
    ensures { result ≡ number_more part byte }
{
    match digit(byte) {
        Some(last) => number_digit(part, last),
        None => match part {
            Part::Digits(value) => More::Number(value),
            _ => More::Refused,
        },
    }
}

/// A byte of a constant's value, or the one behind it.
pub fn wide_step(part: Part, byte: u8) -> More
    ensures { result ≡ wide_more part byte }
{
    match digit(byte) {
        Some(last) => wide_digit(part, last),
        None => match part {
            Part::WideDigits(value) => More::Wide(value),
            _ => More::Refused,
        },
    }
}
