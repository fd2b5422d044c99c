//! Integer constants (C11 6.4.4.1) and character constants (6.4.4.4), by their text.
ghost use Rattle.std.specs.Prelude.{◌≡◌, ◌<◌, ◌≤◌, ◌^◌, ◌==◌, length, take, drop, IfSome};
ghost use Rattle.std.specs.List.{prefix_len};
ghost use Rattle.std.specs.Option.{option_map};
ghost use Rattle.c_lexer.specs.Constants.{digit_worth, is_digit_of, value_from, is_u, longs_of, suffix_of, base_of, start_of, constant_of, escape_of, letter_of, formed};

use crate::NumberForm;
use crate::bytes::{digit, plain};

// What a byte is worth as a digit, or 16.
fn worth(byte: u8) -> u8
    ensures value { result ≡ digit_worth byte }
    ensures most { result ≤ 16 }
{
    if digit(byte) {
        byte - b'0'
    } else if b'a' <= byte && byte <= b'f' {
        byte - b'a' + 10
    } else if b'A' <= byte && byte <= b'F' {
        byte - b'A' + 10
    } else {
        16
    }
}

fn digit_of(base: u8, byte: u8) -> bool
    ensures { result ≡ is_digit_of base byte }
{
    worth(byte) < base
}

fn width_of_digits(base: u8, bytes: &[u8]) -> usize
    ensures value { result ≡ prefix_len (is_digit_of base) bytes.now }
    ensures within { result ≤ length bytes.now }
{
    bytes.iter().take_while(|b| digit_of(base, **b)).count()
}

// The number that these digits spell, if it is below 2^64.
fn value_of(base: u8, digits: &[u8]) -> Option<u64>
    requires { base ≤ 16 }
    ensures { result ≡ value_from base 0 digits.now }
{
    let mut value: u64 = 0;
    for byte in digits {
        let next = value as u128 * base as u128 + worth(*byte) as u128;
        if next >= 18_446_744_073_709_551_616 {
            return None;
        }
        value = next as u64;
    }
    Some(value)
}

fn unsigned_letter(byte: u8) -> bool
    ensures { result ≡ is_u byte }
{
    byte == b'u' || byte == b'U'
}

// How many letters the length suffix at the front has.
fn longs(bytes: &[u8]) -> usize
    ensures value { result ≡ longs_of bytes.now }
    ensures most { result ≤ 2 }
    ensures within { result ≤ length bytes.now }
{
    match bytes {
        [a, b, ..] if *a == b'l' || *a == b'L' => { if *b == *a { 2 } else { 1 } }
        [a] if *a == b'l' || *a == b'L' => 1,
        _ => 0,
    }
}

// Whether a suffix has a `u`, and how many `l`.
fn suffix(text: &[u8]) -> Option<(bool, u8)>
    ensures { result ≡ suffix_of text.now }
{
    let [first, rest @ ..] = text else {
        return Some((false, 0));
    };
    if unsigned_letter(*first) {
        let count = longs(rest);
        return if count == rest.len() {
            Some((true, count as u8))
        } else {
            None
        };
    }
    let count = longs(text);
    match &text[count..] {
        [] => Some((false, count as u8)),
        [last] if unsigned_letter(*last) => Some((true, count as u8)),
        _ => None,
    }
}

fn base(text: &[u8]) -> u8
    ensures value { result ≡ base_of text.now }
    ensures most { result ≤ 16 }
{
    match text {
        [b'0', x, ..] if *x == b'x' || *x == b'X' => 16,
        [b'0', ..] => 8,
        _ => 10,
    }
}

fn form(decimal: bool, value: u64, unsigned_suffix: bool, longs: u8) -> Option<(u64, NumberForm)>
    ensures { result ≡ formed decimal value (unsigned_suffix, longs) }
{
    if decimal && !unsigned_suffix && value >= 9_223_372_036_854_775_808 {
        return None;
    }
    Some((
        value,
        NumberForm {
            decimal,
            unsigned_suffix,
            longs,
        },
    ))
}

// The value and the form of an integer constant.
pub(crate) fn constant(text: &[u8]) -> Option<(u64, NumberForm)>
    ensures { result ≡ constant_of text.now }
{
    let base = base(text);
    let start = if base == 16 { 2 } else { 0 };
    if start > text.len() {
        return None;
    }
    let end = start + width_of_digits(base, &text[start..]);
    if end == start {
        return None;
    }
    let value = value_of(base, &text[start..end])?;
    let (unsigned_suffix, longs) = suffix(&text[end..])?;
    form(base == 10, value, unsigned_suffix, longs)
}

fn escape(byte: u8) -> Option<i32>
    ensures { result ≡ escape_of byte }
{
    match byte {
        b'n' => Some(10),
        b't' => Some(9),
        b'r' => Some(13),
        b'0' => Some(0),
        b'\\' | b'\'' | b'"' => Some(byte as i32),
        _ => None,
    }
}

// The value of a character constant, quotes and all.
pub(crate) fn letter_value(text: &[u8]) -> Option<i32>
    ensures { result ≡ letter_of text.now }
{
    if text.len() == 3 && plain(text[1]) {
        return Some(text[1] as i32);
    }
    if text.len() == 4 && text[1] == b'\\' {
        return escape(text[2]);
    }
    None
}
