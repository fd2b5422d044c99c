//! Bytes of a source as text: one byte for each, so that columns stay.
ghost use Rattle.std.specs.Prelude.{◌≡◌, ◌≤◌, length, take, drop, IfOk, option_map, string_bytes};
ghost use Rattle.std.specs.List.{prefix_len, suffix_len};
ghost use Rattle.trace_lines.specs.Excerpts as text;

use lv_base::{Memory, Place, place_of};
use std::alloc::Global;
use trace_texts::caret;

// The longest source, in bytes.
const MOST_SOURCE: usize = 1_048_576;

// How many bytes of a line are shown before the mark, and behind it.
const SHOWN_BESIDE: usize = 100;

/// Which bytes are counted.
#[derive(Clone, Copy)]
pub(crate) enum Class {
    /// Blanks, tabs, and what ends lines and pages.
    Blank,
    /// Those of a name.
    Name,
    /// Those of one line.
    Line,
}

fn is_in_order(first: usize, second: usize, third: usize) -> bool
    ensures { result ≡ text.is_in_order first second third }
{
    first <= second && second <= third
}

fn is_from(first: u8, byte: u8, last: u8) -> bool
    ensures { result ≡ text.is_in_order first byte last }
{
    first <= byte && byte <= last
}

fn is_blank(byte: u8) -> bool
    ensures { result ≡ text.is_blank byte }
{
    byte == b' ' || is_from(9, byte, 13)
}

fn is_letter(byte: u8) -> bool
    ensures { result ≡ text.is_letter byte }
{
    is_from(b'A', byte, b'Z') || is_from(b'a', byte, b'z')
}

fn is_in_name(byte: u8) -> bool
    ensures { result ≡ text.is_in_name byte }
{
    is_letter(byte) || (is_from(b'0', byte, b'9') || byte == b'_')
}

fn is_of(class: Class, byte: u8) -> bool
    ensures { result ≡ text.is_of class byte }
{
    match class {
        Class::Blank => is_blank(byte),
        Class::Name => is_in_name(byte),
        Class::Line => !(byte == b'\n'),
    }
}

// How many bytes at the front are of a class.
#[tactic(auto, using(crate::proofs::Lists::prefix_more, crate::proofs::Lists::prefix_past))]
pub(crate) fn front_count(class: Class, bytes: &[u8]) -> usize
    ensures count { result ≡ prefix_len (text.is_of class) bytes.now }
    ensures low { result ≤ length bytes.now }
{
    let mut count = 0usize;
    'bytes: while count < bytes.len() {
        if !is_of(class, bytes[count]) {
            return count;
        }
        count += 1;
    }
    count
}

// How many bytes at the end are of a class.
#[tactic(auto, using(crate::proofs::Lists::suffix_last, crate::proofs::Lists::suffix_none, std::proofs::lemmas::List::take_all))]
pub(crate) fn back_count(class: Class, bytes: &[u8]) -> usize
    ensures count { result ≡ suffix_len (text.is_of class) bytes.now }
    ensures low { result ≤ length bytes.now }
{
    let mut left = bytes.len();
    'bytes: while left > 0 {
        if !is_of(class, bytes[left - 1]) {
            return bytes.len() - left;
        }
        left -= 1;
    }
    bytes.len()
}

/// What stands from an offset on; nothing behind the source's end.
pub(crate) fn behind(source: &[u8], from: usize) -> &[u8]
    ensures { result.now ≡ drop from source.entry.now }
{
    if from <= source.len() {
        &source[from..]
    } else {
        &[]
    }
}

/// What stands before an offset.
pub(crate) fn before(source: &[u8], to: usize) -> &[u8]
    ensures { result.now ≡ take to source.entry.now }
{
    if to <= source.len() {
        &source[..to]
    } else {
        source
    }
}

/// What stands from one offset up to another.
pub(crate) fn range_of(source: &[u8], from: usize, to: usize) -> &[u8]
    ensures { result.now ≡ text.range_of source.entry.now from to }
{
    before(behind(source, from), to.saturating_sub(from))
}

/// The name at the front.
pub(crate) fn name_in(bytes: &[u8]) -> &[u8]
    ensures { result.now ≡ text.name_in bytes.entry.now }
{
    before(bytes, front_count(Class::Name, bytes))
}

fn trimmed(bytes: &[u8]) -> &[u8]
    ensures { result.now ≡ text.trimmed bytes.entry.now }
{
    bytes.trim_ascii()
}

/// What stands from one offset up to another, without blanks around it; nothing where it isn't in the source.
pub(crate) fn between(source: &[u8], from: usize, to: usize) -> &[u8]
    ensures { result.now ≡ text.between source.entry.now from to }
{
    if is_in_order(from, to, source.len()) {
        trimmed(range_of(source, from, to))
    } else {
        &[]
    }
}

fn shown_byte(byte: u8) -> u8
    ensures { result ≡ text.shown_byte byte }
{
    if is_from(b' ', byte, b'~') {
        byte
    } else if is_blank(byte) {
        b' '
    } else {
        b'?'
    }
}

/// These bytes as text, one for each: printable ones as they are, blanks as one, and question marks for the others.
///
/// Fails with `Memory`.
#[tactic(auto, using(crate::proofs::Lists::shown_more, crate::proofs::Lists::shown_ascii, std::proofs::lemmas::List::take_all))]
pub(crate) fn shown(alloc: Global, bytes: &[u8]) -> Result<String, Memory>
    ensures { IfOk result (λ s. string_bytes s ≡ text.shown bytes.now) }
{
    let mut text = String::new(alloc);
    for byte in bytes {
        text.push(char::from(shown_byte(*byte)))?;
    }
    Ok(text)
}

// Whether an offset is one of the source, or its end.
fn is_within(source: &[u8], at: usize) -> bool
    ensures { result ≡ text.is_within source.now at }
{
    is_in_order(at, source.len(), MOST_SOURCE)
}

/// The place of an offset; none behind a source's end.
pub(crate) fn place_in(source: &[u8], at: usize) -> Option<Place>
    ensures { result ≡ text.place_in source.now at }
{
    if is_within(source, at) {
        Some(place_of(source, at))
    } else {
        None
    }
}

// The last bytes of the line that these bytes end in.
fn last_line(bytes: &[u8]) -> &[u8]
    ensures { result.now ≡ text.last_line bytes.entry.now }
{
    let count = back_count(Class::Line, bytes).min(SHOWN_BESIDE);
    behind(bytes, bytes.len().saturating_sub(count))
}

// The first bytes of the line that these bytes begin in.
fn first_line(bytes: &[u8]) -> &[u8]
    ensures { result.now ≡ text.first_line bytes.entry.now }
{
    before(bytes, front_count(Class::Line, bytes).min(SHOWN_BESIDE))
}

fn mark_at(alloc: Global, source: &[u8], at: usize) -> Result<String, Memory>
    ensures { IfOk result (λ s. string_bytes s ≡ text.mark_at source.now at) }
{
    let front = last_line(before(source, at));
    let back = first_line(behind(source, at));
    let mut text = shown(alloc, front)?;
    text.push_str(shown(alloc, back)?.as_str())?;
    text.push_str("\n")?;
    text.push_str(caret(alloc, front.len())?.as_str())?;
    Ok(text)
}

/// The source's line around an offset, and a mark below that byte; nothing behind the source's end.
///
/// Fails with `Memory`.
pub(crate) fn mark(alloc: Global, source: &[u8], at: u32) -> Result<String, Memory>
    ensures { IfOk result (λ s. string_bytes s ≡ text.mark source.now at) }
{
    let at = at as usize;
    if is_within(source, at) {
        mark_at(alloc, source, at)
    } else {
        Ok(String::new(alloc))
    }
}
