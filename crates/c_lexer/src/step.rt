//! What stands first in the rest of a source: something to skip, a token, or a fault.
ghost use Rattle.std.specs.Prelude.{◌≡◌, ◌<◌, ◌≤◌, length, drop, slice_index, true, false, IfOk};
ghost use Rattle.std.specs.List.{prefix_len};
ghost use Rattle.c_lexer.specs.Bytes.{is_letter};
ghost use Rattle.c_lexer.specs.Steps.{word_step, number_step, string_step, letter_step, is_gap, is_marker_word, is_marker, marker_step, comment_step_of, mark_step, begins_number, symbol_step, step_of, FitsIn};
ghost use Rattle.c_lexer.specs.Scan.{comment_end};

use crate::TokenKind;
use crate::bytes::{blank, digit, indent, letter};
use crate::constant::{constant, letter_value};
use crate::mark::{one_byte_mark, three_byte_mark, two_byte_mark};
use crate::scan::{
    width_of_closed, width_of_comment, width_of_line, width_of_number, width_of_word,
};
use lv_base::{Memory, SourceFault, Text};
use std::alloc::Global;

const LINE_END: u8 = 0x0A;

// A skip says whether blanks alone stand before what follows in its line.
pub(crate) enum Step {
    Skip(usize, bool),
    Token(TokenKind, usize),
    Fault(SourceFault),
}

// The first step in the rest of a source, where `fresh` says whether blanks alone stand before it in its line.
pub(crate) fn first_step(alloc: Global, fresh: bool, rest: &[u8]) -> Result<Step, Memory>
    requires { 0 < length rest.now }
    ensures value { IfOk result (λ s. s ≡ step_of fresh rest.now) }
    ensures fits { IfOk result (FitsIn rest.now) }
{
    let first = rest[0];
    if blank(first) {
        return Ok(Step::Skip(1, first == LINE_END || (fresh && indent(first))));
    }
    if letter(first) {
        return word(alloc, rest);
    }
    if starts_number(first, byte_at(rest, 1)) {
        return Ok(number(rest));
    }
    Ok(symbol(fresh, rest))
}

// Whether a number of the preprocessor begins with these bytes.
fn starts_number(first: u8, second: u8) -> bool
    ensures { result ≡ begins_number first second }
{
    digit(first) || (first == b'.' && digit(second))
}

// The step where neither a blank nor a word nor a number stands first.
fn symbol(fresh: bool, rest: &[u8]) -> Step
    requires { 0 < length rest.now }
    ensures value { result ≡ symbol_step fresh rest.now }
    ensures fits { FitsIn rest.now result }
{
    let second = byte_at(rest, 1);
    match rest[0] {
        b'"' => string(rest),
        b'\'' => character(rest),
        b'#' => marker(fresh, rest),
        b'/' if second == b'*' => comment(rest),
        b'/' if second == b'/' => Step::Skip(width_of_line(rest), false),
        _ => mark(rest),
    }
}

// The byte at an index, 0 behind the end.
fn byte_at(bytes: &[u8], at: usize) -> u8
    ensures { result ≡ slice_index bytes.now at }
{
    if at < bytes.len() { bytes[at] } else { 0 }
}

fn word(alloc: Global, rest: &[u8]) -> Result<Step, Memory>
    requires { is_letter (slice_index rest.now 0) ≡ true }
    ensures value { IfOk result (λ s. s ≡ word_step rest.now) }
    ensures fits { IfOk result (FitsIn rest.now) }
{
    let width = width_of_word(rest);
    let text = Text::copy_of(alloc, &rest[..width])?;
    Ok(Step::Token(TokenKind::Word(text), width))
}

fn number(rest: &[u8]) -> Step
    requires { 0 < length rest.now }
    ensures value { result ≡ number_step rest.now }
    ensures fits { FitsIn rest.now result }
{
    let width = width_of_number(rest[0], &rest[1..]);
    match constant(&rest[..width]) {
        Some((value, form)) => Step::Token(TokenKind::Number(value, form), width),
        None => Step::Fault(SourceFault::BadNumber),
    }
}

fn string(rest: &[u8]) -> Step
    requires { 0 < length rest.now }
    ensures value { result ≡ string_step rest.now }
    ensures fits { FitsIn rest.now result }
{
    match width_of_closed(b'"', &rest[1..]) {
        Some(width) => Step::Token(TokenKind::Str, width + 1),
        None => Step::Fault(SourceFault::Unclosed),
    }
}

fn character(rest: &[u8]) -> Step
    requires { 0 < length rest.now }
    ensures value { result ≡ letter_step rest.now }
    ensures fits { FitsIn rest.now result }
{
    let Some(width) = width_of_closed(b'\'', &rest[1..]) else {
        return Step::Fault(SourceFault::Unclosed);
    };
    match letter_value(&rest[..width + 1]) {
        Some(value) => Step::Token(TokenKind::Letter(value), width + 1),
        None => Step::Fault(SourceFault::BadNumber),
    }
}

fn gap(byte: u8) -> bool
    ensures { result ≡ is_gap byte }
{
    blank(byte) && byte != LINE_END
}

fn width_of_gap(bytes: &[u8]) -> usize
    ensures value { result ≡ prefix_len is_gap bytes.now }
    ensures within { result ≤ length bytes.now }
{
    bytes.iter().take_while(|b| gap(**b)).count()
}

// Whether a marker line goes on so after its `#` and blanks.
fn goes_on_as_marker(bytes: &[u8]) -> bool
    ensures { result ≡ is_marker bytes.now }
{
    let Some(first) = bytes.first() else {
        return true;
    };
    if *first == LINE_END || digit(*first) {
        return true;
    }
    marker_word(&bytes[..width_of_word(bytes)])
}

fn marker_word(word: &[u8]) -> bool
    ensures { result ≡ is_marker_word word.now }
{
    word == b"line".as_slice() || word == b"pragma".as_slice() || word == b"ident".as_slice()
}

fn marker(fresh: bool, rest: &[u8]) -> Step
    requires { slice_index rest.now 0 ≡ 35 }
    ensures value { result ≡ marker_step fresh rest.now }
    ensures fits { FitsIn rest.now result }
{
    if !fresh {
        return Step::Fault(SourceFault::BadByte);
    }
    let line = &rest[1..];
    if goes_on_as_marker(&line[width_of_gap(line)..]) {
        Step::Skip(width_of_line(rest), false)
    } else {
        Step::Fault(SourceFault::Directive)
    }
}

fn comment(rest: &[u8]) -> Step
    requires { 1 < length rest.now }
    ensures value { result ≡ comment_step_of (comment_end false 0 (drop 2 rest.now)) }
    ensures fits { FitsIn rest.now result }
{
    match width_of_comment(&rest[2..]) {
        Some(width) => Step::Skip(width + 2, false),
        None => Step::Fault(SourceFault::Unclosed),
    }
}

fn mark(rest: &[u8]) -> Step
    requires { 0 < length rest.now }
    ensures value { result ≡ mark_step rest.now }
    ensures fits { FitsIn rest.now result }
{
    let (first, second, third) = (rest[0], byte_at(rest, 1), byte_at(rest, 2));
    if let Some(mark) = three_byte_mark(first, second, third) {
        return Step::Token(TokenKind::Mark(mark), 3);
    }
    if let Some(mark) = two_byte_mark(first, second) {
        return Step::Token(TokenKind::Mark(mark), 2);
    }
    match one_byte_mark(first) {
        Some(mark) => Step::Token(TokenKind::Mark(mark), 1),
        None => Step::Fault(SourceFault::BadByte),
    }
}
