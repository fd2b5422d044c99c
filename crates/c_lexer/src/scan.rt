//! How far a word, a number, a string, a comment or a line goes from its first byte on.
ghost use Rattle.std.specs.Prelude.{◌≡◌, ◌<◌, ◌≤◌, ◌+◌, length, false, IfSome};
ghost use Rattle.std.specs.List.{prefix_len};
ghost use Rattle.c_lexer.specs.Scan.{word_width, line_width, number_from, closed_at, comment_end};

use crate::bytes::{number_goes_on, word_byte};

const LINE_END: u8 = 0x0A;

pub(crate) fn width_of_word(bytes: &[u8]) -> usize
    ensures value { result ≡ word_width bytes.now }
    ensures within { result ≤ length bytes.now }
{
    bytes.iter().take_while(|b| word_byte(**b)).count()
}

pub(crate) fn width_of_line(bytes: &[u8]) -> usize
    ensures value { result ≡ line_width bytes.now }
    ensures within { result ≤ length bytes.now }
{
    bytes.iter().take_while(|b| **b != LINE_END).count()
}

// The width of a number of the preprocessor whose first byte is `before` and whose other bytes begin these.
pub(crate) fn width_of_number(before: u8, bytes: &[u8]) -> usize
    ensures value { result ≡ number_from 1 before bytes.now }
    ensures some { 0 < result }
    ensures within { result ≤ length bytes.now + 1 }
{
    let mut last = before;
    for (i, byte) in bytes.iter().enumerate() {
        if !number_goes_on(last, *byte) {
            return i + 1;
        }
        last = *byte;
    }
    bytes.len() + 1
}

// The bytes behind an opening quote through the closing one, if the line has it.
pub(crate) fn width_of_closed(quote: u8, bytes: &[u8]) -> Option<usize>
    ensures value { result ≡ closed_at quote false 0 bytes.now }
    ensures within { IfSome result (λ n. n ≤ length bytes.now) }
{
    let mut escaped = false;
    for (i, byte) in bytes.iter().enumerate() {
        if *byte == LINE_END {
            return None;
        }
        if escaped {
            escaped = false;
        } else if *byte == quote {
            return Some(i + 1);
        } else {
            escaped = *byte == b'\\';
        }
    }
    None
}

// The bytes behind the two that open a comment through the two that close it, if the source has them.
pub(crate) fn width_of_comment(bytes: &[u8]) -> Option<usize>
    ensures value { result ≡ comment_end false 0 bytes.now }
    ensures within { IfSome result (λ n. n ≤ length bytes.now) }
{
    let mut star = false;
    for (i, byte) in bytes.iter().enumerate() {
        if star && *byte == b'/' {
            return Some(i + 1);
        }
        star = *byte == b'*';
    }
    None
}
