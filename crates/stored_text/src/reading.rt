//! Reads run files.

ghost use Rattle.std.specs.Prelude.{◌≡◌, ◌⊎◌, ◌≤◌, length, [], None, Ok, Err, MatchResult};
ghost use Rattle.stored_text.specs.declared.StoredFail.{StoredFail};
ghost use Rattle.stored_text.specs.Line.{fresh_line};
ghost use Rattle.stored_text.specs.Reading.{read_from, head_fault, is_full, read_run_of};

use crate::StoredFail;
use crate::line::{Line, Next};
use std::alloc::Global;

pub(crate) const HEAD: [u8; 6] = *b"run 1\n";

/// The most values that a run file may have.
pub const MOST_VALUES: usize = 1_000_000;

/// The most bytes that a run file may have: its first line, and for each value a sign, twenty digits and a line end.
pub const MOST_BYTES: usize = 22_000_006;

// Where the first bytes are not these.
fn head_end(head: &[u8], bytes: &[u8]) -> Option<usize>
    ensures value { result ≡ head_fault head.now 0 bytes.now }
    ensures long { result ≡ None → length head.now ≤ length bytes.now }
{
    for (at, byte) in head.iter().enumerate() {
        if at >= bytes.len() {
            return Some(at);
        }
        if bytes[at] != *byte {
            return Some(at);
        }
    }
    None
}

// Whether a million lines are whole, and nothing stands behind them.
fn has_all(values: &[i128], line: &Line) -> bool
    ensures { result ≡ is_full values.now line.now }
{
    line.is_fresh() && values.len() >= MOST_VALUES
}

// The values of the lines of these bytes, the first of which stands at byte 6.
fn read_lines(alloc: Global, bytes: &[u8]) -> Result<Vec<i128>, StoredFail>
    ensures { MatchResult result (λ values. read_from [] fresh_line 6 bytes.now ≡ Ok values.items) (λ e. (e ≡ StoredFail.Memory) ⊎ (read_from [] fresh_line 6 bytes.now ≡ Err e)) }
{
    let mut values = Vec::new(alloc);
    let mut line = Line::fresh();
    for (at, byte) in bytes.iter().enumerate() {
        let full = has_all(&values, &line);
        match line.next(*byte, full) {
            Next::Refused => return Err(StoredFail::Format(6 + at as u64)),
            Next::Full => return Err(StoredFail::Over(9, 1_000_001)),
            Next::Value(value) => {
                if values.push(value).is_err() {
                    return Err(StoredFail::Memory);
                }
                line = Line::fresh();
            }
            Next::Part(next) => line = next,
        }
    }
    if line.is_fresh() {
        Ok(values)
    } else {
        Err(StoredFail::Format(6 + bytes.len() as u64))
    }
}

/// The values of a run file, with at most [`MOST_VALUES`] of them and at most [`MOST_BYTES`] bytes. Memory is taken by the
/// bytes that were read.
pub fn read_run(alloc: Global, bytes: &[u8]) -> Result<Vec<i128>, StoredFail>
    ensures { MatchResult result (λ values. read_run_of bytes.now ≡ Ok values.items) (λ e. (e ≡ StoredFail.Memory) ⊎ (read_run_of bytes.now ≡ Err e)) }
{
    if bytes.len() > MOST_BYTES {
        return Err(StoredFail::Over(9, MOST_BYTES as u64 + 1));
    }
    match head_end(&HEAD, bytes) {
        Some(at) => Err(StoredFail::Format(at as u64)),
        None => read_lines(alloc, &bytes[6..]),
    }
}
