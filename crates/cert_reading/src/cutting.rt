//! Where the logs of a certificate are cut.
ghost use Rattle.std.specs.Prelude.{◌<◌, ◌≤◌, All, IfOk, IfSome, length};
ghost use Rattle.cert_reading.specs.Portions.{IsWithin};

use memchr::memchr;
use std::alloc::{AllocError, Global};

/// Some bytes of a certificate that seem to begin and to end where logs do, and how many logs seem to be left where they begin.
#[derive(Clone, Copy, Debug, PartialEq, Eq)]
pub struct Stretch {
    /// The offset of the first byte.
    pub from: usize,
    /// The offset behind the last byte.
    pub to: usize,
    /// How many logs seem to be left.
    pub left: u32,
}

/// Where a log seems to begin, at this offset or behind it.
pub fn next_log(bytes: &[u8], from: usize) -> Option<usize>
    ensures { IfSome result (λ at. (from ≤ at) × (at < length bytes.now)) }
{
    let mut at = from;
    while at < bytes.len() {
        at += memchr(b'l', &bytes[at..])?;
        if bytes[at..].starts_with(b"log ") {
            return Some(at);
        }
        at += 1;
    }
    None
}

/// The bytes from the first log on, where so many are left, cut into at most so many stretches, one behind the other.
pub fn cut(
    alloc: Global,
    bytes: &[u8],
    first: usize,
    all: u32,
    parts: u32,
) -> Result<Vec<Stretch>, AllocError>
    requires { first ≤ length bytes.now }
    ensures within { IfOk result (λ v. All (IsWithin bytes.now) v.items) }
    ensures few { 1 ≤ parts → IfOk result (λ v. length v.items ≤ parts) }
{
    let size = (bytes.len() - first) / parts.max(1) as usize;
    let before_last = parts.saturating_sub(1) as usize;
    let mut stretches = Vec::new(alloc);
    let mut open = Stretch {
        from: first,
        to: bytes.len(),
        left: all,
    };
    let mut left = all;
    let mut at = first;
    while let Some(log) = next_log(bytes, at) {
        if log - open.from > size && stretches.len() < before_last {
            stretches.push(Stretch { to: log, ..open })?;
            open = Stretch {
                from: log,
                to: bytes.len(),
                left,
            };
        }
        left = left.saturating_sub(1);
        at = log + 1;
    }
    stretches.push(open)?;
    Ok(stretches)
}
