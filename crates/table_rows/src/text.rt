use crate::Flaw;
use std::alloc::Global;

// The lines with `\h`.
const HEAD: &[u8] =
    b"extern void abort(void);\nextern int __VERIFIER_nondet_int(void);\nvoid reach_error() {}\nint main() {\n";

// Where in an escape the next byte stands: behind none, behind its backslash, behind its `x`, or behind the first digit.
#[derive(Clone, Copy)]
enum Escape {
    Outside,
    Open,
    High,
    Low(u8),
}

fn digit(byte: u8) -> Result<u8, Flaw> {
    match byte {
        b'0'..=b'9' => Ok(byte - b'0'),
        b'A'..=b'F' => Ok(byte - b'A' + 10),
        _ => Err(Flaw::Form),
    }
}

// The byte behind a backslash.
fn opened(text: &mut Vec<u8>, byte: u8) -> Result<Escape, Flaw> {
    match byte {
        b'n' => text.push(b'\n')?,
        b't' => text.push(b'\t')?,
        b's' => text.push(b' ')?,
        b'\\' => text.push(b'\\')?,
        b'h' => text.extend_from_slice(HEAD)?,
        b'e' => (),
        b'x' => return Ok(Escape::High),
        _ => return Err(Flaw::Form),
    }
    Ok(Escape::Outside)
}

fn stepped(text: &mut Vec<u8>, escape: Escape, byte: u8) -> Result<Escape, Flaw> {
    match escape {
        Escape::Outside if byte == b'\\' => Ok(Escape::Open),
        Escape::Outside => {
            text.push(byte)?;
            Ok(Escape::Outside)
        }
        Escape::Open => opened(text, byte),
        Escape::High => Ok(Escape::Low(digit(byte)?)),
        Escape::Low(high) => {
            text.push(high.wrapping_mul(16).wrapping_add(digit(byte)?))?;
            Ok(Escape::Outside)
        }
    }
}

// Appends a text in which nothing is repeated.
fn add_plain(text: &mut Vec<u8>, written: &str) -> Result<(), Flaw> {
    let mut escape = Escape::Outside;
    for byte in written.as_bytes() {
        escape = stepped(text, escape, *byte)?;
    }
    match escape {
        Escape::Outside => Ok(()),
        _ => Err(Flaw::Form),
    }
}

// Appends what begins with the number of a text that is repeated.
fn add_repeated(alloc: Global, text: &mut Vec<u8>, written: &str) -> Result<(), Flaw> {
    let (count, behind) = written.split_once("×").ok_or(Flaw::Form)?;
    let (again, rest) = behind.split_once("»").ok_or(Flaw::Form)?;
    let Ok(count) = count.parse::<u32>() else {
        return Err(Flaw::Form);
    };
    let mut part = Vec::new(alloc);
    add_plain(&mut part, again)?;
    for _ in 0..count {
        text.extend_from_slice(&part)?;
    }
    add_plain(text, rest)
}

/// The bytes of a text as it stands in a table.
///
/// Fails with `Form` where an escape or a repeat is none, or with `Memory`.
pub fn text_of(alloc: Global, written: &str) -> Result<Vec<u8>, Flaw> {
    let mut text = Vec::new(alloc);
    let mut parts = written.split("«");
    if let Some(first) = parts.next() {
        add_plain(&mut text, first)?;
    }
    for part in parts {
        add_repeated(alloc, &mut text, part)?;
    }
    Ok(text)
}
