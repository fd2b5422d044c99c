//! Texts made of pieces.

ghost use Rattle.std.specs.Prelude.{◌≡◌, ◌++◌, IfOk, OnOk, map};
ghost use Rattle.witness_yaml.specs.Texts.{escaped, escaped_byte, joined};

use lv_base::{Memory, Text};
use std::alloc::Global;

fn put(text: &mut Vec<u8>, piece: &[u8]) -> Result<(), Memory>
    ensures { OnOk result (text.new.items ≡ text.old.items ++ piece.now) }
{
    text.extend_from_slice(piece)?;
    Ok(())
}

/// These pieces, one behind the other.
pub(crate) fn join(alloc: Global, pieces: &[&[u8]]) -> Result<Text, Memory>
    ensures { IfOk result (λ t. t ≡ joined (map (λ p. p.now) pieces.now)) }
{
    let mut text = Vec::new(alloc);
    for piece in pieces {
        put(&mut text, piece)?;
    }
    Ok(Text::new(text))
}

fn put_byte(text: &mut Vec<u8>, byte: u8) -> Result<(), Memory>
    ensures { OnOk result (text.new.items ≡ text.old.items ++ escaped_byte byte) }
{
    if byte == b'"' || byte == b'\\' {
        put(text, &[b'\\', byte])
    } else {
        put(text, &[byte])
    }
}

/// A name as it stands between quotes.
pub(crate) fn escape(alloc: Global, name: &[u8]) -> Result<Text, Memory>
    ensures { IfOk result (λ t. t ≡ escaped name.now) }
{
    let mut text = Vec::new(alloc);
    for byte in name {
        put_byte(&mut text, *byte)?;
    }
    Ok(Text::new(text))
}
