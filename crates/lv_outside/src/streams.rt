ghost use Rattle.std.specs.Prelude.{IfOk, IfSome, OnOk};
ghost use Rattle.std.specs.Io.KnownBytes.{Appends};
ghost use Rattle.lv_outside.specs.Got.{IsAtMost, IsRead};

use crate::{Failed, FileFail, Got};
use std::alloc::Global;
use std::io::{Read, Write};

/// All bytes that a reader gives up to its end, where they are at most so many. A read that gives no byte is the end. No more
/// memory is taken than the bytes that were read.
pub fn read_whole<R: Read>(alloc: Global, from: &mut R, most: usize) -> Result<Got, FileFail>
    ensures most { IfOk result (IsAtMost most) }
    ensures whole { IfOk result (λ got. IfSome (R.remaining from.old) (λ bytes. IsRead most bytes got)) }
{
    let mut bytes = Vec::new(alloc);
    let mut part = [0u8; 16384];
    'parts: while bytes.len() <= most {
        match from.read(&mut part) {
            Ok(0) => return Ok(Got::Bytes(bytes)),
            Ok(n) => bytes.extend_from_slice(&part[..n])?,
            Err(_) => return Err(FileFail::Failed),
        }
    }
    Ok(Got::Longer)
}

/// Gives all bytes to a writer. A write that takes some is followed by one of the rest; one that takes none is a failure.
pub fn write_whole<W: Write>(to: &mut W, bytes: &[u8]) -> Result<(), Failed>
    ensures { OnOk result (Appends (W.contents to.old) (W.contents to.new) bytes.now) }
{
    let mut done = 0;
    'parts: while done < bytes.len() {
        match to.write(&bytes[done..]) {
            Ok(0) => return Err(Failed),
            Ok(n) => done += n,
            Err(_) => return Err(Failed),
        }
    }
    Ok(())
}
