//! What a file holds.

ghost use Rattle.std.specs.Prelude.{◌≤◌, IfOk, vec_len};

use crate::Refusal;
use lv_outside::{FileFail, Folder, Got, HostFolder};
use std::alloc::{AllocError, Global};
use std::rt::Files;

// The most bytes that a file may have.
const MOST_BYTES: usize = 1 << 20;

/// What the file of this name holds.
pub fn load<R: Files + Clone + Drop>(alloc: Global, rt: &R, name: &str) -> Result<Vec<u8>, Refusal>
    ensures { IfOk result (λ bytes. vec_len bytes ≤ 1048576) }
{
    let files: Result<R, AllocError> = rt.clone();
    let mut folder = HostFolder::new(files?);
    match folder.read(alloc, name, MOST_BYTES) {
        Ok(Got::Bytes(bytes)) => Ok(bytes),
        Ok(Got::Longer) => Err(Refusal::Long),
        Err(FileFail::Memory) => Err(Refusal::Memory),
        Err(FileFail::Failed) => Err(Refusal::File),
    }
}
