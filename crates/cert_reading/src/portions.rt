//! What workers read of a certificate, and what that says together.
ghost use Rattle.std.specs.Prelude.{All, IfSome};
ghost use Rattle.cert_reading.specs.Portions.{IsPortion, IsReadFrom, IsReadTo};

use crate::cutting::Stretch;
use cert_text::{Front, Reader};
use std::alloc::Global;

/// What all workers look at.
#[derive(Clone, Copy)]
pub struct Task<'a> {
    /// The certificate's bytes.
    pub bytes: &'a [u8],
    /// What stands before the terms.
    pub front: Front,
}

/// What one worker read: its stretch, and what that says, if it can be read.
#[derive(Drop)]
pub struct Portion {
    /// The stretch.
    pub stretch: Stretch,
    /// Where reading stands behind it.
    pub reader: Option<Reader>,
}

/// What was read of a certificate, and up to which offset.
#[derive(Drop)]
pub struct Beginning {
    /// The offset behind what was read.
    pub end: usize,
    /// Where reading stands there.
    pub reader: Reader,
}

// What a stretch says.
fn read_bytes(alloc: Global, task: Task<'_>, stretch: Stretch) -> Option<Reader>
    ensures { IfSome result (IsReadFrom task.entry.front task.entry.bytes.now stretch) }
{
    if stretch.from > stretch.to || stretch.to > task.bytes.len() {
        return None;
    }
    let reader = Reader::before_log(alloc, task.front, stretch.left);
    reader
        .read_on(alloc, &task.bytes[stretch.from..stretch.to])
        .ok()
}

/// Reads a stretch.
pub fn read_stretch(alloc: Global, task: Task<'_>, stretch: Stretch) -> Portion
    ensures { IsPortion task.entry.front task.entry.bytes.now result }
{
    let reader = read_bytes(alloc, task, stretch);
    Portion { stretch, reader }
}

// A beginning with a portion more, where that begins as the beginning ends.
fn further(task: Task<'_>, beginning: Beginning, portion: Portion) -> Option<Beginning>
    requires beginning { IsReadTo task.bytes.now beginning }
    requires portion { IsPortion task.front task.bytes.now portion }
    ensures { IfSome result (IsReadTo task.entry.bytes.now) }
{
    let Portion { stretch, reader } = portion;
    let next = reader?;
    if stretch.from != beginning.end || !beginning.reader.is_before_log(task.front, stretch.left) {
        return None;
    }
    let reader = beginning.reader.followed_by(next)?;
    Some(Beginning {
        end: stretch.to,
        reader,
    })
}

/// A beginning with all portions, one behind the other, where each fits.
pub fn put_together(
    task: Task<'_>,
    beginning: Beginning,
    portions: Vec<Portion>,
) -> Option<Beginning>
    requires beginning { IsReadTo task.bytes.now beginning }
    requires portions { All (IsPortion task.front task.bytes.now) portions.items }
    ensures { IfSome result (IsReadTo task.entry.bytes.now) }
{
    let mut whole = beginning;
    for portion in portions {
        whole = further(task, whole, portion)?;
    }
    Some(whole)
}
