//! All workers.
ghost use Rattle.std.specs.Prelude.{◌≡◌, ◌⊎◌, ◌≤◌, Ok, Err, All, IfOk, IfSome, MatchResult, length};
ghost use Rattle.stored_text.specs.declared.StoredFail.{StoredFail};
ghost use Rattle.cert_text.specs.Content.{content_of};
ghost use Rattle.cert_text.specs.Reading.{read_cert_of};
ghost use Rattle.cert_reading.specs.Portions.{IsPortion, IsReadTo};

use crate::cutting::{Stretch, cut, next_log};
use crate::portions::{Beginning, Portion, Task, put_together, read_stretch};
use cert_text::{Cert, MOST_BYTES, Reader, read_cert};
use std::alloc::{AllocError, Global};
use std::thread;
use std::thread::Threads;
use stored_text::StoredFail;

// Fewer bytes are read by one reader sooner than workers begin.
const FEW_BYTES: usize = 65_536;

// What stands before the first log.
fn read_head(alloc: Global, bytes: &[u8]) -> Option<Beginning>
    ensures { IfSome result (IsReadTo bytes.now) }
{
    let end = next_log(bytes, 0)?;
    let reader = Reader::new(alloc).read_on(alloc, &bytes[..end]).ok()?;
    Some(Beginning { end, reader })
}

// Each stretch in a thread of its own.
fn read_beside<R: Threads + Sync>(
    rt: &R,
    alloc: Global,
    task: Task<'_>,
    stretches: Vec<Stretch>,
) -> Result<Vec<Portion>, AllocError>
    ensures { IfOk result (λ v. All (IsPortion task.entry.front task.entry.bytes.now) v.items) }
{
    thread::map_vec(
        rt,
        stretches,
        &|stretch| -> Portion
            ensures { IsPortion task.entry.front task.entry.bytes.now result }
        { read_stretch(alloc, task, stretch) },
    )
}

// The certificate that was read, where that is all.
fn whole_of(bytes: &[u8], read: Beginning) -> Option<Cert>
    requires few { length bytes.now ≤ 67108864 }
    requires read { IsReadTo bytes.now read }
    ensures { IfSome result (λ cert. read_cert_of bytes.now ≡ Ok (content_of cert)) }
{
    if read.end != bytes.len() || !read.reader.is_done() {
        return None;
    }
    Some(read.reader.into_cert())
}

/// The certificate that these bytes spell, where at least two workers can read it beside each other: not where the bytes are few, spell none, or have
/// their logs where none seems to begin. Memory is taken by the bytes that were read.
pub fn read_shared<R: Threads + Sync>(
    rt: &R,
    alloc: Global,
    bytes: &[u8],
    workers: u32,
) -> Option<Cert>
    ensures { IfSome result (λ cert. read_cert_of bytes.now ≡ Ok (content_of cert)) }
{
    if workers < 2 || bytes.len() < FEW_BYTES || bytes.len() > MOST_BYTES {
        return None;
    }
    let head = read_head(alloc, bytes)?;
    let stretches = cut(alloc, bytes, head.end, head.reader.left(), workers).ok()?;
    let task = Task {
        bytes,
        front: head.reader.front(),
    };
    let portions = read_beside(rt, alloc, task, stretches).ok()?;
    let whole = put_together(task, head, portions)?;
    whole_of(bytes, whole)
}

/// The certificate that these bytes spell, read by at most so many workers beside each other. The promise is that of
/// `cert_text::read_cert`: how many workers there are changes no answer.
pub fn read_cert_by<R: Threads + Sync>(
    rt: &R,
    alloc: Global,
    bytes: &[u8],
    workers: u32,
) -> Result<Cert, StoredFail>
    ensures { MatchResult result (λ cert. read_cert_of bytes.now ≡ Ok (content_of cert)) (λ e. (e ≡ StoredFail.Memory) ⊎ (read_cert_of bytes.now ≡ Err e)) }
{
    match read_shared(rt, alloc, bytes, workers) {
        Some(cert) => Ok(cert),
        None => read_cert(alloc, bytes),
    }
}
