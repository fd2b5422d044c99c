//! Reads certificates.

ghost use Rattle.std.specs.Prelude.{◌≡◌, ◌⊎◌, Ok, Err, MatchResult};
ghost use Rattle.stored_text.specs.declared.StoredFail.{StoredFail};
ghost use Rattle.cert_text.specs.declared.place.Part.{Part};
ghost use Rattle.cert_text.specs.Content.{content_of};
ghost use Rattle.cert_text.specs.Drafts.{nothing};
ghost use Rattle.cert_text.specs.Reading.{start, read_from, read_cert_of};

use crate::Cert;
use crate::readers::Reader;
use std::alloc::Global;
use stored_text::StoredFail;

/// The most bytes that a certificate may have.
pub const MOST_BYTES: usize = 67_108_864;

// The certificate that these bytes spell.
#[tactic(auto, using(crate::proofs::Walking::reads))]
fn read_bytes(alloc: Global, bytes: &[u8]) -> Result<Cert, StoredFail>
    ensures { MatchResult result (λ cert. read_from nothing start Part.Fresh 0 bytes.now ≡ Ok (content_of cert)) (λ e. (e ≡ StoredFail.Memory) ⊎ (read_from nothing start Part.Fresh 0 bytes.now ≡ Err e)) }
{
    let reader = Reader::new(alloc).read_on(alloc, bytes)?;
    if !reader.is_done() {
        return Err(StoredFail::Format(bytes.len() as u64));
    }
    Ok(reader.into_cert())
}

/// The certificate that these bytes spell. Where they spell none the failure names the first byte with which no
/// certificate's text goes on, or the end where it is too early; more than [`MOST_BYTES`] pass limit 8. Memory is taken by the
/// bytes that were read.
pub fn read_cert(alloc: Global, bytes: &[u8]) -> Result<Cert, StoredFail>
    ensures { MatchResult result (λ cert. read_cert_of bytes.now ≡ Ok (content_of cert)) (λ e. (e ≡ StoredFail.Memory) ⊎ (read_cert_of bytes.now ≡ Err e)) }
{
    if bytes.len() > MOST_BYTES {
        return Err(StoredFail::Over(8, MOST_BYTES as u64 + 1));
    }
    read_bytes(alloc, bytes)
}
