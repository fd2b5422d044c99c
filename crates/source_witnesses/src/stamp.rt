ghost use Rattle.std.specs.Prelude.{◌≡◌, IfOk};
ghost use Rattle.source_witnesses.specs.Witnesses.{metadata_of};

use lv_base::{Memory, Model, Text};
use sha2::{Digest, Sha256};
use std::alloc::Global;
use witness_yaml::Metadata;

/// When a witness is made, in seconds since 1970-01-01T00:00:00Z, and the bytes of which its identifier is made.
#[derive(Clone, Copy)]
pub struct Stamp {
    pub moment: i64,
    pub random: [u8; 16],
}

/// What a witness says of itself and of the source, whose file has this name.
pub(crate) fn metadata(
    alloc: Global,
    name: &str,
    source: &[u8],
    model: Model,
    stamp: Stamp,
) -> Result<Metadata, Memory>
    ensures { IfOk result (λ m. m ≡ metadata_of name.now source.now model stamp) }
{
    Ok(Metadata {
        name: Text::copy_of(alloc, name.as_bytes())?,
        hash: Sha256::digest(source),
        model,
        moment: stamp.moment,
        random: stamp.random,
    })
}
