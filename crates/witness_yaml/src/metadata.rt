//! What a witness says of itself and of the source.

ghost use Rattle.std.specs.Prelude.{◌≡◌, IfOk, string_bytes};
ghost use Rattle.moment_text.specs.Moments.{IsMoment};
ghost use Rattle.witness_yaml.specs.Texts.{escaped, head_text, source_text, task_text, metadata_text, model_text, uuid_text};

use crate::piece::join;
use lv_base::{Memory, Model, Text};
use moment_text::moment_text;
use std::alloc::Global;
use uuid::Builder;

/// What a witness is of, and when it is written.
#[derive(Drop)]
pub struct Metadata {
    /// The name of the source's file.
    pub name: Text,
    /// The SHA-256 of the source.
    pub hash: [u8; 32],
    /// The data model under which the source is read.
    pub model: Model,
    /// The seconds since 1970-01-01T00:00:00Z.
    pub moment: i64,
    /// The bytes of which the witness's identifier is made.
    pub random: [u8; 16],
}

fn model_name(model: Model) -> &'static str
    ensures { result.now ≡ model_text model }
{
    match model {
        Model::Ilp32 => "ILP32",
        Model::Lp64 => "LP64",
    }
}

#[tactic(auto, unfolding(crate::specs::Texts::uuid_text))]
fn identifier(alloc: Global, random: [u8; 16]) -> Result<String, Memory>
    ensures { IfOk result (λ s. string_bytes s ≡ uuid_text random) }
{
    let id = Builder::from_random_bytes(random).into_uuid().hyphenated();
    Ok(format!(in alloc; "{id}")?)
}

fn head(alloc: Global, entry: &str, metadata: &Metadata) -> Result<String, Memory>
    requires { IsMoment metadata.now.moment }
    ensures { IfOk result (λ s. string_bytes s ≡ head_text entry.now metadata.now) }
{
    let id = identifier(alloc, metadata.random)?;
    let time = moment_text(alloc, metadata.moment)?;
    Ok(format!(in alloc;
        "- entry_type: \"{entry}\"\n  metadata:\n    format_version: \"2.0\"\n    uuid: \"{id}\"\n    creation_time: \"{time}\"\n    producer:\n      name: \"lazic\"\n      version: \"1\"\n    task:\n"
    )?)
}

// The name is escaped.
fn source(alloc: Global, name: &[u8], hash: &[u8]) -> Result<Text, Memory>
    ensures { IfOk result (λ t. t ≡ source_text name.now hash.now) }
{
    let hash = hex::encode(alloc, hash)?;
    join(
        alloc,
        &[
            b"      input_files:\n        - \"",
            name,
            b"\"\n      input_file_hashes:\n        \"",
            name,
            b"\": \"",
            hash.as_bytes(),
            b"\"\n",
        ],
    )
}

fn task(alloc: Global, model: Model) -> Result<String, Memory>
    ensures { IfOk result (λ s. string_bytes s ≡ task_text model) }
{
    let model = model_name(model);
    Ok(format!(in alloc;
        "      specification: \"G ! call(reach_error())\"\n      data_model: \"{model}\"\n      language: \"C\"\n"
    )?)
}

/// The lines before the content. The name is that of the source, escaped.
#[tactic(auto, unfolding(crate::specs::Texts::metadata_text))]
pub(crate) fn metadata_lines(
    alloc: Global,
    entry: &str,
    name: &[u8],
    metadata: &Metadata,
) -> Result<Text, Memory>
    requires { IsMoment metadata.now.moment }
    ensures { IfOk result (λ t. t ≡ metadata_text entry.now name.now metadata.now) }
{
    let head = head(alloc, entry, metadata)?;
    let source = source(alloc, name, &metadata.hash)?;
    let task = task(alloc, metadata.model)?;
    join(
        alloc,
        &[head.as_bytes(), source.as_bytes(), task.as_bytes()],
    )
}
