//! The two kinds of witnesses.

ghost use Rattle.std.specs.Prelude.{◌≡◌, ◌++◌, IfOk, OnOk, string_bytes};
ghost use Rattle.moment_text.specs.Moments.{IsMoment};
ghost use Rattle.witness_yaml.specs.Texts.{place_text, location_text, invariant_text, invariants_text, content_text, correctness_text, target_text, violation_text};

use crate::metadata::{Metadata, metadata_lines};
use crate::piece::{escape, join};
use lv_base::{Memory, Place, Text};
use std::alloc::Global;

/// An expression that is true at each visit of a loop.
#[derive(Drop)]
pub struct Invariant {
    /// The place of the loop's keyword.
    pub place: Place,
    /// The expression, in C. It has neither a quote nor a backslash.
    pub expression: Text,
}

fn place_lines(alloc: Global, blanks: &str, place: Place) -> Result<String, Memory>
    ensures { IfOk result (λ s. string_bytes s ≡ place_text blanks.now place) }
{
    let (line, column) = (place.line, place.column);
    Ok(format!(in alloc; "{blanks}line: {line}\n{blanks}column: {column}\n")?)
}

// The name is escaped.
fn location<'a>(
    alloc: Global,
    blanks: &'a str,
    name: &'a [u8],
    place: Place,
    function: &'a [u8],
) -> Result<Text, Memory>
    ensures { IfOk result (λ t. t ≡ location_text blanks.now name.now place function.now) }
{
    let lines = place_lines(alloc, blanks, place)?;
    let blanks = blanks.as_bytes();
    join(
        alloc,
        &[
            blanks,
            b"file_name: \"",
            name,
            b"\"\n",
            lines.as_bytes(),
            blanks,
            b"function: \"",
            function,
            b"\"\n",
        ],
    )
}

// The name is escaped.
fn invariant_lines(alloc: Global, name: &[u8], invariant: &Invariant) -> Result<Text, Memory>
    ensures { IfOk result (λ t. t ≡ invariant_text name.now invariant.now) }
{
    let location = location(alloc, "          ", name, invariant.place, b"main")?;
    join(
        alloc,
        &[
            b"    - invariant:\n        type: \"loop_invariant\"\n        location:\n",
            location.as_bytes(),
            b"        value: \"",
            invariant.expression.as_bytes(),
            b"\"\n        format: \"c_expression\"\n",
        ],
    )
}

// The name is escaped.
fn put_invariant(
    alloc: Global,
    text: &mut Vec<u8>,
    name: &[u8],
    invariant: &Invariant,
) -> Result<(), Memory>
    ensures { OnOk result (text.new.items ≡ text.old.items ++ invariant_text name.now invariant.now) }
{
    let lines = invariant_lines(alloc, name, invariant)?;
    text.extend_from_slice(lines.as_bytes())?;
    Ok(())
}

// The name is escaped.
fn invariants_lines(alloc: Global, name: &[u8], invariants: &[Invariant]) -> Result<Text, Memory>
    ensures { IfOk result (λ t. t ≡ invariants_text name.now invariants.now) }
{
    let mut text = Vec::new(alloc);
    for invariant in invariants {
        put_invariant(alloc, &mut text, name, invariant)?;
    }
    Ok(Text::new(text))
}

// The name is escaped.
#[tactic(auto, unfolding(crate::specs::Texts::content_text))]
fn content(alloc: Global, name: &[u8], invariants: &[Invariant]) -> Result<Text, Memory>
    ensures { IfOk result (λ t. t ≡ content_text name.now invariants.now) }
{
    if invariants.is_empty() {
        return Text::copy_of(alloc, b"  content: []\n");
    }
    let lines = invariants_lines(alloc, name, invariants)?;
    join(alloc, &[b"  content:\n", lines.as_bytes()])
}

/// The witness of a source's correctness: these invariants of loops in the body of `main`.
///
/// Fails with `Memory` where memory runs out.
pub fn correctness(
    alloc: Global,
    metadata: &Metadata,
    invariants: &[Invariant],
) -> Result<Text, Memory>
    requires { IsMoment metadata.now.moment }
    ensures { IfOk result (λ t. t ≡ correctness_text metadata.now invariants.now) }
{
    let name = escape(alloc, metadata.name.as_bytes())?;
    let lines = metadata_lines(alloc, "invariant_set", name.as_bytes(), metadata)?;
    let content = content(alloc, name.as_bytes(), invariants)?;
    join(alloc, &[lines.as_bytes(), content.as_bytes()])
}

// The name is escaped.
#[tactic(auto, unfolding(crate::specs::Texts::target_text))]
fn target(alloc: Global, name: &[u8], place: Place, function: &[u8]) -> Result<Text, Memory>
    ensures { IfOk result (λ t. t ≡ target_text name.now place function.now) }
{
    let location = location(alloc, "              ", name, place, function)?;
    join(
        alloc,
        &[
            b"  content:\n    - segment:\n        - waypoint:\n            action: \"follow\"\n            type: \"target\"\n            location:\n",
            location.as_bytes(),
        ],
    )
}

/// The witness of a violation: the place of the called name of `reach_error` that a run reaches, and the name of the function in whose
/// body the call stands.
///
/// Fails with `Memory` where memory runs out.
pub fn violation(
    alloc: Global,
    metadata: &Metadata,
    place: Place,
    function: &[u8],
) -> Result<Text, Memory>
    requires { IsMoment metadata.now.moment }
    ensures { IfOk result (λ t. t ≡ violation_text metadata.now place function.now) }
{
    let name = escape(alloc, metadata.name.as_bytes())?;
    let lines = metadata_lines(alloc, "violation_sequence", name.as_bytes(), metadata)?;
    let target = target(alloc, name.as_bytes(), place, function)?;
    join(alloc, &[lines.as_bytes(), target.as_bytes()])
}
