//! What the elements of objects are written as.

ghost use Rattle.std.specs.Prelude.{◌≡◌, Some, slice_get, string_bytes, IfOk};
ghost use Rattle.witness_expressions.specs.Names.{element_text, named};

use c_graph::{Cell, Origin};
use lv_base::{Memory, Text};
use std::alloc::Global;

/// How an object is written at a place.
#[derive(Drop)]
pub enum Spelling {
    /// Not at all: its name does not mean it there.
    Hidden,
    /// A scalar, by its name.
    Scalar(Text),
    /// An array, by its name.
    Array(Text),
}

fn element(alloc: Global, name: &[u8], index: u32) -> Result<Text, Memory>
    ensures { IfOk result (λ t. Some t ≡ element_text (Some (Spelling.Array name.now)) index) }
{
    let mut text = name.to_vec(alloc)?;
    let behind = format!(in alloc; "[{index}]")?;
    text.extend_from_slice(behind.as_bytes())?;
    Ok(Text::new(text))
}

/// The text of a cell.
pub(crate) fn cell_name(
    alloc: Global,
    spellings: &[Spelling],
    cells: &[Cell],
    cell: u32,
) -> Result<Option<Text>, Memory>
    ensures { IfOk result (λ t. t ≡ named spellings.now cells.now cell) }
{
    let Some(found) = cells.get(cell as usize) else {
        return Ok(None);
    };
    match found.origin {
        Origin::Saved => Ok(None),
        Origin::Element(object, index) => match spellings.get(object as usize) {
            Some(Spelling::Scalar(name)) => Ok(Some(Text::copy_of(alloc, name.as_bytes())?)),
            Some(Spelling::Array(name)) => Ok(Some(element(alloc, name.as_bytes(), index)?)),
            _ => Ok(None),
        },
    }
}
