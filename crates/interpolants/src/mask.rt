//! The cells of a cut, marked.

ghost use Rattle.std.specs.Prelude.{◌≡◌, length, slice_set, true, IfOk};
ghost use Rattle.interpolants.specs.NamedCells.{IsMask};

use lv_base::Memory;
use path_query::Bundle;
use std::alloc::Global;

// Marks a cell, if there is a mark for it.
fn keep(kept: &mut Vec<bool>, cell: u32)
    ensures { kept.new.items ≡ slice_set kept.old.items cell true }
{
    let at = cell as usize;
    if at < kept.len() {
        kept[at] = true;
    }
}

/// Marks the cells of a cut among so many.
pub fn kept_of(alloc: Global, bundles: &[Bundle], count: usize) -> Result<Vec<bool>, Memory>
    ensures long { IfOk result (λ m. length m.items ≡ count) }
    ensures mask { IfOk result (λ m. IsMask bundles.now (length bundles.now) m.items) }
{
    let mut kept = vec![in alloc; false; count]?;
    for number in 0..bundles.len() {
        keep(&mut kept, bundles[number].cell);
    }
    Ok(kept)
}
