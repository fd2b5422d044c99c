//! The witness of a source that reaches an error.

ghost use Rattle.std.specs.Prelude.{◌≡◌, ◌≤◌, ◌^◌, length, IfOk};
ghost use Rattle.moment_text.specs.Moments.{IsMoment};
ghost use Rattle.c_tree.specs.Denotes.{tree_of};
ghost use Rattle.source_witnesses.specs.Witnesses.{unsafe_text};

use crate::stamp::{Stamp, metadata};
use c_tree::Unit;
use lv_base::{Memory, Model, Text, place_of};
use std::alloc::Global;
use witness_places::function_around;
use witness_yaml::violation;

/// The witness of a source that reaches an error by a call of `reach_error` whose name stands at this offset, by the source's tree.
///
/// Fails with `Memory` where memory runs out.
#[tactic(auto, unfolding(crate::specs::Witnesses::unsafe_text))]
pub fn unsafe_witness(
    alloc: Global,
    name: &str,
    source: &[u8],
    unit: &Unit,
    model: Model,
    at: u32,
    stamp: Stamp,
) -> Result<Text, Memory>
    requires small { length source.now ≤ 2 ^ 20 }
    requires moment { IsMoment stamp.moment }
    ensures { IfOk result (λ t. t ≡ unsafe_text name.now source.now (tree_of unit.now) model at stamp) }
{
    let place = place_of(source, (at as usize).min(source.len()));
    let metadata = metadata(alloc, name, source, model, stamp)?;
    violation(alloc, &metadata, place, function_around(unit, at))
}
