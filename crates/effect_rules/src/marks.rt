ghost use Rattle.std.specs.Prelude.{◌≡◌, IfOk};
ghost use Rattle.c_typed.specs.Rules as r;
ghost use Rattle.first_broken.specs.Seen as lines;
ghost use Rattle.first_broken.specs.Found.{summary};
ghost use Rattle.step_values.specs.Seen as values;

use crate::effects::value_effects;
use c_typed::Value;
use first_broken::{Found, both, none};
use lv_base::Memory;
use std::alloc::Global;

/// The first of the rules of unsequenced effects that these expressions break.
pub fn effects_found(alloc: Global, all: &[&Value]) -> Result<Found, Memory>
    ensures { IfOk result (λ f. lines.found_of f ≡ summary (r.unsequenced_of (values.values all.now))) }
{
    let mut found = none();
    for value in all {
        let own = value_effects(alloc, value)?;
        found = both(found, own.found);
    }
    Ok(found)
}
