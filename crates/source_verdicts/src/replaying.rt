ghost use Rattle.std.specs.Prelude.{◌≡◌, ◌<◌, ◌≤◌, ◌^◌, ℕ, true, length, IfOk};
ghost use Rattle.lv_base.specs.Place.{place_at};
ghost use Rattle.lv_base.specs.declared.kind.Model.{Model};
ghost use Rattle.c_graph.specs.Shape.{Flow};
ghost use Rattle.c_run.specs.Run.{Error};
ghost use Rattle.c_typed.specs.Tree.{Program};
ghost use Rattle.c_typed.specs.Parts.{tree_of};
ghost use Rattle.c_typed.specs.Run as typed;
ghost use Rattle.drawn_value_laws.specs.Drawn.{AreWords};
ghost use Rattle.source_verdicts.specs.Verified.{EndsSo, IsVerifiedAs};

use crate::found::Found;
use crate::unwritten::unwritten;
use c_rules::Examined;
use lv_base::{ErrorKind, Memory, Place, Text, place_of};
use run_replay::{Ending, Replay};
use std::alloc::Global;
use stored_text::write_run;
use verdicts::{Values, Verdict};

/// The verdict on the values of a path to an error: they are replayed with so many turns, which end in the error.
pub(crate) fn replayed(
    alloc: Global,
    examined: &Examined,
    source: &[u8],
    values: &[i128],
    turns: u64,
) -> (Verdict, Found)
    requires small { length source.now ≤ 2 ^ 20 }
    requires words { AreWords values.now }
    requires ends { EndsSo (tree_of examined.now.typed) turns values.now }
    ensures { (g : Flow) (model : Model) (units learn : ℕ) → IsVerifiedAs (tree_of examined.now.typed) g source.now model units learn result }
{
    let Ok(mut replay) = Replay::new(alloc, examined) else {
        return (Verdict::NoMemory, Found::Nothing);
    };
    match replay.run(values, turns) {
        Ending::Error(kind, at, _) => reached(alloc, source, kind, at, values, turns),
        Ending::Ended | Ending::NoInput | Ending::BadInput(_) | Ending::Spent => unreachable!(),
    }
}

// The verdict on values that reach an error, all of them being drawn.
fn reached(
    alloc: Global,
    source: &[u8],
    kind: ErrorKind,
    at: u32,
    values: &[i128],
    _turns: u64,
) -> (Verdict, Found)
    requires small { length source.now ≤ 2 ^ 20 }
    requires words { AreWords values.now }
    ensures { (p : Program) (g : Flow) (model : Model) (units learn : ℕ) → typed.run _turns p values.now ≡ Error kind at (length values.now) → IsVerifiedAs p g source.now model units learn result }
{
    let place = place_in(source, at);
    match copied(alloc, values) {
        Ok(copy) => match write_run(alloc, values) {
            Ok(text) => (
                Verdict::Unsafe(kind, place, copy, Text::new(text)),
                Found::AtOffset(at),
            ),
            Err(fail) => (unwritten(fail), Found::Nothing),
        },
        Err(_) => (Verdict::NoMemory, Found::Nothing),
    }
}

fn place_in(source: &[u8], at: u32) -> Place
    requires { length source.now ≤ 2 ^ 20 }
    ensures { result ≡ place_at source.now at }
{
    place_of(source, (at as usize).min(source.len()))
}

fn copied(alloc: Global, values: &[i128]) -> Result<Values, Memory>
    ensures { IfOk result (λ v. v ≡ values.now) }
{
    let copy = values.to_vec(alloc)?;
    Ok(Values::new(copy))
}
