ghost use Rattle.std.specs.Prelude.{◌≡◌, ◌≤◌, ◌^◌, length, IfOk};
ghost use Rattle.c_typed.specs.Parts.{tree_of};
ghost use Rattle.c_typed.specs.Run as typed;
ghost use Rattle.slot_code.specs.Machine.{ending_of};
ghost use Rattle.lazic.specs.Running.{told_of};

use crate::outcome::Outcome;
use c_rules::Examined;
use lv_base::{Memory, place_of};
use run_replay::{Ending, Replay};
use std::alloc::Global;
use verdicts::Values;

/// How the program ends on these values, with so many turns.
pub fn replayed(
    alloc: Global,
    examined: &Examined,
    values: &[i128],
    turns: u64,
) -> Result<Ending, Memory>
    ensures { IfOk result (λ ending. ending ≡ ending_of (typed.run turns (tree_of examined.now.typed) values.now)) }
{
    let mut replay = Replay::new(alloc, examined)?;
    Ok(replay.run(values, turns))
}

/// What is said of an ending.
pub fn told(source: &[u8], turns: u64, values: Values, ending: Ending) -> Outcome
    requires { length source.now ≤ 2 ^ 20 }
    ensures { result ≡ told_of source.now turns values ending }
{
    match ending {
        Ending::Error(kind, at, drawn) => {
            let offset = (at as usize).min(source.len());
            Outcome::Reached(kind, place_of(source, offset), values.first(drawn))
        }
        Ending::Ended => Outcome::Ended,
        Ending::NoInput => Outcome::NeedsMore,
        Ending::BadInput(i) => Outcome::BadValue(i),
        Ending::Spent => Outcome::OutOfTurns(turns),
    }
}
