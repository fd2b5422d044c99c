ghost use Rattle.std.specs.Prelude.{◌≡◌, IfOk, map, Some};
ghost use Rattle.std.specs.Option.{option_map};
ghost use Rattle.request_words.specs.Views.{given_of, replaying_of};
ghost use Rattle.request_words.specs.Replays.{replay_by, replay_of};
ghost use Rattle.request_words.specs.Words.{nothing_given, with_words};

use crate::commands::Command;
use crate::gathering::{Given, gathered};
use lv_base::{Memory, Model};
use std::alloc::Global;

/// The turns where no option says how many.
pub const TURNS: u64 = 10_000_000;

/// A replay of the source in one file on the values in another one.
#[derive(Clone, Copy)]
pub struct Replaying<'a> {
    pub source: &'a str,
    pub run: &'a str,
    pub model: Model,
    pub turns: u64,
}

/// The replay that words ask for: the word `replay`, and behind it two names and options in any order.
///
/// # Errors
///
/// `Memory` where there was none to take the words apart.
pub fn replay_request<'a>(
    alloc: Global,
    words: &'a [&'a str],
) -> Result<Option<Replaying<'a>>, Memory>
    ensures { IfOk result (λ r. option_map replaying_of r ≡ replay_of (map (λ w. w.now) words.entry.now)) }
{
    match words.split_first() {
        Some((command, behind)) if *command == "replay" => replay_asked(alloc, behind),
        _ => Ok(None),
    }
}

fn replay_asked<'a>(alloc: Global, words: &'a [&'a str]) -> Result<Option<Replaying<'a>>, Memory>
    ensures { IfOk result (λ r. option_map replaying_of r ≡ replay_by (with_words Command.Replay (Some nothing_given) (map (λ w. w.now) words.entry.now))) }
{
    match gathered(alloc, Command::Replay, words)? {
        Some(given) => Ok(whole_replay(given)),
        None => Ok(None),
    }
}

// There are both names.
fn whole_replay<'a>(given: Given<'a>) -> Option<Replaying<'a>>
    ensures { option_map replaying_of result ≡ replay_by (Some (given_of given.entry)) }
{
    match (given.first, given.second) {
        (Some(source), Some(run)) => Some(Replaying {
            source,
            run,
            model: given.model.unwrap_or(Model::Ilp32),
            turns: given.turns.unwrap_or(TURNS),
        }),
        _ => None,
    }
}
