//! Runs of one machine, again and again.

use crate::next_source;
use run_replay::{Ending, Replay};
use std::alloc::Global;
use table_rows::{Fields, Flaw, Table, list_of, other_than};

// How a run ended.
fn ended(alloc: Global, ending: Ending) -> Result<String, Flaw> {
    let text = match ending {
        Ending::Error(kind, at, drawn) => {
            let kind = kind.name();
            format!(in alloc; "{kind} at {at} behind {drawn}")?
        }
        Ending::Ended => String::from_str(alloc, "ended")?,
        Ending::NoInput => String::from_str(alloc, "no input")?,
        Ending::BadInput(number) => format!(in alloc; "bad input {number}")?,
        Ending::Spent => String::from_str(alloc, "spent")?,
    };
    Ok(text)
}

// What came of a run, where it is another ending: its turns, its inputs and its ending, with `|` between them.
fn run_other(alloc: Global, replay: &mut Replay, run: &str) -> Result<Option<String>, Flaw> {
    let mut parts = Fields::parts(run, "|");
    let turns = parts.count()?;
    let inputs = list_of(alloc, parts.next()?.as_bytes())?;
    let wanted = parts.next()?;
    parts.end()?;
    let came = ended(alloc, replay.run(&inputs, turns))?;
    Ok(other_than(wanted, came))
}

// What came of the first run of a source that ended in another way, where there is one. All are runs of one machine.
fn runs_other(alloc: Global, mut columns: Fields<'_>) -> Result<Option<String>, Flaw> {
    let examined = next_source(alloc, &mut columns)?;
    let mut replay = Replay::new(alloc, &examined)?;
    let runs = columns.left().ok_or(Flaw::Form)?;
    for run in runs.split("\t") {
        if let Some(other) = run_other(alloc, &mut replay, run)? {
            return Ok(Some(other));
        }
    }
    Ok(None)
}

/// Rows of runs.
#[derive(Clone, Copy)]
pub(crate) struct RunRows;

impl Table for RunRows {
    fn other(&mut self, alloc: Global, row: &str) -> Result<Option<String>, Flaw> {
        let mut columns = Fields::columns(row);
        columns.next()?;
        runs_other(alloc, columns)
    }
}
