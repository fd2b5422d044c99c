//! Answers to obligations that are there before these are asked about, as workers beside each other find them.
ghost use Rattle.std.specs.Prelude.{◌≡◌, ◌<◌, None, Some, replicate, slice_index_or, slice_set, vec_len, IfOk};

use cdcl_solver::{Answer, QueryFail};
use lv_base::Memory;
use resolution_log::Log;
use std::alloc::Global;
use std::mem;

/// What was answered of an obligation that was not refuted.
#[derive(Drop)]
pub struct Stopped {
    /// The obligation.
    pub number: u32,
    /// The solver's answer, or why there is none.
    pub answer: Result<Answer, QueryFail>,
}

/// A place for the log of each of so many obligations.
pub fn places_for(alloc: Global, obligations: u32) -> Result<Vec<Option<Log>>, Memory>
    ensures { IfOk result (λ logs. logs.items ≡ replicate obligations None) }
{
    let mut logs = Vec::new(alloc);
    for _ in 0..obligations {
        logs.push(None)?;
    }
    Ok(logs)
}

/// The log of an obligation gets to its place.
pub fn place_log(logs: &mut Vec<Option<Log>>, number: u32, log: Log)
    requires there { number < vec_len logs.old }
    ensures placed { logs.new.items ≡ slice_set logs.old.items number (Some log) }
    ensures places { vec_len logs.new ≡ vec_len logs.old }
{
    logs[number as usize] = Some(log);
}

/// Takes the log of an obligation from its place.
pub(crate) fn take_log(logs: &mut Vec<Option<Log>>, number: u32) -> Option<Log>
    requires there { number < vec_len logs.old }
    ensures log { result ≡ slice_index_or logs.old.items number None }
    ensures left { logs.new.items ≡ slice_set logs.old.items number None }
{
    mem::replace(&mut logs[number as usize], None)
}
