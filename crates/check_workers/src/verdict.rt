//! What the workers' findings come to.
ghost use Rattle.std.specs.Prelude.{◌≡◌, ◌≤◌, All, IfErr, IfOk, IfSome, length, vec_len};
ghost use Rattle.work_claims.specs.Seats.{terms};
ghost use Rattle.check_workers.specs.declared.worker.Failure.{Failure};
ghost use Rattle.check_workers.specs.Working.{IsEnded, IsFailure, IsVerdict, IsWorked};

use crate::worker::{Failure, Task, Worked};
use cert_check::CheckFail;
use lv_base::Memory;
use std::alloc::Global;
use work_claims::{Claimer, Claims};

/// What is known of the logs.
#[derive(Clone, Copy, Debug, PartialEq, Eq)]
pub enum Verdict {
    /// Each refutes its obligation.
    Passed,
    /// The lowest that does not fails so.
    Failed(CheckFail),
    /// Not all obligations were looked at.
    Open,
}

// What was found to fail.
fn failures_of(alloc: Global, task: Task<'_>, worked: &[Worked]) -> Result<Vec<Failure>, Memory>
    requires { All (λ w. IfSome w.failed (IsFailure task.graph.now task.map.now task.logs.now)) worked.now }
    ensures { IfOk result (λ v. All (IsFailure task.entry.graph.now task.entry.map.now task.entry.logs.now) v.items) }
{
    let mut failures = Vec::new(alloc);
    for one in worked {
        if let Some(failure) = one.failed {
            failures.push(failure)?;
        }
    }
    Ok(failures)
}

// The claimers.
fn claimers_of(
    alloc: Global,
    task: Task<'_>,
    claims: &Claims,
    mut worked: Vec<Worked>,
) -> Result<Vec<Claimer>, Memory>
    requires { All (λ w. IsEnded task.graph.now task.map.now task.logs.now claims.now w.me) worked.items }
    ensures count { IfOk result (λ v. vec_len v ≡ vec_len worked) }
    ensures ended { IfOk result (λ v. All (IsEnded task.entry.graph.now task.entry.map.now task.entry.logs.now claims.now) v.items) }
{
    let mut claimers = Vec::new(alloc);
    while let Some(one) = worked.pop() {
        claimers.push(one.me)?;
    }
    Ok(claimers)
}

// How the obligation of this number fails, if that was found.
#[tactic(auto, using(crate::proofs::Judging::at_number))]
fn failure_at(task: Task<'_>, failures: &[Failure], number: u32) -> Option<CheckFail>
    requires { All (IsFailure task.graph.now task.map.now task.logs.now) failures.now }
    ensures { IfSome result (λ fail. IsFailure task.entry.graph.now task.entry.map.now task.entry.logs.now (record { number = number; fail = fail })) }
{
    for failure in failures {
        if failure.number == number {
            return Some(failure.fail);
        }
    }
    None
}

/// What the workers found, once all have ended.
#[tactic(auto, using(crate::proofs::Judging::all_ended, crate::proofs::Judging::all_failed, crate::proofs::Judging::ended_of))]
pub fn judge(
    alloc: Global,
    task: Task<'_>,
    claims: Claims,
    worked: Vec<Worked>,
) -> Result<Verdict, Memory>
    requires few { length task.logs.now ≤ 2147483648 }
    requires count { vec_len worked ≡ (terms claims).workers }
    requires worked { All (IsWorked task.graph.now task.map.now task.logs.now claims) worked.items }
    ensures { IfOk result (IsVerdict task.entry.graph.now task.entry.map.now task.entry.logs.now) }
{
    let failures = failures_of(alloc, task, &worked)?;
    let claimers = claimers_of(alloc, task, &claims, worked)?;
    let closed = claims.close(claimers);
    if closed.lowest == u32::MAX {
        if closed.claimed as usize == task.logs.len() {
            return Ok(Verdict::Passed);
        }
        return Ok(Verdict::Open);
    }
    if closed.lowest >= closed.claimed {
        return Ok(Verdict::Open);
    }
    match failure_at(task, &failures, closed.lowest) {
        Some(fail) => Ok(Verdict::Failed(fail)),
        None => Ok(Verdict::Open),
    }
}
