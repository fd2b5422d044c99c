//! One worker.
ghost use Rattle.std.specs.Prelude.{◌≡◌, ◌<◌, IfErr, OnOk, length};
ghost use Rattle.c_graph.specs.Runs.{IsMapOf};
ghost use Rattle.obligations.specs.Questions.{count_of};
ghost use Rattle.check_workers.specs.Working.{CanWork, IsFailure, IsPassed, IsWorked};

use c_graph::{Graph, Map};
use cert_check::{CheckFail, check_one};
use resolution_log::Log;
use std::alloc::Global;
use work_claims::{Claimer, Claims};

/// Why the log of an obligation is not accepted.
#[derive(Clone, Copy, Debug, PartialEq, Eq)]
pub struct Failure {
    /// The obligation.
    pub number: u32,
    /// What is wrong with it.
    pub fail: CheckFail,
}

/// What one worker did.
#[derive(Drop)]
pub struct Worked {
    /// What it stepped with.
    pub me: Claimer,
    /// The obligation that it found to fail, if any.
    pub failed: Option<Failure>,
}

/// What all workers look at.
#[derive(Clone, Copy)]
pub struct Task<'a> {
    /// The graph.
    pub graph: &'a Graph,
    /// The certificate's map.
    pub map: &'a Map,
    /// The log of each obligation.
    pub logs: &'a [Log],
}

// Checks the log of one obligation.
#[tactic(auto, using(crate::proofs::Judging::passed_at, crate::proofs::Judging::fails_at))]
fn check_at(alloc: Global, task: Task<'_>, number: u32) -> Result<(), CheckFail>
    requires map { IsMapOf task.graph.now task.map.now }
    requires all { length task.logs.now ≡ count_of task.graph.now }
    requires there { number < length task.logs.now }
    ensures passed { OnOk result (IsPassed task.entry.graph.now task.entry.map.now task.entry.logs.now number) }
    ensures failed { IfErr result (λ fail. IsFailure task.entry.graph.now task.entry.map.now task.entry.logs.now (record { number = number; fail = fail })) }
{
    let log = &task.logs[number as usize];
    check_one(alloc, task.graph, task.map, log, number)
}

/// Claims obligations and checks their logs, until none is left, one fails, or a lower one was reported.
#[tactic(auto, using(crate::proofs::Judging::settled_all))]
pub fn work(alloc: Global, task: Task<'_>, claims: &Claims, mut me: Claimer) -> Worked
    requires ready { CanWork task.graph.now task.map.now task.logs.now claims.now me }
    ensures worked { IsWorked task.entry.graph.now task.entry.map.now task.entry.logs.now claims.now result }
{
    for _ in 0..u32::MAX {
        let Some(number) = claims.claim(&mut me) else {
            return Worked { me, failed: None };
        };
        if claims.lowest(&mut me) < number {
            return Worked { me, failed: None };
        }
        if let Err(fail) = check_at(alloc, task, number) {
            claims.report(&mut me, number);
            let failed = Some(Failure { number, fail });
            return Worked { me, failed };
        }
    }
    Worked { me, failed: None }
}
