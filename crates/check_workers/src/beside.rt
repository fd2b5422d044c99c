//! All workers.
ghost use Rattle.std.specs.Prelude.{◌≡◌, ◌≤◌, All, IfErr, IfOk, OnOk, length, vec_len};
ghost use Rattle.c_graph.specs.Runs.{IsMapOf};
ghost use Rattle.obligations.specs.Questions.{count_of};
ghost use Rattle.cert_check.specs.Answers.{AreRefutations, IsAccepted};
ghost use Rattle.cert_check.specs.Causes.{IsCheckCause, IsLogsCause};
ghost use Rattle.check_workers.specs.Working.{CanWork, IsVerdict, IsWorked};

use crate::verdict::{Verdict, judge};
use crate::worker::{Task, Worked, work};
use c_graph::{Graph, Map};
use cert_check::{CheckFail, check_logs, count_logs, map_of};
use cert_text::Cert;
use lv_base::Memory;
use lv_outside::Gate;
use obligations::obligation_count;
use resolution_log::Log;
use std::alloc::{AllocError, Global};
use std::thread;
use std::thread::Threads;
use work_claims::{Claimer, Claims};

// A worker before it begins: its number, from 0, and what it steps with.
#[derive(Drop)]
struct Seat {
    part: u32,
    me: Claimer,
}

// The workers of these claimers.
fn seats_of(
    alloc: Global,
    task: Task<'_>,
    claims: &Claims,
    mut claimers: Vec<Claimer>,
) -> Result<Vec<Seat>, Memory>
    requires ready { All (CanWork task.graph.now task.map.now task.logs.now claims.now) claimers.items }
    ensures count { IfOk result (λ v. vec_len v ≡ vec_len claimers) }
    ensures ready { IfOk result (λ v. All (λ s. CanWork task.entry.graph.now task.entry.map.now task.entry.logs.now claims.now s.me) v.items) }
{
    let mut seats = Vec::new(alloc);
    let mut part = 0u32;
    while let Some(me) = claimers.pop() {
        seats.push(Seat { part, me })?;
        part = part.saturating_add(1);
    }
    Ok(seats)
}

// Enters the gate, and works.
fn enter_and_work<G: Gate>(
    alloc: Global,
    task: Task<'_>,
    claims: &Claims,
    seat: Seat,
    gate: &G,
) -> Worked
    requires ready { CanWork task.graph.now task.map.now task.logs.now claims.now seat.me }
    ensures worked { IsWorked task.entry.graph.now task.entry.map.now task.entry.logs.now claims.now result }
{
    gate.enter(seat.part);
    work(alloc, task, claims, seat.me)
}

// Each worker in a thread of its own.
fn work_beside<R: Threads + Sync, G: Gate>(
    rt: &R,
    alloc: Global,
    task: Task<'_>,
    claims: &Claims,
    seats: Vec<Seat>,
    gate: &G,
) -> Result<Vec<Worked>, AllocError>
    requires ready { All (λ s. CanWork task.graph.now task.map.now task.logs.now claims.now s.me) seats.items }
    ensures count { IfOk result (λ v. vec_len v ≡ vec_len seats) }
    ensures worked { IfOk result (λ v. All (IsWorked task.entry.graph.now task.entry.map.now task.entry.logs.now claims.now) v.items) }
{
    thread::map_vec(
        rt,
        seats,
        &|seat| -> Worked
            requires { CanWork task.graph.now task.map.now task.logs.now claims.now seat.me }
            ensures { IsWorked task.entry.graph.now task.entry.map.now task.entry.logs.now claims.entry.now result }
        { enter_and_work(alloc, task, claims, seat, gate) },
    )
}

// The verdict of so many workers on the logs.
#[tactic(auto, using(crate::proofs::Judging::all_ready))]
fn checked_beside<R: Threads + Sync, G: Gate>(
    rt: &R,
    alloc: Global,
    task: Task<'_>,
    workers: u32,
    gate: &G,
) -> Result<Verdict, CheckFail>
    requires map { IsMapOf task.graph.now task.map.now }
    requires all { length task.logs.now ≡ count_of task.graph.now }
    requires few { length task.logs.now ≤ 2147483648 }
    requires workers { (1 ≤ workers) × (workers ≤ 64) }
    ensures verdict { IfOk result (IsVerdict task.entry.graph.now task.entry.map.now task.entry.logs.now) }
    ensures memory { IfErr result (λ e. e ≡ CheckFail.Memory) }
{
    let total = task.logs.len() as u32;
    let (claims, claimers) = Claims::new(alloc, total, workers)?;
    let seats = seats_of(alloc, task, &claims, claimers)?;
    let worked = work_beside(rt, alloc, task, &claims, seats, gate)?;
    Ok(judge(alloc, task, claims, worked)?)
}

// Checks the logs. Where the workers' verdict is open the obligations are checked one after another.
fn check_all<R: Threads + Sync, G: Gate>(
    rt: &R,
    alloc: Global,
    task: Task<'_>,
    workers: u32,
    gate: &G,
) -> Result<(), CheckFail>
    requires map { IsMapOf task.graph.now task.map.now }
    requires all { length task.logs.now ≡ count_of task.graph.now }
    requires few { length task.logs.now ≤ 2147483648 }
    requires workers { (1 ≤ workers) × (workers ≤ 64) }
    ensures refuted { OnOk result (AreRefutations task.entry.graph.now task.entry.map.now task.entry.logs.now) }
    ensures cause { IfErr result (IsLogsCause task.entry.graph.now task.entry.map.now task.entry.logs.now) }
{
    match checked_beside(rt, alloc, task, workers, gate)? {
        Verdict::Passed => Ok(()),
        Verdict::Failed(fail) => Err(fail),
        Verdict::Open => check_logs(alloc, task.graph, task.map, task.logs),
    }
}

/// Checks a certificate against a graph, by at most so many workers beside each other, and never more than there are obligations. Worker
/// number k enters the gate as part k before its first claim. The answer is that of `cert_check::check`.
pub fn check_beside<R: Threads + Sync, G: Gate>(
    rt: &R,
    alloc: Global,
    graph: &Graph,
    cert: &Cert,
    workers: u32,
    gate: &G,
) -> Result<(), CheckFail>
    requires workers { (1 ≤ workers) × (workers ≤ 64) }
    ensures accepted { OnOk result (IsAccepted graph.now cert.now) }
    ensures cause { IfErr result (IsCheckCause graph.now cert.now) }
{
    let map = map_of(alloc, graph, cert)?;
    let obligations = obligation_count(graph);
    count_logs(cert, obligations)?;
    let task = Task {
        graph,
        map: &map,
        logs: &cert.logs,
    };
    check_all(rt, alloc, task, workers.min(obligations), gate)
}
