//! All workers.
ghost use Rattle.std.specs.Prelude.{◌≡◌, ◌⊎◌, ◌<◌, ◌≤◌, All, IfErr, IfOk, IfSome, vec_len};
ghost use Rattle.c_graph.specs.Runs.{IsMapOf};
ghost use Rattle.obligations.specs.Questions.{count_of};
ghost use Rattle.cert_build.specs.Answered.{AreLogs, IsStopped};
ghost use Rattle.cert_build.specs.Proofs.{IsProved, IsProveCause};
ghost use Rattle.prove_workers.specs.Working.{CanWork, IsWorked, Proves};

use crate::worker::{Refuted, Task, Worked, work};
use c_graph::{Graph, Map};
use cdcl_solver::QueryFail;
use cert_build::{Proved, Stopped, place_log, places_for, prove_with};
use lv_base::Memory;
use lv_outside::Gate;
use obligations::obligation_count;
use resolution_log::Log;
use std::alloc::{AllocError, Global};
use std::thread;
use std::thread::Threads;
use work_claims::{Claimer, Claims};

// A worker before it begins: its number, from 0, and what it steps with.
#[derive(Drop)]
struct Seat {
    part: u32,
    me: Claimer,
}

// The workers of these claimers.
fn seats_of(
    alloc: Global,
    task: Task<'_>,
    claims: &Claims,
    mut claimers: Vec<Claimer>,
) -> Result<Vec<Seat>, Memory>
    requires ready { All (CanWork task.graph.now task.map.now task.learn claims.now) claimers.items }
    ensures ready { IfOk result (λ v. All (λ s. CanWork task.entry.graph.now task.entry.map.now task.entry.learn claims.now s.me) v.items) }
{
    let mut seats = Vec::new(alloc);
    let mut part = 0u32;
    while let Some(me) = claimers.pop() {
        seats.push(Seat { part, me })?;
        part = part.saturating_add(1);
    }
    Ok(seats)
}

// Enters the gate, and works.
fn enter_and_work<G: Gate>(
    alloc: Global,
    task: Task<'_>,
    claims: &Claims,
    seat: Seat,
    gate: &G,
) -> Worked
    requires ready { CanWork task.graph.now task.map.now task.learn claims.now seat.me }
    ensures worked { IsWorked task.entry.graph.now task.entry.map.now task.entry.learn result }
{
    gate.enter(seat.part);
    work(alloc, task, claims, seat.me)
}

// Each worker in a thread of its own.
fn work_beside<R: Threads + Sync, G: Gate>(
    rt: &R,
    alloc: Global,
    task: Task<'_>,
    claims: &Claims,
    seats: Vec<Seat>,
    gate: &G,
) -> Result<Vec<Worked>, AllocError>
    requires ready { All (λ s. CanWork task.graph.now task.map.now task.learn claims.now s.me) seats.items }
    ensures worked { IfOk result (λ v. All (IsWorked task.entry.graph.now task.entry.map.now task.entry.learn) v.items) }
{
    thread::map_vec(
        rt,
        seats,
        &|seat| -> Worked
            requires { CanWork task.graph.now task.map.now task.learn claims.now seat.me }
            ensures { IsWorked task.entry.graph.now task.entry.map.now task.entry.learn result }
        { enter_and_work(alloc, task, claims, seat, gate) },
    )
}

// The logs of one worker get to their places.
#[tactic(auto, using(crate::proofs::Placing::placed))]
fn place_all(task: Task<'_>, logs: &mut Vec<Option<Log>>, mut refuted: Vec<Refuted>)
    requires proves { All (Proves task.graph.now task.map.now task.learn) refuted.items }
    requires places { vec_len logs.old ≡ count_of task.graph.now }
    requires logs { AreLogs task.graph.now task.map.now task.learn logs.old.items }
    ensures places { vec_len logs.new ≡ count_of task.entry.graph.now }
    ensures logs { AreLogs task.entry.graph.now task.entry.map.now task.entry.learn logs.new.items }
{
    while let Some(one) = refuted.pop() {
        place_log(logs, one.number, one.log);
    }
}

// Of two answers that of the lower obligation.
fn lower(one: Option<Stopped>, other: Option<Stopped>) -> Option<Stopped>
    ensures { (result ≡ one) ⊎ (result ≡ other) }
{
    let (Some(first), Some(second)) = (&one, &other) else {
        return if one.is_some() { one } else { other };
    };
    if first.number < second.number {
        one
    } else {
        other
    }
}

/// What all workers found: logs at the places of their obligations, and the answer to the lowest obligation that was not refuted.
#[derive(Drop)]
struct Gathered {
    logs: Vec<Option<Log>>,
    stopped: Option<Stopped>,
}

// Puts together what the workers found.
fn put_together(task: Task<'_>, places: Vec<Option<Log>>, mut all: Vec<Worked>) -> Gathered
    requires worked { All (IsWorked task.graph.now task.map.now task.learn) all.items }
    requires places { vec_len places ≡ count_of task.graph.now }
    requires logs { AreLogs task.graph.now task.map.now task.learn places.items }
    ensures places { vec_len result.logs ≡ count_of task.entry.graph.now }
    ensures logs { AreLogs task.entry.graph.now task.entry.map.now task.entry.learn result.logs.items }
    ensures stopped { IfSome result.stopped (IsStopped task.entry.graph.now task.entry.map.now task.entry.learn) }
{
    let mut logs = places;
    let mut lowest = None;
    while let Some(worked) = all.pop() {
        place_all(task, &mut logs, worked.refuted);
        lowest = lower(lowest, worked.stopped);
    }
    Gathered {
        logs,
        stopped: lowest,
    }
}

// What so many workers found.
#[tactic(auto, using(crate::proofs::Seating::all_ready))]
fn gathered_beside<R: Threads + Sync, G: Gate>(
    rt: &R,
    alloc: Global,
    task: Task<'_>,
    workers: u32,
    gate: &G,
) -> Result<Gathered, Memory>
    requires map { IsMapOf task.graph.now task.map.now }
    requires learn { 0 < task.learn }
    requires workers { (1 ≤ workers) × (workers ≤ 64) }
    ensures places { IfOk result (λ r. vec_len r.logs ≡ count_of task.entry.graph.now) }
    ensures logs { IfOk result (λ r. AreLogs task.entry.graph.now task.entry.map.now task.entry.learn r.logs.items) }
    ensures stopped { IfOk result (λ r. IfSome r.stopped (IsStopped task.entry.graph.now task.entry.map.now task.entry.learn)) }
{
    let obligations = obligation_count(task.graph);
    let places = places_for(alloc, obligations)?;
    let (claims, claimers) = Claims::new(alloc, obligations, workers.min(obligations))?;
    let seats = seats_of(alloc, task, &claims, claimers)?;
    let worked = work_beside(rt, alloc, task, &claims, seats, gate)?;
    Ok(put_together(task, places, worked))
}

/// Refutes the obligations of a map, by at most so many workers beside each other, and never more than there are obligations. Worker
/// number k enters the gate as part k before its first claim. The promise is that of `cert_build::prove`.
pub fn prove_beside<R: Threads + Sync, G: Gate>(
    rt: &R,
    alloc: Global,
    graph: &Graph,
    map: &Map,
    learn: u64,
    workers: u32,
    gate: &G,
) -> Result<Proved, QueryFail>
    requires map { IsMapOf graph.now map.now }
    requires learn { 0 < learn }
    requires workers { (1 ≤ workers) × (workers ≤ 64) }
    ensures proved { IfOk result (IsProved graph.now map.now learn) }
    ensures cause { IfErr result (IsProveCause graph.now map.now learn) }
{
    let task = Task { graph, map, learn };
    match gathered_beside(rt, alloc, task, workers, gate) {
        Ok(Gathered { logs, stopped }) => prove_with(alloc, graph, map, learn, logs, stopped),
        Err(Memory) => Err(QueryFail::Memory),
    }
}
