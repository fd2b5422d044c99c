//! One worker.
ghost use Rattle.std.specs.Prelude.{◌≡◌, ◌<◌, All};
ghost use Rattle.c_graph.specs.Runs.{IsMapOf};
ghost use Rattle.cert_build.specs.Proofs.{IsProof};
ghost use Rattle.prove_workers.specs.Working.{CanWork, IsWorked};

use c_graph::{Graph, Map};
use cdcl_solver::Answer;
use cert_build::{Stopped, prove_one};
use resolution_log::Log;
use std::alloc::Global;
use work_claims::{Claimer, Claims};

/// What all workers look at.
#[derive(Clone, Copy)]
pub struct Task<'a> {
    /// The graph.
    pub graph: &'a Graph,
    /// The map whose obligations are proved.
    pub map: &'a Map,
    /// The most clauses that a refutation may learn.
    pub learn: u64,
}

/// A refutation of the obligation of a number.
#[derive(Drop)]
pub struct Refuted {
    /// The obligation.
    pub number: u32,
    /// Its refutation.
    pub log: Log,
}

/// What one worker did.
#[derive(Drop)]
pub struct Worked {
    /// The obligations that it refuted.
    pub refuted: Vec<Refuted>,
    /// The one that it did not, if any.
    pub stopped: Option<Stopped>,
}

/// Claims obligations and refutes them, until none is left, one has no refutation, or a lower one was reported.
pub fn work(alloc: Global, task: Task<'_>, claims: &Claims, mut me: Claimer) -> Worked
    requires ready { CanWork task.graph.now task.map.now task.learn claims.now me }
    ensures worked { IsWorked task.entry.graph.now task.entry.map.now task.entry.learn result }
{
    let mut refuted = Vec::new(alloc);
    for _ in 0..u32::MAX {
        let Some(number) = claims.claim(&mut me) else {
            return ended_with(refuted, None);
        };
        if claims.lowest(&mut me) < number {
            return ended_with(refuted, None);
        }
        match prove_one(alloc, task.graph, task.map, number, task.learn) {
            Ok(Answer::Unsat(log)) => {
                if refuted.push(Refuted { number, log }).is_err() {
                    return ended_with(refuted, None);
                }
            }
            answer => {
                claims.report(&mut me, number);
                return ended_with(refuted, Some(Stopped { number, answer }));
            }
        }
    }
    ended_with(refuted, None)
}

fn ended_with(refuted: Vec<Refuted>, stopped: Option<Stopped>) -> Worked
    ensures { result ≡ record { refuted = refuted; stopped = stopped } }
{
    Worked { refuted, stopped }
}
