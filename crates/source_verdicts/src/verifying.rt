ghost use Rattle.std.specs.Prelude.{◌≡◌, ◌<◌, ◌≤◌, ◌*◌, ◌^◌, length};
ghost use Rattle.c_typed.specs.Parts.{tree_of};
ghost use Rattle.program_graphs.specs.Returning.{ErrorsReturn};
ghost use Rattle.source_verdicts.specs.Verified.{IsVerifiedAs};

use crate::certifying::certified;
use crate::found::Found;
use crate::replaying::replayed;
use c_graph::Graph;
use c_rules::Examined;
use clause_learning::MOST_PAIRS;
use drawn_value_laws::{drawn_are_words, errors_meet};
use explore::{Explored, explore_watched};
use lv_base::Model;
use lv_outside::Gate;
use std::alloc::Global;
use std::thread::Threads;
use verdicts::Verdict;

/// What a verification may spend: units of the method, learned clauses of a question, and workers for the proofs of a certificate.
#[derive(Clone, Copy)]
pub struct Budget {
    pub units: u64,
    pub learn: u64,
    pub workers: u32,
}

/// The verdict on a source, by its typed tree and the graph that was made of it. Without units or learned clauses nothing is tried.
pub fn verify<R: Threads + Sync, G: Gate>(
    rt: &R,
    alloc: Global,
    examined: &Examined,
    graph: &Graph,
    source: &[u8],
    model: Model,
    budget: Budget,
    gate: &G,
) -> (Verdict, Found)
    requires small { length source.now ≤ 2 ^ 20 }
    requires workers { (1 ≤ budget.workers) × (budget.workers ≤ 64) }
    requires back { ErrorsReturn (tree_of examined.now.typed) graph.now }
    ensures { IsVerifiedAs (tree_of examined.now.typed) graph.now source.now model budget.units budget.learn result }
{
    if budget.units == 0 {
        return (Verdict::OutOfUnits(0), Found::Nothing);
    }
    if budget.learn == 0 {
        return (Verdict::OutOfLearn(0), Found::Nothing);
    }
    explored(rt, alloc, examined, graph, source, model, budget, gate)
}

fn explored<R: Threads + Sync, G: Gate>(
    rt: &R,
    alloc: Global,
    examined: &Examined,
    graph: &Graph,
    source: &[u8],
    model: Model,
    budget: Budget,
    gate: &G,
) -> (Verdict, Found)
    requires small { length source.now ≤ 2 ^ 20 }
    requires workers { (1 ≤ budget.workers) × (budget.workers ≤ 64) }
    requires units { 0 < budget.units }
    requires learn { 0 < budget.learn }
    requires back { ErrorsReturn (tree_of examined.now.typed) graph.now }
    ensures { IsVerifiedAs (tree_of examined.now.typed) graph.now source.now model budget.units budget.learn result }
{
    drawn_are_words();
    errors_meet();
    let _entry = graph.entry();
    match explore_watched(alloc, graph, budget.units, budget.learn, gate) {
        Ok(Explored::Complete(unwinding)) => {
            certified(rt, alloc, graph, source, model, &unwinding, budget, gate)
        }
        Ok(Explored::Feasible(unwinding, values)) => {
            let turns = turns_for(unwinding.count());
            replayed(alloc, examined, source, values.as_slice(), turns)
        }
        Ok(Explored::Units(_)) => (Verdict::OutOfUnits(budget.units), Found::Nothing),
        Ok(Explored::Learned(_unwinding, _log)) => (
            Verdict::OutOfLearn(budget.learn),
            Found::Nothing,
        ),
        Ok(Explored::Over(_unwinding, count)) => (Verdict::Over(6, count), Found::Nothing),
        Ok(Explored::OverLog(_unwinding, _log)) => (Verdict::Over(7, MOST_PAIRS), Found::Nothing),
        Err(_) => (Verdict::NoMemory, Found::Nothing),
    }
}

// A path has no more edges than there are vertices, an edge is a walk that goes over each node at most once, and a run takes no more turns
// than its walk has steps. So many turns are always enough, and no run of a path's values takes them all.
fn turns_for(vertices: u32) -> u64
    ensures { result ≡ 2147483647 * vertices }
{
    2_147_483_647 * u64::from(vertices)
}
