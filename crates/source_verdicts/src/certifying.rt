ghost use Rattle.std.specs.Prelude.{◌≡◌, ◌<◌, ◌≤◌, ℕ, length, true};
ghost use Rattle.sha2.specs.Sha256.{sha256};
ghost use Rattle.c_graph.specs.Runs.{IsMapOf};
ghost use Rattle.c_graph.specs.Shape.{widths_of};
ghost use Rattle.cert_build.specs.Proofs.{AreProofs};
ghost use Rattle.cert_check.specs.Answers.{IsAccepted};
ghost use Rattle.cover_engine.specs.Unwindings.{is_complete};
ghost use Rattle.cover_engine.specs.Units.{Legal};
ghost use Rattle.cover_engine.specs.Steering.{Steered};
ghost use Rattle.obligation_laws.specs.Laws.{AllRefuted};
ghost use Rattle.c_typed.specs.Tree.{Program};
ghost use Rattle.source_verdicts.specs.Verified.{IsByMap, IsExtracted, IsOfMap, IsVerified, IsVerifiedAs};

use crate::found::Found;
use crate::unwritten::unwritten;
use crate::verifying::Budget;
use c_graph::{Graph, Map};
use cdcl_solver::QueryFail;
use cert_build::{Proved, certificate};
use cert_check_laws::accepted_is_safe;
use cert_text::{Cert, write_cert};
use certificate_laws::written_is_read;
use clause_learning::MOST_PAIRS;
use cover_engine::Unwinding;
use invariant_map::extract;
use lv_base::{Model, Text};
use lv_outside::Gate;
use map_laws::extracted_is_inductive;
use obligation_laws::inductive_exact;
use prove_workers::prove_beside;
use resolution_log::Log;
use sha2::{Digest, Sha256};
use std::alloc::Global;
use std::thread::Threads;
use verdicts::Verdict;

/// The verdict on a complete unwinding: each obligation of its map is refuted, and the certificate of that is written. Since the map is
/// inductive, no obligation fails.
pub(crate) fn certified<R: Threads + Sync, G: Gate>(
    rt: &R,
    alloc: Global,
    graph: &Graph,
    source: &[u8],
    model: Model,
    unwinding: &Unwinding,
    budget: Budget,
    gate: &G,
) -> (Verdict, Found)
    requires cells { unwinding.now.terms.cells ≡ widths_of graph.now.cells }
    requires legal { Legal graph.now unwinding.now }
    requires steered { Steered graph.now unwinding.now }
    requires complete { is_complete graph.now unwinding.now ≡ true }
    requires learn { 0 < budget.learn }
    requires workers { (1 ≤ budget.workers) × (budget.workers ≤ 64) }
    ensures { (p : Program) (units : ℕ) → length unwinding.now.journal ≤ units → IsVerifiedAs p graph.now source.now model units budget.learn result }
{
    extracted_is_inductive();
    inductive_exact();
    let _entry = graph.entry();
    let _cells = unwinding.terms().cells();
    match extract(alloc, graph, unwinding) {
        Ok(map) => {
            let _widths = map.terms().cells();
            let verdict = proved(rt, alloc, graph, source, model, &map, budget, gate);
            (verdict, Found::OfMap(map))
        }
        Err(_) => (Verdict::NoMemory, Found::Nothing),
    }
}

fn proved<R: Threads + Sync, G: Gate>(
    rt: &R,
    alloc: Global,
    graph: &Graph,
    source: &[u8],
    model: Model,
    map: &Map,
    budget: Budget,
    gate: &G,
) -> Verdict
    requires map { IsMapOf graph.now map.now }
    requires refuted { AllRefuted graph.now map.now }
    requires learn { 0 < budget.learn }
    requires workers { (1 ≤ budget.workers) × (budget.workers ≤ 64) }
    ensures { ((p : Program) (units : ℕ) → IsExtracted graph.now units map.now → IsVerified p graph.now source.now model units budget.learn result) × IsByMap graph.now source.now model map.now result }
{
    let (learn, workers) = (budget.learn, budget.workers);
    match prove_beside(rt, alloc, graph, map, learn, workers, gate) {
        Ok(Proved::Logs(logs)) => stored(alloc, graph, source, model, map, logs, learn),
        Ok(Proved::Fails(_number)) => unreachable!(),
        Ok(Proved::Spent(_number, _log)) => Verdict::OutOfLearn(learn),
        Err(QueryFail::Over(count)) => Verdict::Over(6, count),
        Err(QueryFail::OverLog(_log)) => Verdict::Over(7, MOST_PAIRS),
        Err(QueryFail::Memory) => Verdict::NoMemory,
    }
}

fn stored(
    alloc: Global,
    graph: &Graph,
    source: &[u8],
    model: Model,
    map: &Map,
    logs: Vec<Log>,
    learn: u64,
) -> Verdict
    requires map { IsMapOf graph.now map.now }
    requires proofs { AreProofs graph.now map.now learn logs.items }
    ensures { ((p : Program) (units : ℕ) → IsExtracted graph.now units map.now → IsVerified p graph.now source.now model units learn result) × IsByMap graph.now source.now model map.now result }
{
    match certificate(alloc, Sha256::digest(source), model, map, logs) {
        Ok(cert) => written(alloc, graph, source, model, map, &cert, learn),
        Err(_) => Verdict::NoMemory,
    }
}

// The text of a certificate that is accepted, which is made of this map.
fn written(
    alloc: Global,
    graph: &Graph,
    _source: &[u8],
    _model: Model,
    _map: &Map,
    cert: &Cert,
    _learn: u64,
) -> Verdict
    requires hash { cert.now.hash ≡ sha256 _source.now }
    requires model { cert.now.model ≡ _model }
    requires of_map { IsOfMap graph.now _learn _map.now cert.now }
    requires accepted { IsAccepted graph.now cert.now }
    ensures { ((p : Program) (units : ℕ) → IsExtracted graph.now units _map.now → IsVerified p graph.now _source.now _model units _learn result) × IsByMap graph.now _source.now _model _map.now result }
{
    accepted_is_safe();
    written_is_read();
    let _entry = graph.entry();
    match write_cert(alloc, cert) {
        Ok(text) => Verdict::Safe(Text::new(text)),
        Err(fail) => unwritten(fail),
    }
}
