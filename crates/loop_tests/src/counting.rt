//! A loop that counts to 4, from its source to its certificate: what the method finds of the graph of its blocks is proved, and checked, by
//! workers that run beside each other, and their answer is that of one.

ghost use Rattle.std.specs.Prelude.{◌≤◌, IfOk};
ghost use Rattle.c_graph.specs.Runs.{IsMapOf};

use c_graph::{Graph, Map};
use cert_check::CheckFail;
use cert_text::{Cert, write_cert};
use check_workers::check_beside;
use explore::{Explored, explore};
use invariant_map::extract;
use lv_base::{Model, SourceFail};
use lv_outside::{FreeGate, Gate};
use prove_workers::prove_beside;
use source_graphs::source_blocks;
use std::alloc::Global;
use std::test::*;
use std::thread::Threads;
use worker_trials::{HoldGate, NoCert, cert_of, without_logs};

// The source as producers of tasks write it, with an assertion behind the loop.
const COUNT: &str = "# 1 \"count.c\"
extern void abort(void);
extern void __assert_fail (const char *__assertion, const char *__file,
      unsigned int __line, const char *__function)
     __attribute__ ((__nothrow__ , __leaf__)) __attribute__ ((__noreturn__));
void reach_error() { ((void) sizeof ((0) ? 1 : 0), __extension__ ({ if (0) ; else __assert_fail (\"0\", \"count.c\", 3, __extension__ __PRETTY_FUNCTION__); })); }
void __VERIFIER_assert(int cond) {
  if (!(cond)) {
    ERROR: {reach_error();abort();}
  }
  return;
}
int main() {
  unsigned int i = 0;
  while (i < 4) {
    i++;
  }
  __VERIFIER_assert(i == 4);
  return 0;
}
";

// The most units of the exploration.
const UNITS: u64 = 1_000;

// The most clauses that one question to the solver learns.
const LEARN: u64 = 100_000;

// The graph of the blocks of the loop's source.
fn count_graph(alloc: Global) -> Result<Graph, NoCert> {
    match source_blocks(alloc, COUNT.as_bytes(), Model::Ilp32) {
        Ok(graph) => Ok(graph),
        Err(SourceFail::Memory) => Err(NoCert::Memory),
        Err(_) => Err(NoCert::Refused),
    }
}

// The map of a complete unwinding of a graph.
fn found_map(alloc: Global, graph: &Graph) -> Result<Map, NoCert>
    ensures { IfOk result (λ m. IsMapOf graph.now m) }
{
    match explore(alloc, graph, UNITS, LEARN) {
        Ok(Explored::Complete(unwinding)) => match extract(alloc, graph, &unwinding) {
            Ok(map) => Ok(map),
            Err(_) => Err(NoCert::Memory),
        },
        Ok(_) => Err(NoCert::Refused),
        Err(_) => Err(NoCert::Memory),
    }
}

// The certificate of a map that so many workers prove.
fn proved_by<R: Threads + Sync, G: Gate>(
    rt: &R,
    alloc: Global,
    graph: &Graph,
    map: &Map,
    workers: u32,
    gate: &G,
) -> Result<Cert, NoCert>
    requires map { IsMapOf graph.now map.now }
    requires workers { (1 ≤ workers) × (workers ≤ 64) }
{
    match prove_beside(rt, alloc, graph, map, LEARN, workers, gate) {
        Ok(proof) => cert_of(alloc, map, proof),
        Err(_) => Err(NoCert::Refused),
    }
}

// The text of the certificate of a map that so many workers prove.
fn proof_text<R: Threads + Sync, G: Gate>(
    rt: &R,
    alloc: Global,
    graph: &Graph,
    map: &Map,
    workers: u32,
    gate: &G,
) -> Result<Vec<u8>, NoCert>
    requires map { IsMapOf graph.now map.now }
    requires workers { (1 ≤ workers) × (workers ≤ 64) }
{
    let cert = proved_by(rt, alloc, graph, map, workers, gate)?;
    match write_cert(alloc, &cert) {
        Ok(text) => Ok(text),
        Err(_) => Err(NoCert::Refused),
    }
}

// The answer of so many workers, the first of whom waits for the second, and whether the second came.
fn held_check<R: Threads + Sync>(
    rt: &R,
    alloc: Global,
    graph: &Graph,
    cert: &Cert,
    workers: u32,
) -> (Result<(), CheckFail>, bool)
    requires { (1 ≤ workers) × (workers ≤ 64) }
{
    let gate = HoldGate::new();
    let answer = check_beside(rt, alloc, graph, cert, workers, &gate);
    (answer, gate.has_seen())
}

#[test]
fn checkers_of_a_loop_run_beside_each_other(rt: HostRuntime) -> Result<(), Fail> {
    let alloc = rt.alloc();
    let graph = count_graph(alloc).map_err(|_| "no graph")?;
    let Ok(map) = found_map(alloc, &graph) else {
        return Err("no map".into());
    };
    let cert = proved_by(&rt, alloc, &graph, &map, 1, &FreeGate).map_err(|_| "no certificate")?;
    let open = proved_by(&rt, alloc, &graph, &map, 1, &FreeGate).map_err(|_| "no certificate")?;
    let open = without_logs(alloc, open, 1).map_err(|_| "no certificate")?;
    let whole = check_beside(&rt, alloc, &graph, &cert, 1, &FreeGate);
    let broken = check_beside(&rt, alloc, &graph, &open, 1, &FreeGate);
    assert_eq!(rt; (whole, broken), (Ok(()), Err(CheckFail::NoEmpty(1))));
    for workers in [2, 8, 64] {
        assert_eq!(rt;
            held_check(&rt, alloc, &graph, &cert, workers),
            (whole, true)
        );
        assert_eq!(rt;
            held_check(&rt, alloc, &graph, &open, workers),
            (broken, true)
        );
    }
    Ok(())
}

#[test]
fn provers_of_a_loop_run_beside_each_other(rt: HostRuntime) -> Result<(), Fail> {
    let alloc = rt.alloc();
    let graph = count_graph(alloc).map_err(|_| "no graph")?;
    let Ok(map) = found_map(alloc, &graph) else {
        return Err("no map".into());
    };
    let one = proof_text(&rt, alloc, &graph, &map, 1, &FreeGate).map_err(|_| "no certificate")?;
    for workers in [2, 8, 64] {
        let gate = HoldGate::new();
        let text = proof_text(&rt, alloc, &graph, &map, workers, &gate).map_err(
            |_| "no certificate",
        )?;
        assert!(rt; text.as_slice() == one.as_slice());
        assert_eq!(rt; gate.has_seen(), true);
    }
    Ok(())
}
