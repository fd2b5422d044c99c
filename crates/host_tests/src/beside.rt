//! Workers run beside each other.

use cert_build::Proved;
use check_workers::check_beside;
use prove_workers::prove_beside;
use std::test::*;
use worker_trials::{HoldGate, proved, row_graph, row_map};

#[test]
fn workers_run_beside_each_other(rt: HostRuntime) -> Result<(), Fail> {
    let alloc = rt.alloc();
    let graph = row_graph(alloc).map_err(|_| "no graph")?;
    let cert = proved(alloc, &graph).map_err(|_| "no certificate")?;
    let gate = HoldGate::new();
    assert_eq!(rt; check_beside(&rt, alloc, &graph, &cert, 2, &gate), Ok(()));
    assert_eq!(rt; gate.has_seen(), true);
    Ok(())
}

#[test]
fn provers_run_beside_each_other(rt: HostRuntime) -> Result<(), Fail> {
    let alloc = rt.alloc();
    let graph = row_graph(alloc).map_err(|_| "no graph")?;
    let Ok(map) = row_map(alloc, &graph, &[0, 0, 0, 1]) else {
        return Err("no map".into());
    };
    let gate = HoldGate::new();
    let proof = prove_beside(&rt, alloc, &graph, &map, 1_000, 2, &gate).map_err(|_| "no proof")?;
    assert_eq!(rt; matches!(proof, Proved::Logs(_)), true);
    assert_eq!(rt; gate.has_seen(), true);
    Ok(())
}
