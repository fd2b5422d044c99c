//! The answer is that of one worker, for any number of them.

use cert_build::Proved;
use cert_check::CheckFail;
use check_workers::check_beside;
use lv_outside::FreeGate;
use prove_workers::prove_beside;
use std::test::*;
use worker_trials::{cert_of, proved, row_graph, row_map, without_logs};

#[test]
fn the_answer_is_that_of_one(rt: HostRuntime) -> Result<(), Fail> {
    let alloc = rt.alloc();
    let graph = row_graph(alloc).map_err(|_| "no graph")?;
    let cert = proved(alloc, &graph).map_err(|_| "no certificate")?;
    let open = proved(alloc, &graph).map_err(|_| "no certificate")?;
    let open = without_logs(alloc, open, 2).map_err(|_| "no certificate")?;
    for workers in [1, 2, 8, 64] {
        assert_eq!(rt;
            check_beside(&rt, alloc, &graph, &cert, workers, &FreeGate),
            Ok(())
        );
        assert_eq!(rt;
            check_beside(&rt, alloc, &graph, &open, workers, &FreeGate),
            Err(CheckFail::NoEmpty(2))
        );
    }
    Ok(())
}

#[test]
fn what_is_proved_is_accepted(rt: HostRuntime) -> Result<(), Fail> {
    let alloc = rt.alloc();
    let graph = row_graph(alloc).map_err(|_| "no graph")?;
    let Ok(map) = row_map(alloc, &graph, &[0, 0, 0, 1]) else {
        return Err("no map".into());
    };
    for workers in [1, 2, 8, 64] {
        let proof = prove_beside(&rt, alloc, &graph, &map, 1_000, workers, &FreeGate).map_err(
            |_| "no proof",
        )?;
        let cert = cert_of(alloc, &map, proof).map_err(|_| "no certificate")?;
        assert_eq!(rt;
            check_beside(&rt, alloc, &graph, &cert, 1, &FreeGate),
            Ok(())
        );
    }
    Ok(())
}

#[test]
fn the_lowest_that_fails_is_told(rt: HostRuntime) -> Result<(), Fail> {
    let alloc = rt.alloc();
    let graph = row_graph(alloc).map_err(|_| "no graph")?;
    let Ok(map) = row_map(alloc, &graph, &[0, 1, 0, 0]) else {
        return Err("no map".into());
    };
    for workers in [1, 2, 8, 64] {
        let proof = prove_beside(&rt, alloc, &graph, &map, 1_000, workers, &FreeGate).map_err(
            |_| "no proof",
        )?;
        assert_eq!(rt; matches!(proof, Proved::Fails(1)), true);
    }
    Ok(())
}
