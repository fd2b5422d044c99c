//! A graph of three nodes in a row and an error to which none leads, and its certificate: true everywhere but at the error.

ghost use Rattle.std.specs.Prelude.{IfOk};
ghost use Rattle.c_graph.specs.Runs.{IsMapOf};

use bv_term::{Term, Terms};
use c_graph::{Edge, Graph, Map, Node, NodeId, Operations, graph_from};
use cert_build::{Proved, certificate, prove};
use cert_check::map_of;
use cert_text::Cert;
use lv_base::{ErrorKind, Memory, Model};
use resolution_log::Log;
use std::alloc::{AllocError, Global};

/// Why there is no certificate.
#[derive(Clone, Copy, Debug, PartialEq)]
pub enum NoCert {
    /// Memory ran out.
    Memory,
    /// The map was refused, or has no proof.
    Refused,
}

impl From<AllocError> for NoCert {
    fn from(_: AllocError) -> NoCert {
        NoCert::Memory
    }
}

impl From<Memory> for NoCert {
    fn from(_: Memory) -> NoCert {
        NoCert::Memory
    }
}

// An edge that does nothing.
fn step(alloc: Global, from: u32, to: u32) -> Edge {
    Edge {
        from: NodeId(from),
        to: NodeId(to),
        ops: Operations::new(Vec::new(alloc)),
    }
}

/// The graph.
pub fn row_graph(alloc: Global) -> Result<Graph, NoCert> {
    let nodes = [
        Node::Plain,
        Node::Plain,
        Node::End,
        Node::Error(ErrorKind::Reach, 0),
    ];
    let mut edges = Vec::with_capacity(alloc, 2)?;
    let _ = edges.push(step(alloc, 0, 1));
    let _ = edges.push(step(alloc, 1, 2));
    let terms = Terms::new(alloc, Vec::new(alloc));
    let nodes = nodes.to_vec(alloc)?;
    Ok(graph_from(
        alloc,
        nodes,
        edges,
        Vec::new(alloc),
        terms,
        NodeId(0),
        Vec::new(alloc),
    )?)
}

// A map, without logs: term 0 is true, term 1 is false.
fn unproved(alloc: Global, formulas: &[u32]) -> Result<Cert, NoCert> {
    Ok(Cert {
        hash: [0; 32],
        model: Model::Ilp32,
        layout: 2,
        terms: [Term::Constant(1, 1), Term::Constant(1, 0)].to_vec(alloc)?,
        formulas: formulas.to_vec(alloc)?,
        logs: Vec::new(alloc),
    })
}

/// The map with one of the terms true and false, by number, at each node of the graph.
pub fn row_map(alloc: Global, graph: &Graph, formulas: &[u32]) -> Result<Map, NoCert>
    ensures { IfOk result (λ m. IsMapOf graph.now m) }
{
    let Ok(map) = map_of(alloc, graph, &unproved(alloc, formulas)?) else {
        return Err(NoCert::Refused);
    };
    Ok(map)
}

/// The certificate of a map and its proof.
pub fn cert_of(alloc: Global, map: &Map, proof: Proved) -> Result<Cert, NoCert> {
    match proof {
        Proved::Logs(logs) => Ok(certificate(alloc, [0; 32], Model::Ilp32, map, logs)?),
        _ => Err(NoCert::Refused),
    }
}

/// The certificate of the graph.
pub fn proved(alloc: Global, graph: &Graph) -> Result<Cert, NoCert> {
    let map = row_map(alloc, graph, &[0, 0, 0, 1])?;
    match prove(alloc, graph, &map, 1_000) {
        Ok(proof) => cert_of(alloc, &map, proof),
        Err(_) => Err(NoCert::Refused),
    }
}

/// The certificate with empty logs from this obligation on.
pub fn without_logs(alloc: Global, cert: Cert, from: usize) -> Result<Cert, NoCert> {
    let count = cert.logs.len();
    let mut logs = cert.logs;
    logs.truncate(from);
    for _ in from..count {
        logs.push(Log::new(alloc)).map_err(|_| NoCert::Memory)?;
    }
    Ok(Cert {
        hash: cert.hash,
        model: cert.model,
        layout: cert.layout,
        terms: cert.terms,
        formulas: cert.formulas,
        logs,
    })
}
