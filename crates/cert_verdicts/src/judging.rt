ghost use Rattle.std.specs.Prelude.{◌≡◌, ◌≤◌};
ghost use Rattle.sha2.specs.Sha256.{sha256};
ghost use Rattle.cert_verdicts.specs.Judged.{IsCertJudged, IsJudged, misfit_for, rejected_for, unread_for};

use c_graph::Graph;
use cert_check::{CheckFail, MapFault};
use cert_check_laws::accepted_is_safe;
use cert_reading::read_cert_by;
use cert_text::Cert;
use check_workers::check_beside;
use lv_base::Model;
use lv_outside::Gate;
use sha2::{Digest, Sha256};
use std::alloc::Global;
use std::thread::Threads;
use stored_text::StoredFail;
use verdicts::{Rejection, Verdict};

/// The answer to a certificate's bytes, for a source, a data model, and the graph that was made of the source. The form comes first, then
/// the hash of the source, then the model, then the map, the number of logs, and the obligations, the lowest first. So many workers share
/// the reading and then the obligations, beside each other, and each enters the gate before its first obligation; how many there are
/// changes no answer.
pub fn judge<R: Threads + Sync, G: Gate>(
    rt: &R,
    alloc: Global,
    graph: &Graph,
    source: &[u8],
    model: Model,
    bytes: &[u8],
    workers: u32,
    gate: &G,
) -> Verdict
    requires workers { (1 ≤ workers) × (workers ≤ 64) }
    ensures { IsJudged graph.now source.now model bytes.now result }
{
    match read_cert_by(rt, alloc, bytes, workers) {
        Ok(cert) => judge_cert(rt, alloc, graph, source, model, &cert, workers, gate),
        Err(fail) => unread(fail),
    }
}

// The answer to bytes that are no certificate.
fn unread(fail: StoredFail) -> Verdict
    ensures { result ≡ unread_for fail }
{
    match fail {
        StoredFail::Format(at) => Verdict::Rejected(Rejection::Format(at)),
        StoredFail::Over(number, count) => Verdict::Over(number, count),
        StoredFail::Memory => Verdict::NoMemory,
    }
}

fn judge_cert<R: Threads + Sync, G: Gate>(
    rt: &R,
    alloc: Global,
    graph: &Graph,
    source: &[u8],
    model: Model,
    cert: &Cert,
    workers: u32,
    gate: &G,
) -> Verdict
    requires workers { (1 ≤ workers) × (workers ≤ 64) }
    ensures { IsCertJudged graph.now source.now model cert.now result }
{
    let hash = Sha256::digest(source);
    if cert.hash != hash {
        return Verdict::Rejected(Rejection::OtherSource(cert.hash, hash));
    }
    if cert.model != model {
        return Verdict::Rejected(Rejection::OtherModel(cert.model, model));
    }
    judge_map(rt, alloc, graph, source, model, cert, workers, gate)
}

// The answer to a certificate of this source and model.
fn judge_map<R: Threads + Sync, G: Gate>(
    rt: &R,
    alloc: Global,
    graph: &Graph,
    source: &[u8],
    model: Model,
    cert: &Cert,
    workers: u32,
    gate: &G,
) -> Verdict
    requires workers { (1 ≤ workers) × (workers ≤ 64) }
    requires hash { cert.now.hash ≡ sha256 source.now }
    requires model { cert.now.model ≡ model }
    ensures { IsCertJudged graph.now source.now model cert.now result }
{
    accepted_is_safe();
    let _entry = graph.entry();
    match check_beside(rt, alloc, graph, cert, workers, gate) {
        Ok(()) => Verdict::Accepted,
        Err(fail) => refused(fail),
    }
}

fn refused(fail: CheckFail) -> Verdict
    ensures { result ≡ rejected_for fail }
{
    match fail {
        CheckFail::WrongMap(fault) => Verdict::Rejected(misfit(fault)),
        CheckFail::Count(stored, wanted) => Verdict::Rejected(Rejection::Count(stored, wanted)),
        CheckFail::BadStep(obligation, step) => {
            Verdict::Rejected(Rejection::BadStep(obligation, step))
        }
        CheckFail::NoEmpty(obligation) => Verdict::Rejected(Rejection::NoEmpty(obligation)),
        CheckFail::Over(count) => Verdict::Over(6, count),
        CheckFail::Memory => Verdict::NoMemory,
    }
}

fn misfit(fault: MapFault) -> Rejection
    ensures { result ≡ misfit_for fault }
{
    match fault {
        MapFault::Layout(stored, wanted) => Rejection::Layout(stored, wanted),
        MapFault::Nodes(stored, wanted) => Rejection::Nodes(stored, wanted),
        MapFault::Term(number) => Rejection::Term(number),
        MapFault::Formula(node) => Rejection::Formula(node),
    }
}
