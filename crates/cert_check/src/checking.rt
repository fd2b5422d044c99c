//! The check of a certificate.
ghost use Rattle.std.specs.Prelude.{◌≡◌, ◌≤◌, length, IfErr, OnOk};
ghost use Rattle.c_graph.specs.Runs.{IsMapOf};
ghost use Rattle.obligations.specs.Questions.{count_of};
ghost use Rattle.cert_check.specs.Answers.{AreRefutations, IsAccepted};
ghost use Rattle.cert_check.specs.Causes.{IsCheckCause, IsLogsCause};

use crate::CheckFail;
use crate::map::{count_logs, map_of};
use crate::one::check_one;
use c_graph::{Graph, Map};
use cert_text::Cert;
use obligations::obligation_count;
use resolution_log::Log;
use std::alloc::Global;

/// Checks the obligations, one after another.
pub fn check_logs(alloc: Global, graph: &Graph, map: &Map, logs: &[Log]) -> Result<(), CheckFail>
    requires map { IsMapOf graph.now map.now }
    requires all { length logs.now ≡ count_of graph.now }
    requires few { length logs.now ≤ 2147483648 }
    ensures refuted { OnOk result (AreRefutations graph.now map.now logs.now) }
    ensures cause { IfErr result (IsLogsCause graph.now map.now logs.now) }
{
    for (number, log) in logs.iter().enumerate() {
        check_one(alloc, graph, map, log, number as u32)?;
    }
    Ok(())
}

/// Checks a certificate against a graph: the map fits, and each log refutes its obligation. What of the map does not fit comes first,
/// the lowest number first; then the number of logs; then the lowest obligation that fails. Clauses past the limit and want of memory end
/// the check where they come.
pub fn check(alloc: Global, graph: &Graph, cert: &Cert) -> Result<(), CheckFail>
    ensures accepted { OnOk result (IsAccepted graph.now cert.now) }
    ensures cause { IfErr result (IsCheckCause graph.now cert.now) }
{
    let map = map_of(alloc, graph, cert)?;
    let obligations = obligation_count(graph);
    count_logs(cert, obligations)?;
    check_logs(alloc, graph, &map, &cert.logs)
}
