//! One obligation.
ghost use Rattle.std.specs.Prelude.{◌≡◌, ◌<◌, IfErr, OnOk};
ghost use Rattle.c_graph.specs.Runs.{IsMapOf};
ghost use Rattle.obligations.specs.Questions.{count_of};
ghost use Rattle.cert_check.specs.Answers.{Passes};
ghost use Rattle.cert_check.specs.Causes.{IsLogCause};

use crate::CheckFail;
use c_graph::{Graph, Map};
use obligations::obligation;
use prop::BlastFail;
use resolution_log::{Log, LogFail, check_log};
use std::alloc::Global;

/// Checks that a log refutes the obligation of a number, whose clauses are within the limit on literals.
pub fn check_one(
    alloc: Global,
    graph: &Graph,
    map: &Map,
    log: &Log,
    number: u32,
) -> Result<(), CheckFail>
    requires map { IsMapOf graph.now map.now }
    requires number { number < count_of graph.now }
    ensures passes { OnOk result (Passes graph.now map.now number log.now) }
    ensures cause { IfErr result (IsLogCause graph.now map.now number log.now) }
{
    let clauses = match obligation(alloc, graph, map, number) {
        Ok(clauses) => clauses,
        Err(BlastFail::Over(count)) => return Err(CheckFail::Over(count)),
        Err(BlastFail::Memory) => return Err(CheckFail::Memory),
    };
    let _literals = clauses.literals();
    match check_log(alloc, &clauses, log) {
        Ok(()) => Ok(()),
        Err(LogFail::BadStep(chain)) => Err(CheckFail::BadStep(number, chain)),
        Err(LogFail::NoEmpty) => Err(CheckFail::NoEmpty(number)),
        Err(LogFail::Memory) => Err(CheckFail::Memory),
    }
}
