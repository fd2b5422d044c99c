//! Refutations of a map's obligations.
ghost use Rattle.std.specs.Prelude.{◌≡◌, ◌<◌, IfErr, IfOk, IfSome, vec_len};
ghost use Rattle.c_graph.specs.Runs.{IsMapOf};
ghost use Rattle.clause_learning.specs.Solve.{IsAnswer};
ghost use Rattle.obligations.specs.Questions.{count_of};
ghost use Rattle.obligations.specs.Stated.{obligation_says};
ghost use Rattle.cert_check.specs.Answers.{IsWithin};
ghost use Rattle.cert_build.specs.Answered.{AreLogs, IsStopped};
ghost use Rattle.cert_build.specs.Proofs.{IsOneCause, IsProved, IsProveCause};

use crate::known_answers::{Stopped, places_for, take_log};
use c_graph::{Graph, Map};
use cdcl_solver::{Answer, QueryFail, SolveFail, solve};
use lv_base::Memory;
use obligations::{obligation, obligation_count};
use prop::BlastFail;
use resolution_log::Log;
use std::alloc::Global;
use std::mem;

/// What came of the proof of a map.
#[derive(Drop)]
pub enum Proved {
    /// A lean refutation of each obligation, in order.
    Logs(Vec<Log>),
    /// This obligation fails in some store: the map is not inductive.
    Fails(u32),
    /// The budget of learned clauses was spent on this obligation, by this log.
    Spent(u32, Log),
}

/// Asks the solver whether the obligation of a number fails.
pub fn prove_one(
    alloc: Global,
    graph: &Graph,
    map: &Map,
    number: u32,
    learn: u64,
) -> Result<Answer, QueryFail>
    requires map { IsMapOf graph.now map.now }
    requires number { number < count_of graph.now }
    requires learn { 0 < learn }
    ensures answer { IfOk result (IsAnswer (obligation_says graph.now map.now number) learn) }
    ensures within { IfOk result (λ _. IsWithin graph.now map.now number) }
    ensures cause { IfErr result (IsOneCause graph.now map.now number learn) }
{
    let clauses = match obligation(alloc, graph, map, number) {
        Ok(clauses) => clauses,
        Err(BlastFail::Over(count)) => return Err(QueryFail::Over(count)),
        Err(BlastFail::Memory) => return Err(QueryFail::Memory),
    };
    let _literals = clauses.literals();
    match solve(alloc, &clauses, learn) {
        Ok(answer) => Ok(answer),
        Err(SolveFail::OverLog(log)) => Err(QueryFail::OverLog(log)),
        Err(SolveFail::Memory) => Err(QueryFail::Memory),
    }
}

// The answer to an obligation where no log of it is there: one that was given, else the solver's.
fn stopped_or_new(
    alloc: Global,
    graph: &Graph,
    map: &Map,
    number: u32,
    learn: u64,
    stopped: Option<Stopped>,
) -> Result<Answer, QueryFail>
    requires map { IsMapOf graph.now map.now }
    requires number { number < count_of graph.now }
    requires learn { 0 < learn }
    requires stopped { IfSome stopped (IsStopped graph.now map.now learn) }
    ensures answer { IfOk result (IsAnswer (obligation_says graph.now map.now number) learn) }
    ensures within { IfOk result (λ _. IsWithin graph.now map.now number) }
    ensures cause { IfErr result (IsOneCause graph.now map.now number learn) }
{
    if let Some(stopped) = stopped {
        if stopped.number == number {
            return stopped.answer;
        }
    }
    prove_one(alloc, graph, map, number, learn)
}

// The answer to an obligation: one that is there, else the solver's.
fn answer_of(
    alloc: Global,
    graph: &Graph,
    map: &Map,
    number: u32,
    learn: u64,
    logs: &mut Vec<Option<Log>>,
    stopped: &mut Option<Stopped>,
) -> Result<Answer, QueryFail>
    requires map { IsMapOf graph.now map.now }
    requires number { number < count_of graph.now }
    requires learn { 0 < learn }
    requires places { vec_len logs.old ≡ count_of graph.now }
    requires logs { AreLogs graph.now map.now learn logs.old.items }
    requires stopped { IfSome stopped.old (IsStopped graph.now map.now learn) }
    ensures answer { IfOk result (IsAnswer (obligation_says graph.now map.now number) learn) }
    ensures within { IfOk result (λ _. IsWithin graph.now map.now number) }
    ensures cause { IfErr result (IsOneCause graph.now map.now number learn) }
    ensures places { vec_len logs.new ≡ count_of graph.now }
    ensures logs { AreLogs graph.now map.now learn logs.new.items }
    ensures stopped { IfSome stopped.new (IsStopped graph.now map.now learn) }
{
    match take_log(logs, number) {
        Some(log) => Ok(Answer::Unsat(log)),
        None => stopped_or_new(
            alloc,
            graph,
            map,
            number,
            learn,
            mem::replace(stopped, None),
        ),
    }
}

/// Refutes the obligations of a map, one after another, each by a lean refutation of at most so many learned clauses. The answer is of the
/// lowest obligation that is not refuted so, if there is one. Logs that are there, each at the place of its obligation, are taken, and so
/// is the answer to the first obligation that has none, if it was given; the solver is asked about the others.
///
/// `Over` says that an obligation's clauses would have too many literals, and how many there are up to the first clause that passes the
/// limit; `OverLog` says that its refutation would have too many steps.
pub fn prove_with(
    alloc: Global,
    graph: &Graph,
    map: &Map,
    learn: u64,
    mut known: Vec<Option<Log>>,
    mut stopped: Option<Stopped>,
) -> Result<Proved, QueryFail>
    requires map { IsMapOf graph.now map.now }
    requires learn { 0 < learn }
    requires places { vec_len known ≡ count_of graph.now }
    requires logs { AreLogs graph.now map.now learn known.items }
    requires stopped { IfSome stopped (IsStopped graph.now map.now learn) }
    ensures proved { IfOk result (IsProved graph.now map.now learn) }
    ensures cause { IfErr result (IsProveCause graph.now map.now learn) }
{
    let mut logs = Vec::new(alloc);
    for number in 0..obligation_count(graph) {
        match answer_of(alloc, graph, map, number, learn, &mut known, &mut stopped)? {
            Answer::Unsat(log) => {
                if logs.push(log).is_err() {
                    return Err(QueryFail::Memory);
                }
            }
            Answer::Sat(_) => return Ok(Proved::Fails(number)),
            Answer::Spent(log) => return Ok(Proved::Spent(number, log)),
        }
    }
    Ok(Proved::Logs(logs))
}

/// Does so where no answer is there.
#[tactic(auto, using(crate::proofs::Finding::none_there))]
pub fn prove(alloc: Global, graph: &Graph, map: &Map, learn: u64) -> Result<Proved, QueryFail>
    requires map { IsMapOf graph.now map.now }
    requires learn { 0 < learn }
    ensures proved { IfOk result (IsProved graph.now map.now learn) }
    ensures cause { IfErr result (IsProveCause graph.now map.now learn) }
{
    match places_for(alloc, obligation_count(graph)) {
        Ok(places) => prove_with(alloc, graph, map, learn, places, None),
        Err(Memory) => Err(QueryFail::Memory),
    }
}
