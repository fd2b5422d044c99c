//! Asks the solver, and lets the checker read each refutation.

ghost use Rattle.std.specs.Prelude.{ℕ, ◌≡◌, ◌<◌, min, IfOk};
ghost use Rattle.clause_learning.specs.Solve.{pairs_of};
ghost use Rattle.resolution_log.specs.Chains.{IsRefutation};
ghost use Rattle.dimacs.specs.Dimacs.{IsTold, status_of};

use cdcl_solver::{Answer, SolveFail, solve};
use prop::{Assignment, Clauses};
use resolution_log::{Log, LogFail, check_log, laws};
use std::alloc::{AllocError, Global};

/// What is known of some clauses, with how many chains and pairs the log of it has.
#[derive(Drop)]
pub enum Told {
    /// An assignment that satisfies them.
    Satisfiable(Assignment),
    /// There is none: the checker accepted a refutation of this size.
    Unsatisfiable(u64, u64),
    /// The budget was spent.
    Unknown(u64, u64),
}

impl Told {
    /// The status that solvers end with.
    pub fn status(&self) -> u8
        ensures { result ≡ status_of self.now }
    {
        match self {
            Told::Satisfiable(_) => 10,
            Told::Unsatisfiable(_, _) => 20,
            Told::Unknown(_, _) => 0,
        }
    }
}

// How many pairs a log has, as far as a count of 64 bits goes.
fn pairs(log: &Log) -> u64
    ensures { result ≡ min (pairs_of log.now) 18446744073709551615 }
{
    let mut pairs = 0u64;
    let chains = log.chains();
    for chain in chains {
        pairs = pairs.saturating_add(chain.pairs.len() as u64);
    }
    pairs
}

// What the checker says of a refutation.
fn refuted(alloc: Global, clauses: &Clauses, log: &Log) -> Result<Told, AllocError>
    requires { IsRefutation clauses.now log.now }
    ensures { IfOk result (λ t. (learn : ℕ) → IsTold clauses.now learn t) }
{
    match check_log(alloc, clauses, log) {
        Ok(()) => Ok(Told::Unsatisfiable(log.len() as u64, pairs(log))),
        Err(LogFail::Memory) => Err(AllocError),
        Err(LogFail::BadStep(_)) => unreachable!(),
        Err(LogFail::NoEmpty) => unreachable!(),
    }
}

/// Solves clauses with a budget of learned clauses.
pub fn tell(alloc: Global, clauses: &Clauses, learn: u64) -> Result<Told, AllocError>
    requires { 0 < learn }
    ensures told { IfOk result (IsTold clauses.now learn) }
{
    laws::lean_refutes();
    match solve(alloc, clauses, learn) {
        Ok(Answer::Sat(assignment)) => Ok(Told::Satisfiable(assignment)),
        Ok(Answer::Unsat(log)) => refuted(alloc, clauses, &log),
        Ok(Answer::Spent(log)) | Err(SolveFail::OverLog(log)) => {
            Ok(Told::Unknown(log.len() as u64, pairs(&log)))
        }
        Err(SolveFail::Memory) => Err(AllocError),
    }
}
