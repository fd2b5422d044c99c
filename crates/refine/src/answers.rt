ghost use Rattle.std.specs.Prelude.{◌≡◌, ◌<◌, MatchResult};
ghost use Rattle.clause_learning.specs.declared.QueryFail.TheVariants.{Memory as NoMemory};
ghost use Rattle.clause_learning.specs.Solve.{IsAnswer};
ghost use Rattle.refine.specs.Refusals.{IsRefused, without_clauses};

use cdcl_solver::{Answer, QueryFail, SolveFail, solve};
use lv_base::Memory;
use prop::{BlastFail, Clauses};
use resolution_log::Log;
use std::alloc::Global;
use std::marker::Model;

/// Input values in order. Contracts see the list of them.
#[derive(Drop)]
pub struct Values {
    items: Vec<i128>,
}

impl Model for Values {
    ghost use Rattle.std.specs.Prelude.{List, ℤ};

    ghost Value = { List ℤ };

    ghost view = { λ v. v.items.items };
}

impl Values {
    /// The values of a list. It takes no memory.
    pub fn new(items: Vec<i128>) -> Values
        ensures { result ≡ items.items }
    {
        Values { items }
    }

    /// The values in order.
    pub fn as_slice(&self) -> &[i128]
        ensures { result.now ≡ self.now }
    {
        &self.items
    }
}

/// What became of an error leaf.
#[derive(Drop)]
pub enum Refined {
    /// No run follows its path: the path was strengthened by the formulas of this refutation.
    Strengthened(Log),
    /// These input values drive the path to its error.
    Feasible(Values),
    /// The budget of learned clauses was spent on the question.
    Spent(Log),
}

/// What became of a pair.
#[derive(Drop)]
pub enum Settled {
    /// The first label implies the second: the pair was added.
    Covered,
    /// A store meets the first label and not the second.
    Apart,
    /// The budget of learned clauses was spent on the question.
    Spent(Log),
}

/// What want of memory is for a question.
pub fn no_memory(_: Memory) -> QueryFail
    ensures { result ≡ NoMemory }
{
    QueryFail::Memory
}

/// What a failure to make clauses is for a question.
pub fn no_clauses(fail: BlastFail) -> QueryFail
    ensures { result ≡ without_clauses fail }
{
    match fail {
        BlastFail::Over(count) => QueryFail::Over(count),
        BlastFail::Memory => QueryFail::Memory,
    }
}

/// Asks the solver.
pub fn answer_to(alloc: Global, clauses: &Clauses, learn: u64) -> Result<Answer, QueryFail>
    requires { 0 < learn }
    ensures { MatchResult result (IsAnswer clauses.now learn) (IsRefused clauses.now learn) }
{
    match solve(alloc, clauses, learn) {
        Ok(answer) => Ok(answer),
        Err(SolveFail::OverLog(log)) => Err(QueryFail::OverLog(log)),
        Err(SolveFail::Memory) => Err(QueryFail::Memory),
    }
}
