//! The search: propagate, decide, and learn from each conflict, until an answer stands.

ghost use Rattle.std.specs.Prelude.{◌≡◌, ℕ, ◌+◌, ◌*◌, ◌<◌, ◌≤◌, length, IfOk, Some, None, List, [], slice_get, true, false, MatchOption, MatchResult};
ghost use Rattle.prop.specs.declared.Lit.{Lit};
ghost use Rattle.prop.specs.Steps.{In};
ghost use Rattle.clause_learning.specs.Solve.{IsAnswer, IsFail, IsRefuted, trues_of};
ghost use Rattle.watched_clauses.specs.Kept.{IsFalse};
ghost use Rattle.cdcl_solver.specs.Stops.{IsStop, trail_entries};
ghost use Rattle.cdcl_solver.specs.Search.{StateOf, Rests, IsTurn, IsEnding, IsLonger};

use crate::board::{Board, Settled, Stop, settle, start_over};
use crate::joining::join_learned;
use crate::opening::{set_units, watch_all};
use crate::pacing::{Pace, paced};
use activity_heap::Order;
use clause_learning::{Answer, MOST_PAIRS, SolveFail, trimmed};
use conflict_analysis::{Notes, analyze};
use dense_trail::Trail;
use prop::{Assignment, Clauses};
use resolution_log::{Chain, Log, Pairs, Rows, coded, variables};
use std::alloc::{AllocError, Global};

/// The whole state between two conflicts.
#[derive(Drop)]
pub struct Solver {
    /// The variables that occur, rising; a variable's number is its place.
    pub vars: Vec<u32>,
    /// The clauses with what they watch, and the trail.
    pub board: Board,
    /// The clause so far, while a conflict is analysed.
    pub notes: Notes,
    /// A chain for each learned clause.
    pub log: Log,
    /// How many pairs the log has.
    pub pairs: u64,
    /// When the search starts over.
    pub pace: Pace,
}

/// How a search ends.
#[derive(Drop)]
pub enum Ending {
    /// These variables are true, and all others false, in an assignment that meets every clause.
    Met(Vec<u32>),
    /// The log refutes the clauses.
    Refuted(Log),
    /// The log has as many chains as were allowed.
    Learned(Log),
    /// The pairs of the log reach the limit.
    Heavy(Log),
}

/// What a turn of the search leaves.
#[derive(Drop)]
pub enum Turn {
    /// The search goes on.
    On(Solver),
    /// The search is over.
    Over(Ending),
}

// Learns from the conflict in the clause with this number, above the lowest level.
fn learn_from(
    alloc: Global,
    clauses: &Clauses,
    s: Solver,
    learn: u64,
    limit: u64,
    k: u32,
) -> Result<Turn, AllocError>
    requires state { StateOf clauses.now learn limit s }
    requires deep { 0 < s.board.level }
    requires clash { IsFalse s.board.rows s.board.trail k }
    requires small { limit ≤ 134217728 }
    ensures turn { IfOk result (IsTurn clauses.now learn limit) }
    ensures longer { IfOk result (IsLonger s.log) }
{
    let Solver {
        vars,
        board,
        mut notes,
        mut log,
        pairs,
        pace,
    } = s;
    let a = analyze(
        alloc,
        &vars,
        &board.rows,
        &board.trail,
        board.level,
        &mut notes,
        k,
    )?;
    let total = pairs + a.pairs.len() as u64;
    let Some(uip) = a.uip else { unreachable!() };
    let next = join_learned(&vars, board, &notes, a.gone.as_slice(), uip, a.left)?;
    log.push(Chain {
        first: k,
        pairs: a.pairs,
    })?;
    if log.len() as u64 >= learn {
        return Ok(Turn::Over(Ending::Learned(log)));
    }
    if total >= limit {
        return Ok(Turn::Over(Ending::Heavy(log)));
    }
    Ok(Turn::On(Solver {
        vars,
        board: next,
        notes,
        log,
        pairs: total,
        pace,
    }))
}

// Refutes by a conflict at the lowest level, in the clause with this number.
fn refute(
    alloc: Global,
    clauses: &Clauses,
    vars: &[u32],
    rows: &Rows,
    trail: &Trail,
    notes: &mut Notes,
    mut log: Log,
    learn: u64,
    k: u32,
) -> Result<Ending, AllocError>
    requires state { Rests clauses.now vars.now rows.now 0 trail.now log }
    requires short { length log < learn }
    requires stamps { length notes.old.stamps.items ≡ length vars.now }
    requires clash { IsFalse rows.now trail.now k }
    ensures { IfOk result (λ e. (limit : ℕ) → IsEnding clauses.now learn limit e) }
{
    let a = analyze(alloc, vars, rows, trail, 0, notes, k)?;
    log.push(Chain {
        first: k,
        pairs: a.pairs,
    })?;
    Ok(Ending::Refuted(log))
}

// The variables that the trail makes true.
fn trues(alloc: Global, vars: &[u32], trail: &Trail) -> Result<Vec<u32>, AllocError>
    requires { length trail.now.levels.items ≡ length vars.now }
    ensures { IfOk result (λ r. r.items ≡ trues_of (trail_entries vars.now trail.now)) }
{
    let mut out = Vec::new(alloc);
    for code in trail.codes.as_slice() {
        if *code % 2 == 0 {
            out.push(vars[(*code / 2) as usize])?;
        }
    }
    Ok(out)
}

// To the next conflict, and over it.
fn round(
    alloc: Global,
    clauses: &Clauses,
    s: Solver,
    learn: u64,
    limit: u64,
) -> Result<Turn, AllocError>
    requires state { StateOf clauses.now learn limit s }
    requires small { limit ≤ 134217728 }
    ensures turn { IfOk result (IsTurn clauses.now learn limit) }
    ensures longer { IfOk result (IsLonger s.log) }
{
    let Solver {
        vars,
        board,
        mut notes,
        log,
        pairs,
        pace,
    } = s;
    let Settled { board, stop } = settle(board)?;
    match stop {
        Stop::AllMet => {
            let met = trues(alloc, &vars, &board.trail)?;
            Ok(Turn::Over(Ending::Met(met)))
        }
        Stop::Clash(k) => {
            if board.level == 0 {
                let ending = refute(
                    alloc,
                    clauses,
                    &vars,
                    &board.rows,
                    &board.trail,
                    &mut notes,
                    log,
                    learn,
                    k,
                )?;
                return Ok(Turn::Over(ending));
            }
            let next = Solver {
                vars,
                board,
                notes,
                log,
                pairs,
                pace,
            };
            learn_from(alloc, clauses, next, learn, limit, k)
        }
    }
}

// After a conflict: all decisions are taken back where it is time. What was learned stays.
fn go_on(clauses: &Clauses, s: Solver, learn: u64, limit: u64) -> Result<Solver, AllocError>
    requires { StateOf clauses.now learn limit s }
    ensures state { IfOk result (StateOf clauses.now learn limit) }
    ensures log { IfOk result (λ r. r.log ≡ s.log) }
{
    let Solver {
        vars,
        board,
        notes,
        log,
        pairs,
        pace,
    } = s;
    let next = paced(pace);
    if pace.left > 0 {
        return Ok(Solver {
            vars,
            board,
            notes,
            log,
            pairs,
            pace: next,
        });
    }
    let board = start_over(vars.as_slice(), board)?;
    Ok(Solver {
        vars,
        board,
        notes,
        log,
        pairs,
        pace: next,
    })
}

fn find_empty(clauses: &Clauses) -> Option<u32>
    ensures { MatchOption result ((c : List Lit) → In clauses.now c → c ≡ [] → ⊥) (λ k. slice_get clauses.now k ≡ Some []) }
{
    for number in 0..clauses.len() {
        if clauses.clause(number).is_empty() {
            return Some(number);
        }
    }
    None
}

// The state before the first decision, or a refutation by clauses of one literal.
fn open(alloc: Global, clauses: &Clauses, learn: u64, limit: u64) -> Result<Turn, AllocError>
    requires learn { 0 < learn }
    requires limit { 0 < limit }
    requires some { (c : List Lit) → In clauses.now c → c ≡ [] → ⊥ }
    ensures { IfOk result (IsTurn clauses.now learn limit) }
{
    let _ = clauses.len();
    let vars = variables(alloc, clauses)?;
    let rows = coded(alloc, &vars, clauses)?;
    let made = watch_all(alloc, &rows, 2 * vars.len())?;
    let mut trail = Trail::new(alloc, vars.len())?;
    let mut notes = Notes::new(alloc, vars.len())?;
    let log = Log::new(alloc);
    let clash = set_units(&rows, &made.watches, &mut trail)?;
    if let Some(k) = clash {
        let ending = refute(
            alloc, clauses, &vars, &rows, &trail, &mut notes, log, learn, k,
        )?;
        return Ok(Turn::Over(ending));
    }
    let order = Order::new(alloc, vars.len() as u32)?;
    Ok(Turn::On(Solver {
        vars,
        board: Board {
            rows,
            watches: made.watches,
            lists: made.lists,
            order,
            trail,
            head: 0,
            level: 0,
        },
        notes,
        log,
        pairs: 0,
        pace: Pace {
            turn: 1,
            size: 1,
            left: 100,
        },
    }))
}

// Searches until an answer stands.
fn search(alloc: Global, clauses: &Clauses, learn: u64, limit: u64) -> Result<Ending, AllocError>
    requires learn { 0 < learn }
    requires limit { 0 < limit }
    requires small { limit ≤ 134217728 }
    ensures { IfOk result (IsEnding clauses.now learn limit) }
{
    if let Some(first) = find_empty(clauses) {
        let pairs = Pairs::new(alloc);
        let mut log = Log::new(alloc);
        log.push(Chain { first, pairs })?;
        return Ok(Ending::Refuted(log));
    }
    let mut s = match open(alloc, clauses, learn, limit)? {
        Turn::Over(ending) => return Ok(ending),
        Turn::On(next) => next,
    };
    'rounds: loop {
        match round(alloc, clauses, s, learn, limit)? {
            Turn::Over(ending) => return Ok(ending),
            Turn::On(next) => s = go_on(clauses, next, learn, limit)?,
        }
    }
}

// The answer that an ending is. A refutation is cut to what it needs.
fn answer_of(
    alloc: Global,
    clauses: &Clauses,
    learn: u64,
    limit: u64,
    ending: Ending,
) -> Result<Answer, SolveFail>
    requires { IsEnding clauses.now learn limit ending }
    ensures { MatchResult result (IsAnswer clauses.now learn) (IsFail clauses.now learn limit) }
{
    match ending {
        Ending::Met(vars) => Ok(Answer::Sat(Assignment::from_trues(vars))),
        Ending::Refuted(log) => match trimmed(alloc, clauses, log) {
            Ok(needed) => Ok(Answer::Unsat(needed)),
            Err(_) => Err(SolveFail::Memory),
        },
        Ending::Learned(log) => Ok(Answer::Spent(log)),
        Ending::Heavy(log) => Err(SolveFail::OverLog(log)),
    }
}

/// [`solve`] with a limit on pairs of its own.
pub fn solve_within(
    alloc: Global,
    clauses: &Clauses,
    learn: u64,
    limit: u64,
) -> Result<Answer, SolveFail>
    requires learn { 0 < learn }
    requires limit { 0 < limit }
    requires small { limit ≤ 134217728 }
    ensures answer { MatchResult result (IsAnswer clauses.now learn) (IsFail clauses.now learn limit) }
{
    match search(alloc, clauses, learn, limit) {
        Ok(ending) => answer_of(alloc, clauses, learn, limit, ending),
        Err(_) => Err(SolveFail::Memory),
    }
}

/// Answers an assignment that satisfies all clauses, a lean refutation of at most `learn` chains, or a new log of
/// `learn` chains. Where a new log's pairs reach [`MOST_PAIRS`] with its last chain, and it has fewer chains, that log
/// is the refusal.
pub fn solve(alloc: Global, clauses: &Clauses, learn: u64) -> Result<Answer, SolveFail>
    requires { 0 < learn }
    ensures answer { MatchResult result (IsAnswer clauses.now learn) (IsFail clauses.now learn 134217728) }
{
    solve_within(alloc, clauses, learn, MOST_PAIRS)
}
