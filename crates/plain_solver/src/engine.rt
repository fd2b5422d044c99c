//! The search: propagate, decide, and learn from each conflict, until an answer stands.

ghost use Rattle.std.specs.Prelude.{◌≡◌, ℕ, ◌+◌, ◌-◌, ◌++◌, ◌∷◌, [], ◌<◌, ◌≤◌, ◌^◌, length, IfOk, OnErr, Some, None, List, slice_get, true, false, MatchOption, MatchResult};
ghost use Rattle.prop.specs.declared.Lit.{Lit};
ghost use Rattle.prop.specs.Steps.{In, Has};
ghost use Rattle.prop.specs.Trues.{listed};
ghost use Rattle.resolution_log.specs.Codes.{CoversAll, Covers};
ghost use Rattle.clause_learning.specs.Trail.{below_of, Going, Back, Set, SetAt, Holds};
ghost use Rattle.clause_learning.specs.Covers.{RisesFrom, last_level};
ghost use Rattle.plain_solver.specs.Search.{StateOf, IsTurn, IsEnding, IsLonger, IsStop};
ghost use Rattle.clause_learning.specs.Solve.{IsAnswer, IsFail, trues_of};

use crate::Known;
use crate::analysis::{all_below, analyze};
use crate::scan::scan;
use crate::trail::{Found, Trail};
use clause_learning::{Answer, Entry, MOST_PAIRS, SolveFail, trimmed};
use prop::{Assignment, Clauses, Lit};
use resolution_log::{Chain, Log, Pairs, variables};
use std::alloc::{AllocError, Global};

// There are fewer clauses than this, so that each is named by 32 bits.
const MOST_CLAUSES: usize = 0xffff_ffff;

/// The whole state between two conflicts.
#[derive(Drop)]
pub struct Solver {
    /// The clauses given, and those learned after them.
    pub known: Known,
    /// The literals that are true.
    pub trail: Trail,
    /// How many decisions stand.
    pub level: usize,
    /// A chain for each learned clause.
    pub log: Log,
    /// How many pairs the log has.
    pub pairs: u64,
}

/// How a search ends.
#[derive(Drop)]
pub enum Ending {
    /// The trail meets every clause.
    Met(Trail),
    /// The log refutes the clauses.
    Refuted(Log),
    /// The log has as many chains as were allowed.
    Learned(Log),
    /// The pairs of the log reach the limit.
    Heavy(Log),
}

/// Where propagation stops.
#[derive(Clone, Copy)]
pub enum Stop {
    /// Every clause has a true literal.
    AllMet,
    /// All literals of the clause with this number are false.
    Clash(u32),
}

/// What a turn of the search leaves.
#[derive(Drop)]
pub enum Turn {
    /// A clause was learned, and the search goes on.
    On(Solver),
    /// The search is over.
    Over(Ending),
}

// The least level at which all literals but one are false.
fn least_level(level: usize, trail: &Trail, uip: Lit, clause: &[Lit]) -> usize
    requires deep { 0 < level }
    requires below { below_of (level - 1) trail.now.entries.items uip clause.now ≡ true }
    ensures at { below_of result trail.now.entries.items uip clause.now ≡ true }
    ensures least { (k : ℕ) → k < result → below_of k trail.now.entries.items uip clause.now ≡ false }
    ensures within { result < level }
{
    for k in 0..level - 1 {
        if all_below(k, trail, uip, clause) {
            return k;
        }
    }
    level - 1
}

// Goes back to a level.
fn jump(trail: &mut Trail, low: usize)
    requires rises { RisesFrom 0 trail.old.entries.items }
    requires low { low ≤ last_level 0 trail.old.entries.items }
    ensures back { (known : List (List Lit)) → Back known low trail.old.entries.items trail.old.entries.items → Back known low trail.old.entries.items trail.new.entries.items × ((l : Lit) → Set trail.new.entries.items l → SetAt low trail.new.entries.items l) }
    ensures rises { RisesFrom 0 trail.new.entries.items }
    ensures level { last_level 0 trail.new.entries.items ≡ low }
    ensures vars { trail.new.vars.items ≡ trail.old.vars.items }
{
    while trail.entries.len() > 0 {
        let e = trail.entries[trail.entries.len() - 1];
        if e.level <= low {
            return;
        }
        let _ = trail.pop();
    }
}

// The number of the next clause, which has 32 bits.
fn next_number(known: &Known) -> Result<u32, AllocError>
    ensures value { IfOk result (λ n. n ≡ length known.now) }
    ensures few { IfOk result (λ n. n < 4294967295) }
    ensures cause { OnErr result (4294967295 ≤ length known.now) }
{
    let number = known.len();
    if number >= MOST_CLAUSES {
        return Err(AllocError);
    }
    Ok(number as u32)
}

// Learns from the conflict in the clause with this number.
fn on_conflict(
    alloc: Global,
    clauses: &Clauses,
    s: Solver,
    learn: u64,
    limit: u64,
    k: u32,
) -> Result<Turn, AllocError>
    requires state { StateOf clauses.now learn limit s }
    requires index { k < length s.known }
    requires begin { (d : List Lit) → slice_get s.known k ≡ Some d → Going s.known s.level s.trail.entries.items k d [] }
    requires small { limit ≤ 134217728 }
    ensures turn { IfOk result (IsTurn clauses.now learn limit) }
    ensures longer { IfOk result (IsLonger s.log) }
{
    let Solver {
        mut known,
        mut trail,
        level,
        mut log,
        pairs,
    } = s;
    let a = analyze(alloc, &known, &mut trail, level, k)?;
    let total = pairs + a.pairs.len() as u64;
    let chain = Chain {
        first: k,
        pairs: a.pairs,
    };
    let Some(u) = a.uip else {
        log.push(chain)?;
        return Ok(Turn::Over(Ending::Refuted(log)));
    };
    let low = least_level(level, &trail, u, a.clause.as_slice());
    jump(&mut trail, low);
    let number = next_number(&known)?;
    trail.push(Entry {
        lit: u,
        level: low,
        reason: Some(number),
    })?;
    known.push(a.clause.as_slice())?;
    log.push(chain)?;
    if log.len() as u64 >= learn {
        return Ok(Turn::Over(Ending::Learned(log)));
    }
    if total >= limit {
        return Ok(Turn::Over(Ending::Heavy(log)));
    }
    Ok(Turn::On(Solver {
        known,
        trail,
        level: low,
        log,
        pairs: total,
    }))
}

// Propagates and decides until a clause is false or all are met.
fn settle(known: &Known, trail: &mut Trail, level: &mut usize) -> Result<Stop, AllocError>
    requires few { length known.now < 4294967296 }
    requires holds { Holds known.now level.old trail.old.entries.items }
    requires rises { RisesFrom 0 trail.old.entries.items }
    requires level { last_level 0 trail.old.entries.items ≡ level.old }
    requires covers { CoversAll trail.old.vars.items known.now }
    ensures holds { IfOk result (λ _. Holds known.now level.new trail.new.entries.items) }
    ensures stop { IfOk result (IsStop known.now trail.new.entries.items) }
    ensures rises { IfOk result (λ _. RisesFrom 0 trail.new.entries.items) }
    ensures level { IfOk result (λ _. last_level 0 trail.new.entries.items ≡ level.new) }
    ensures vars { IfOk result (λ _. trail.new.vars.items ≡ trail.old.vars.items) }
{
    let mut at = *level;
    'search: loop {
        match scan(trail, known) {
            Found::Conflict(k) => {
                *level = at;
                return Ok(Stop::Clash(k));
            }
            Found::Implied(k, l) => {
                trail.push(Entry {
                    lit: l,
                    level: at,
                    reason: Some(k),
                })?;
            }
            Found::Free(l) => {
                let next = at + 1;
                trail.push(Entry {
                    lit: l,
                    level: next,
                    reason: None,
                })?;
                at = next;
            }
            Found::Done => {
                *level = at;
                return Ok(Stop::AllMet);
            }
        }
    }
}

// To the next conflict, and over it.
fn round(
    alloc: Global,
    clauses: &Clauses,
    s: Solver,
    learn: u64,
    limit: u64,
) -> Result<Turn, AllocError>
    requires state { StateOf clauses.now learn limit s }
    requires small { limit ≤ 134217728 }
    ensures turn { IfOk result (IsTurn clauses.now learn limit) }
    ensures longer { IfOk result (IsLonger s.log) }
{
    let Solver {
        known,
        mut trail,
        mut level,
        log,
        pairs,
    } = s;
    match settle(&known, &mut trail, &mut level)? {
        Stop::AllMet => Ok(Turn::Over(Ending::Met(trail))),
        Stop::Clash(k) => on_conflict(
            alloc,
            clauses,
            Solver {
                known,
                trail,
                level,
                log,
                pairs,
            },
            learn,
            limit,
            k,
        ),
    }
}

fn find_empty(clauses: &Clauses) -> Option<u32>
    ensures { MatchOption result ((c : List Lit) → In clauses.now c → c ≡ [] → ⊥) (λ k. slice_get clauses.now k ≡ Some []) }
{
    for number in 0..clauses.len() {
        if clauses.clause(number).is_empty() {
            return Some(number);
        }
    }
    None
}

fn copy_all(alloc: Global, clauses: &Clauses) -> Result<Known, AllocError>
    ensures { IfOk result (λ known. known ≡ clauses.now) }
{
    let mut known = Known::new(alloc);
    for number in 0..clauses.len() {
        known.push(clauses.clause(number))?;
    }
    Ok(known)
}

// The state before the first decision.
fn start(alloc: Global, clauses: &Clauses, learn: u64, limit: u64) -> Result<Solver, AllocError>
    requires learn { 0 < learn }
    requires limit { 0 < limit }
    requires some { (c : List Lit) → In clauses.now c → c ≡ [] → ⊥ }
    ensures state { IfOk result (StateOf clauses.now learn limit) }
{
    let _ = clauses.len();
    let vars = variables(alloc, clauses)?;
    let truth = vec![in alloc; false; 2 * vars.len()]?;
    let levels = vec![in alloc; 0usize; vars.len()]?;
    let known = copy_all(alloc, clauses)?;
    let entries = Vec::new(alloc);
    let log = Log::new(alloc);
    Ok(Solver {
        known,
        trail: Trail {
            vars,
            entries,
            truth,
            levels,
        },
        level: 0,
        log,
        pairs: 0,
    })
}

// Searches until an answer stands.
fn search(alloc: Global, clauses: &Clauses, learn: u64, limit: u64) -> Result<Ending, AllocError>
    requires learn { 0 < learn }
    requires limit { 0 < limit }
    requires small { limit ≤ 134217728 }
    ensures { IfOk result (IsEnding clauses.now learn limit) }
{
    if let Some(first) = find_empty(clauses) {
        let pairs = Pairs::new(alloc);
        let mut log = Log::new(alloc);
        log.push(Chain { first, pairs })?;
        return Ok(Ending::Refuted(log));
    }
    let mut s = start(alloc, clauses, learn, limit)?;
    'rounds: loop {
        match round(alloc, clauses, s, learn, limit)? {
            Turn::Over(ending) => return Ok(ending),
            Turn::On(next) => s = next,
        }
    }
}

fn trues(alloc: Global, entries: &[Entry]) -> Result<Vec<u32>, AllocError>
    ensures { IfOk result (λ vars. vars.items ≡ trues_of entries.now) }
{
    let mut vars = Vec::new(alloc);
    for e in entries {
        if e.lit.positive {
            vars.push(e.lit.var)?;
        }
    }
    Ok(vars)
}

// The answer that an ending is. A refutation is cut to what it needs.
fn answer_of(
    alloc: Global,
    clauses: &Clauses,
    learn: u64,
    limit: u64,
    ending: Ending,
) -> Result<Answer, SolveFail>
    requires { IsEnding clauses.now learn limit ending }
    ensures { MatchResult result (IsAnswer clauses.now learn) (IsFail clauses.now learn limit) }
{
    match ending {
        Ending::Met(trail) => match trues(alloc, trail.entries.as_slice()) {
            Ok(vars) => Ok(Answer::Sat(Assignment::from_trues(vars))),
            Err(_) => Err(SolveFail::Memory),
        },
        Ending::Refuted(log) => match trimmed(alloc, clauses, log) {
            Ok(needed) => Ok(Answer::Unsat(needed)),
            Err(_) => Err(SolveFail::Memory),
        },
        Ending::Learned(log) => Ok(Answer::Spent(log)),
        Ending::Heavy(log) => Err(SolveFail::OverLog(log)),
    }
}

/// [`solve`] with a limit on pairs of its own.
pub fn solve_within(
    alloc: Global,
    clauses: &Clauses,
    learn: u64,
    limit: u64,
) -> Result<Answer, SolveFail>
    requires learn { 0 < learn }
    requires limit { 0 < limit }
    requires small { limit ≤ 134217728 }
    ensures answer { MatchResult result (IsAnswer clauses.now learn) (IsFail clauses.now learn limit) }
{
    match search(alloc, clauses, learn, limit) {
        Ok(ending) => answer_of(alloc, clauses, learn, limit, ending),
        Err(_) => Err(SolveFail::Memory),
    }
}

/// Answers an assignment that satisfies all clauses, a lean refutation of at most `learn` chains, or a new log of
/// `learn` chains. Where a new log's pairs reach [`MOST_PAIRS`] with its last chain, and it has fewer chains, that log
/// is the refusal.
pub fn solve(alloc: Global, clauses: &Clauses, learn: u64) -> Result<Answer, SolveFail>
    requires { 0 < learn }
    ensures answer { MatchResult result (IsAnswer clauses.now learn) (IsFail clauses.now learn 134217728) }
{
    solve_within(alloc, clauses, learn, MOST_PAIRS)
}
