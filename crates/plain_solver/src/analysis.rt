//! The analysis of a conflict: the clause that is false is resolved with the reasons of its literals, last first, until
//! one literal of the current level is left, the first unique implication point.

ghost use Rattle.std.specs.Prelude.{◌≡◌, ℕ, ◌+◌, ◌-◌, ◌++◌, ◌∷◌, [], ◌<◌, ◌≤◌, ◌^◌, length, IfOk, Some, None, List, slice_get, true};
ghost use Rattle.prop.specs.declared.Lit.{Lit};
ghost use Rattle.prop.specs.Logic.{negated};
ghost use Rattle.clause_learning.specs.Trail.{below_of, first_of, Going, ToldSet, added};
ghost use Rattle.clause_learning.specs.Covers.{RisesFrom, last_level};

use crate::Known;
use crate::trail::Trail;
use prop::{Lit, contains};
use resolution_log::Pairs;
use std::alloc::{AllocError, Global};

/// What the analysis of a conflict gives.
#[derive(Drop)]
pub struct Analysis {
    /// The clause that is learned, as a set; empty where there is no literal left.
    pub clause: Vec<Lit>,
    /// The steps that lead to it from the clause in conflict.
    pub pairs: Pairs,
    /// The literal that the clause makes true.
    pub uip: Option<Lit>,
}

/// Whether all literals but one are false at this level or below.
pub fn all_below(level: usize, trail: &Trail, uip: Lit, clause: &[Lit]) -> bool
    ensures { result ≡ below_of level trail.now.entries.items uip clause.now }
{
    for m in clause {
        if *m != uip && !trail.is_true_at(level, m.negate()) {
            return false;
        }
    }
    true
}

fn is_first(level: usize, trail: &Trail, uip: Lit, clause: &[Lit]) -> bool
    ensures { result ≡ first_of level trail.now.entries.items uip clause.now }
{
    level > 0 && all_below(level - 1, trail, uip, clause)
}

fn add_new(out: &mut Vec<Lit>, l: Lit, clause: &[Lit]) -> Result<(), AllocError>
    ensures { IfOk result (λ _. out.new.items ≡ added out.old.items l clause.now) }
{
    for m in clause {
        if *m != l && !contains(out.as_slice(), *m) {
            out.push(*m)?;
        }
    }
    Ok(())
}

// The resolvent on a literal, each literal once.
fn join(alloc: Global, l: Lit, c: &[Lit], d: &[Lit]) -> Result<Vec<Lit>, AllocError>
    ensures { IfOk result (λ r. r.items ≡ added (added [] l c.now) (negated l) d.now) }
{
    let mut out = Vec::new(alloc);
    add_new(&mut out, l, c)?;
    add_new(&mut out, l.negate(), d)?;
    Ok(out)
}

/// Analyses the conflict in the clause with this number, and takes the entries away that it comes past.
pub fn analyze(
    alloc: Global,
    known: &Known,
    trail: &mut Trail,
    level: usize,
    conflict: u32,
) -> Result<Analysis, AllocError>
    requires conflict { conflict < length known.now }
    requires begin { (d : List Lit) → slice_get known.now conflict ≡ Some d → Going known.now level trail.old.entries.items conflict d [] }
    requires rises { RisesFrom 0 trail.old.entries.items × (last_level 0 trail.old.entries.items ≡ level) }
    ensures told { IfOk result (λ a. ToldSet known.now level trail.new.entries.items conflict a.clause.items a.pairs a.uip) }
    ensures rises { IfOk result (λ _. RisesFrom 0 trail.new.entries.items × (level ≤ last_level 0 trail.new.entries.items + 1)) }
    ensures vars { trail.new.vars.items ≡ trail.old.vars.items }
{
    let mut d = Vec::from_slice(alloc, known.clause(conflict as usize))?;
    let mut pairs = Pairs::new(alloc);
    while let Some(e) = trail.pop() {
        let back = e.lit.negate();
        if !contains(d.as_slice(), back) {
            continue;
        }
        if is_first(level, trail, back, d.as_slice()) {
            return Ok(Analysis {
                clause: d,
                pairs,
                uip: Some(back),
            });
        }
        let Some(r) = e.reason else { unreachable!() };
        d = join(alloc, back, d.as_slice(), known.clause(r as usize))?;
        pairs.push(e.lit.var, r)?;
    }
    Ok(Analysis {
        clause: d,
        pairs,
        uip: None,
    })
}
