//! Where each variable of clauses occurs last.

ghost use Rattle.std.specs.Prelude.{◌≡◌, ◌≤◌, ◌<◌, ℕ, true, cond, nat_eq, length, slice_index, IfOk};
ghost use Rattle.std.specs.List.Sorted.{IsStrictlyIncreasing};
ghost use Rattle.prop.specs.Trues.{listed};
ghost use Rattle.resolution_log.specs.Codes.{all_vars, place, vars_of};
ghost use Rattle.interpolants.specs.Sources.{AreEnds, is_noted, last_end};

use lv_base::Memory;
use prop::{Clauses, Lit};
use resolution_log::{number_of, variables};
use std::alloc::Global;
use std::marker::Model;

/// For each variable of clauses the number behind the last clause that has it.
#[derive(Drop)]
pub struct Ends {
    vars: Vec<u32>,
    ends: Vec<u32>,
}

impl Model for Ends {
    ghost use Rattle.std.specs.Prelude.{ℕ, List, length, ◌≡◌, ◌≤◌};
    ghost use Rattle.std.specs.List.Sorted.{IsStrictlyIncreasing};

    ghost Value = { List ℕ × List ℕ };

    ghost view = { λ e. (e.vars.items, e.ends.items) };

    ghost invariant = { λ e. IsStrictlyIncreasing e.vars.items × (length e.vars.items ≤ 67108864) × (length e.ends.items ≡ length e.vars.items) };
}

// A number, or the one behind a variable, whichever is greater.
fn raised_by(bound: u64, var: u32) -> u64
    ensures rises { bound ≤ result }
    ensures over { var < result }
{
    bound.max(u64::from(var) + 1)
}

// A number, or the one behind a variable of the clause, whichever is greatest.
fn raised(bound: u64, clause: &[Lit]) -> u64
    ensures rises { bound ≤ result }
    ensures over { (x : ℕ) → listed (vars_of clause.now) x ≡ true → x < result }
{
    let mut most = bound;
    for lit in clause {
        most = raised_by(most, lit.var);
    }
    most
}

// The number behind all variables of clauses.
fn bound_of(clauses: &Clauses) -> u64
    ensures { (x : ℕ) → listed (all_vars clauses.now) x ≡ true → x < result }
{
    let mut bound = 0u64;
    for number in 0..clauses.len() {
        bound = raised(bound, clauses.clause(number));
    }
    bound
}

// All variables below a number.
fn all_below(alloc: Global, bound: u32) -> Result<Vec<u32>, Memory>
    ensures rising { IfOk result (λ vars. IsStrictlyIncreasing vars.items) }
    ensures length { IfOk result (λ vars. length vars.items ≡ bound) }
    ensures listed { IfOk result (λ vars. (x : ℕ) → x < bound → listed vars.items x ≡ true) }
{
    let mut vars = Vec::new(alloc);
    for var in 0..bound {
        vars.push(var)?;
    }
    Ok(vars)
}

// Rising variables, those of the clauses among them: all below a number, so that each is its own place, where these are no more than the
// clauses have literals.
fn numbered(alloc: Global, clauses: &Clauses) -> Result<Vec<u32>, Memory>
    ensures rising { IfOk result (λ vars. IsStrictlyIncreasing vars.items) }
    ensures few { IfOk result (λ vars. length vars.items ≤ 67108864) }
    ensures covers { IfOk result (λ vars. (x : ℕ) → listed (all_vars clauses.now) x ≡ true → listed vars.items x ≡ true) }
{
    let bound = bound_of(clauses);
    if bound <= clauses.literals() {
        return all_below(alloc, bound as u32);
    }
    let vars = variables(alloc, clauses)?;
    Ok(vars)
}

// Notes a number for a variable.
fn note_one(vars: &[u32], ends: &mut [u32], var: u32, end: u32)
    requires rising { IsStrictlyIncreasing vars.now }
    requires few { length vars.now ≤ 67108864 }
    requires alike { length ends.old ≡ length vars.now }
    ensures { (x : ℕ) → listed vars.now x ≡ true → slice_index ends.new (place vars.now x) ≡ cond (nat_eq var x) end (slice_index ends.old (place vars.now x)) }
{
    if let Some(number) = number_of(vars, var) {
        ends[number as usize] = end;
    }
}

// Notes a number for each variable of a clause.
fn note(vars: &[u32], ends: &mut [u32], clause: &[Lit], end: u32)
    requires rising { IsStrictlyIncreasing vars.now }
    requires few { length vars.now ≤ 67108864 }
    requires alike { length ends.old ≡ length vars.now }
    ensures { (x : ℕ) → listed vars.now x ≡ true → slice_index ends.new (place vars.now x) ≡ cond (listed (vars_of clause.now) x) end (slice_index ends.old (place vars.now x)) }
{
    for lit in clause {
        note_one(vars, ends, lit.var, end);
    }
}

// The number behind the last clause that has each of the variables.
fn ends_of(alloc: Global, vars: &[u32], clauses: &Clauses) -> Result<Vec<u32>, Memory>
    requires rising { IsStrictlyIncreasing vars.now }
    requires few { length vars.now ≤ 67108864 }
    ensures length { IfOk result (λ ends. length ends.items ≡ length vars.now) }
    ensures ends { IfOk result (λ ends. (x : ℕ) → listed vars.now x ≡ true → slice_index ends.items (place vars.now x) ≡ last_end 0 0 clauses.now x) }
{
    let mut ends = vec![in alloc; 0u32; vars.len()]?;
    for number in 0..clauses.len() {
        note(vars, &mut ends, clauses.clause(number), number + 1);
    }
    Ok(ends)
}

impl Ends {
    /// The last occurrences in these clauses.
    pub fn new(alloc: Global, clauses: &Clauses) -> Result<Ends, Memory>
        ensures length { IfOk result (λ e. length e.1 ≡ length e.0) }
        ensures ends { IfOk result (AreEnds clauses.now) }
    {
        let vars = numbered(alloc, clauses)?;
        let ends = ends_of(alloc, &vars, clauses)?;
        Ok(Ends { vars, ends })
    }

    /// Whether a clause from this number on has the variable. It takes no memory.
    pub fn is_behind(&self, var: u32, edge: u32) -> bool
        ensures { result ≡ is_noted self.now.0 self.now.1 var edge }
    {
        match number_of(&self.vars, var) {
            Some(number) => self.ends[number as usize] > edge,
            None => false,
        }
    }
}
