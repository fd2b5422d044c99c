//! Dense numbers for the variables that occur, so that memory is linear in the literals whatever the variables are.

ghost use Rattle.std.specs.Prelude.{◌≡◌, ℕ, ◌+◌, ◌*◌, ◌<◌, ◌≤◌, List, [], ◌∷◌, ◌++◌, length, IfOk, MatchOption, true, false, Some, slice_get, slice_index_or};
ghost use Rattle.std.specs.List.Sorted.{IsStrictlyIncreasing};
ghost use Rattle.prop.specs.Trues.{listed};
ghost use Rattle.resolution_log.specs.Codes.{vars_of, all_vars, place, code_of, codes_of, all_codes, Covers, CoversAll};

use crate::Rows;
use prop::{Clauses, Lit};
use std::alloc::{AllocError, Global};

// So many marks for each variable that occurs cost less than to sort.
const MARKS_EACH: usize = 8;

// There are at most so many marks, as there are at most so many literals.
const MOST_MARKS: usize = 67_108_864;

fn add_vars(vars: &mut Vec<u32>, clause: &[Lit]) -> Result<(), AllocError>
    ensures { IfOk result (λ _. vars.new.items ≡ vars.old.items ++ vars_of clause.now) }
{
    for l in clause {
        vars.push(l.var)?;
    }
    Ok(())
}

fn collect_vars(alloc: Global, clauses: &Clauses) -> Result<Vec<u32>, AllocError>
    ensures items { IfOk result (λ vars. vars.items ≡ all_vars clauses.now) }
    ensures few { IfOk result (λ vars. length vars.items ≤ 67108864) }
{
    let _ = clauses.literals();
    let mut vars = Vec::new(alloc);
    for number in 0..clauses.len() {
        add_vars(&mut vars, clauses.clause(number))?;
    }
    Ok(vars)
}

// One more than the greatest of these.
fn top_of(vars: &[u32]) -> usize
    ensures { (v : ℕ) → listed vars.now v ≡ true → v < result }
{
    let mut top = 0;
    for var in vars {
        let at = *var as usize;
        if at >= top {
            top = at + 1;
        }
    }
    top
}

// Marks each of these that has a mark.
fn mark_each(marks: &mut [bool], vars: &[u32])
    ensures marked { (v : ℕ) → v < length marks.old → listed vars.now v ≡ true → slice_index_or marks.new v false ≡ true }
    ensures size { length marks.new ≡ length marks.old }
{
    for var in vars {
        let at = *var as usize;
        if at < marks.len() {
            marks[at] = true;
        }
    }
}

// The numbers that are marked, rising.
fn marked(alloc: Global, marks: &[bool]) -> Result<Vec<u32>, AllocError>
    requires { length marks.now ≤ 67108864 }
    ensures rising { IfOk result (λ vars. IsStrictlyIncreasing vars.items) }
    ensures all { IfOk result (λ vars. (v : ℕ) → slice_index_or marks.now v false ≡ true → listed vars.items v ≡ true) }
    ensures few { IfOk result (λ vars. length vars.items ≤ 67108864) }
{
    let mut vars = Vec::new(alloc);
    for number in 0..marks.len() {
        if marks[number] {
            vars.push(number as u32)?;
        }
    }
    Ok(vars)
}

// The different ones of these, rising, by a mark for each number below `top`.
fn by_marks(alloc: Global, vars: &[u32], top: usize) -> Result<Vec<u32>, AllocError>
    requires top { (v : ℕ) → listed vars.now v ≡ true → v < top }
    requires few { top ≤ 67108864 }
    ensures rising { IfOk result (λ r. IsStrictlyIncreasing r.items) }
    ensures all { IfOk result (λ r. (v : ℕ) → listed vars.now v ≡ true → listed r.items v ≡ true) }
    ensures few { IfOk result (λ r. length r.items ≤ 67108864) }
{
    let mut marks = vec![in alloc; false; top]?;
    mark_each(marks.as_mut_slice(), vars);
    marked(alloc, marks.as_slice())
}

// The different ones of these, rising.
fn by_order(mut vars: Vec<u32>) -> Vec<u32>
    requires { length vars.items ≤ 67108864 }
    ensures rising { IsStrictlyIncreasing result.items }
    ensures all { (v : ℕ) → listed vars.items v ≡ true → listed result.items v ≡ true }
    ensures few { length result.items ≤ 67108864 }
{
    vars.sort_unstable();
    vars.dedup();
    vars
}

// The different ones of these, rising. Where they lie close together they are found by marks, without sorting.
fn distinct(alloc: Global, vars: Vec<u32>) -> Result<Vec<u32>, AllocError>
    requires { length vars.items ≤ 67108864 }
    ensures rising { IfOk result (λ r. IsStrictlyIncreasing r.items) }
    ensures all { IfOk result (λ r. (v : ℕ) → listed vars.items v ≡ true → listed r.items v ≡ true) }
    ensures few { IfOk result (λ r. length r.items ≤ 67108864) }
{
    let top = top_of(vars.as_slice());
    if top <= MOST_MARKS && top / MARKS_EACH <= vars.len() {
        by_marks(alloc, vars.as_slice(), top)
    } else {
        Ok(by_order(vars))
    }
}

/// The variables that occur in clauses, each once and rising. A variable's number is its place. Where the variables lie
/// close together it takes time in proportion to the literals.
pub fn variables(alloc: Global, clauses: &Clauses) -> Result<Vec<u32>, AllocError>
    ensures rising { IfOk result (λ vars. IsStrictlyIncreasing vars.items) }
    ensures covers { IfOk result (λ vars. CoversAll vars.items clauses.now) }
    ensures few { IfOk result (λ vars. length vars.items ≤ 67108864) }
{
    let occurring = collect_vars(alloc, clauses)?;
    let vars = distinct(alloc, occurring)?;
    Ok(vars)
}

// Where a variable stands if it is listed and none is missing between the first one and it.
#[inline]
fn guess(vars: &[u32], var: u32) -> usize {
    if vars.is_empty() {
        return 0;
    }
    var.saturating_sub(vars[0]) as usize
}

/// The number of a variable, where it occurs. It is found at once where none is missing between the first variable and it,
/// and else by binary search.
pub fn number_of(vars: &[u32], var: u32) -> Option<u32>
    requires rising { IsStrictlyIncreasing vars.now }
    requires few { length vars.now ≤ 67108864 }
    ensures { MatchOption result (listed vars.now var ≡ false) (λ k. (listed vars.now var ≡ true) × (k ≡ place vars.now var) × (k < length vars.now)) }
{
    let at = guess(vars, var);
    if at < vars.len() && vars[at] == var {
        return Some(at as u32);
    }
    match vars.binary_search(&var) {
        Ok(k) => Some(k as u32),
        Err(_) => None,
    }
}

/// The code of a literal whose variable occurs.
pub fn code(vars: &[u32], l: Lit) -> u32
    requires rising { IsStrictlyIncreasing vars.now }
    requires few { length vars.now ≤ 67108864 }
    requires occurs { listed vars.now l.var ≡ true }
    ensures value { result ≡ code_of vars.now l }
    ensures below { code_of vars.now l < 2 * length vars.now }
{
    let Some(number) = number_of(vars, l.var) else {
        unreachable!()
    };
    2 * number + if l.positive { 0 } else { 1 }
}

fn add_codes(vars: &[u32], row: &mut Vec<u32>, clause: &[Lit]) -> Result<(), AllocError>
    requires rising { IsStrictlyIncreasing vars.now }
    requires few { length vars.now ≤ 67108864 }
    requires covers { Covers vars.now clause.now }
    ensures { IfOk result (λ _. row.new.items ≡ row.old.items ++ codes_of vars.now clause.now) }
{
    for l in clause {
        row.push(code(vars, *l))?;
    }
    Ok(())
}

/// The clauses as lists of codes.
pub fn coded(alloc: Global, vars: &[u32], clauses: &Clauses) -> Result<Rows, AllocError>
    requires rising { IsStrictlyIncreasing vars.now }
    requires few { length vars.now ≤ 67108864 }
    requires covers { CoversAll vars.now clauses.now }
    ensures { IfOk result (λ rows. rows ≡ all_codes vars.now clauses.now) }
{
    let mut rows = Rows::new(alloc);
    let mut row = Vec::new(alloc);
    for number in 0..clauses.len() {
        row.clear();
        add_codes(vars, &mut row, clauses.clause(number))?;
        rows.push(row.as_slice())?;
    }
    Ok(rows)
}
