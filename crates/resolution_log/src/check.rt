//! The checker of logs. Results lie in one flat array after the clauses, all as codes of dense numbers; time is linear
//! in the pairs and the literals that they touch, and memory in the literals of clauses and results.

ghost use Rattle.std.specs.Prelude.{◌≡◌, ℕ, ◌+◌, ◌-◌, ◌*◌, ◌<◌, ◌≤◌, ◌^◌, true, false, List, [], ◌∷◌, ◌++◌, length, IfOk, OnOk, IfErr, Bool, nat_eq};
ghost use Rattle.std.specs.List.Sorted.{IsStrictlyIncreasing};
ghost use Rattle.prop.specs.Logic.{all_hold};
ghost use Rattle.prop.specs.declared.Lit.{Lit};
ghost use Rattle.resolution_log.specs.Chains.{chain_from, chain_result, IsRefutation};
ghost use Rattle.resolution_log.specs.Verdict.{verdict_of, IsVerdict, IsTold, IsCause};
ghost use Rattle.resolution_log.specs.Codes.{AllBelow, RowsBelow, AreRows, CoversAll};
ghost use Rattle.resolution_log.specs.Marks.{Sofar, IsStep, AtMost, gather, gathered};

use crate::marks::{gather_row, mark_row, resolve_marks};
use crate::{Chain, Log, LogFail, Rows, coded, number_of, variables};
use prop::Clauses;
use std::alloc::{AllocError, Global};

// No literal has this code.
const NO_CODE: u32 = 0xffff_ffff;

/// What a log is found to be.
#[derive(Clone, Copy)]
pub enum Told {
    /// All chains are valid, and the last result is empty.
    Refutes,
    /// The first chain that is not valid.
    Bad(u32),
    /// All chains are valid, and there is none or the last result is not empty.
    Lacks,
}

// Resolves the marked clause with the clause of each pair. Answers whether each step is valid.
fn run_pairs(
    vars: &[u32],
    rows: &Rows,
    stamps: &mut [u32],
    members: &mut Vec<u32>,
    epoch: u32,
    pairs: &[(u32, u32)],
) -> Result<bool, AllocError>
    requires rising { IsStrictlyIncreasing vars.now }
    requires few { length vars.now ≤ 67108864 }
    requires size { length stamps.old ≡ 2 * length vars.now }
    requires rows { RowsBelow (length stamps.old) rows.now }
    ensures { IfOk result (λ ok. (cs : List (List Lit)) (c : List Lit) → AreRows vars.now rows.now cs → 0 < epoch → Sofar vars.now epoch stamps.old members.old.items c → IsStep ok vars.now epoch stamps.new members.new.items (chain_from cs c pairs.now)) }
{
    for p in pairs {
        let at = p.1 as usize;
        if at >= rows.len() {
            return Ok(false);
        }
        let Some(number) = number_of(vars, p.0) else {
            return Ok(false);
        };
        if !resolve_marks(stamps, members, epoch, rows.row(at), number)? {
            return Ok(false);
        }
    }
    Ok(true)
}

// Runs a chain in a new epoch. Answers whether it is valid; then the marks are its result.
fn run_chain(
    vars: &[u32],
    rows: &Rows,
    stamps: &mut [u32],
    members: &mut Vec<u32>,
    epoch: u32,
    chain: &Chain,
) -> Result<bool, AllocError>
    requires rising { IsStrictlyIncreasing vars.now }
    requires few { length vars.now ≤ 67108864 }
    requires size { length stamps.old ≡ 2 * length vars.now }
    requires rows { RowsBelow (length stamps.old) rows.now }
    ensures { IfOk result (λ ok. (cs : List (List Lit)) → AreRows vars.now rows.now cs → 0 < epoch → AtMost (epoch - 1) stamps.old → IsStep ok vars.now epoch stamps.new members.new.items (chain_result cs chain.now)) }
{
    members.clear();
    let first = chain.first as usize;
    if first >= rows.len() {
        return Ok(false);
    }
    mark_row(stamps, members, epoch, rows.row(first), NO_CODE)?;
    run_pairs(vars, rows, stamps, members, epoch, chain.pairs.as_slice())
}

// Appends the marked clause to the rows, and takes the marks away. Answers whether it is empty.
fn take_result(
    rows: &mut Rows,
    stamps: &mut [u32],
    members: &[u32],
    epoch: u32,
    row: &mut Vec<u32>,
) -> Result<bool, AllocError>
    requires { AllBelow (length stamps.old) members.now }
    ensures rows { OnOk result (rows.new ≡ rows.old ++ gather epoch stamps.old members.now ∷ []) }
    ensures stamps { OnOk result (stamps.new ≡ gathered epoch stamps.old members.now) }
    ensures empty { IfOk result (λ e. e ≡ nat_eq (length (gather epoch stamps.old members.now)) 0) }
{
    row.clear();
    gather_row(stamps, members, epoch, row)?;
    rows.push(row.as_slice())?;
    Ok(row.is_empty())
}

// Runs chain after chain, over stamps that are all 0.
fn run_chains(
    alloc: Global,
    clauses: &Clauses,
    vars: &[u32],
    stamps: &mut [u32],
    chains: &[Chain],
) -> Result<Told, AllocError>
    requires few_chains { length chains.now < 4294967296 }
    requires rising { IsStrictlyIncreasing vars.now }
    requires few { length vars.now ≤ 67108864 }
    requires covers { CoversAll vars.now clauses.now }
    requires size { length stamps.old ≡ 2 * length vars.now }
    requires most { AtMost 0 stamps.old }
    ensures { IfOk result (λ told. IsTold (verdict_of clauses.now 0 false chains.now) told) }
{
    let mut rows = coded(alloc, vars, clauses)?;
    let mut members = Vec::new(alloc);
    let mut row = Vec::new(alloc);
    let mut last = false;
    for i in 0..chains.len() {
        let epoch = (i + 1) as u32;
        if !run_chain(vars, &rows, stamps, &mut members, epoch, &chains[i])? {
            return Ok(Told::Bad(i as u32));
        }
        last = take_result(&mut rows, stamps, members.as_slice(), epoch, &mut row)?;
    }
    Ok(if last { Told::Refutes } else { Told::Lacks })
}

fn run_log(alloc: Global, clauses: &Clauses, chains: &[Chain]) -> Result<Told, AllocError>
    requires { length chains.now < 4294967296 }
    ensures { IfOk result (λ told. IsTold (verdict_of clauses.now 0 false chains.now) told) }
{
    let vars = variables(alloc, clauses)?;
    let mut stamps = vec![in alloc; 0u32; 2 * vars.len()]?;
    run_chains(
        alloc,
        clauses,
        vars.as_slice(),
        stamps.as_mut_slice(),
        chains,
    )
}

/// Checks that a log is a refutation of clauses. Whoever made the log need not be trusted.
pub fn check_log(alloc: Global, clauses: &Clauses, log: &Log) -> Result<(), LogFail>
    ensures verdict { IsVerdict (verdict_of clauses.now 0 false log.now) result }
    ensures accepted { OnOk result (IsRefutation clauses.now log.now) }
    ensures refused { IfErr result (IsCause clauses.now log.now) }
    ensures complete { IsRefutation clauses.now log.now → IfErr result (λ e. e ≡ LogFail.Memory) }
    ensures sound { OnOk result ((v : ℕ → Bool) → all_hold v clauses.now ≡ true → ⊥) }
{
    match run_log(alloc, clauses, log.chains()) {
        Err(_) => Err(LogFail::Memory),
        Ok(Told::Bad(chain)) => Err(LogFail::BadStep(chain)),
        Ok(Told::Lacks) => Err(LogFail::NoEmpty),
        Ok(Told::Refutes) => Ok(()),
    }
}
