//! Cuts a refutation to the cone of its last chain: the clauses from which the empty clause really comes.
//!
//! Going back from the last chain, the clauses that a needed chain names are needed; going forward, the chains that
//! are needed are kept, and each clause gets its rank among those needed as its number. All given clauses count as
//! needed, so that they keep their numbers.

ghost use Rattle.std.specs.Prelude.{◌≡◌, ℕ, ◌+◌, ◌<◌, ◌≤◌, true, List, [], ◌∷◌, length, IfOk, get_or};
ghost use Rattle.resolution_log.specs.Cones.{rank};
ghost use Rattle.resolution_log.specs.Logs.{Lean};
ghost use Rattle.clause_learning.specs.Solve.{IsRefuted};
ghost use Rattle.clause_learning.specs.Cuts.{need_in, mark_chain, NamesBelow, Ranged, GivenNeeded, Closes, AreRanks, renamed, cut_from};

use prop::Clauses;
use resolution_log::{Chain, Log, Pairs};
use std::alloc::{AllocError, Global};

/// Which clauses are needed, and the number of each among those.
#[derive(Drop)]
struct Cone {
    marks: Vec<bool>,
    numbers: Vec<usize>,
    ghost all: { length numbers.items ≡ length marks.items },
    ghost ranks: { AreRanks (need_in marks.items) numbers.items },
}

// Marks the clauses that a chain names.
fn mark(chain: &Chain, marks: &mut [bool])
    requires { NamesBelow (length marks.old) chain.now }
    ensures { marks.new ≡ mark_chain chain.now marks.old }
{
    marks[chain.first as usize] = true;
    for pair in chain.pairs.as_slice() {
        marks[pair.1 as usize] = true;
    }
}

// Marks, from the last chain back, what the marked chains name. Chain number k has the clause number `base + k`.
fn mark_back(chains: &[Chain], base: usize, marks: &mut [bool])
    requires all { length marks.old ≡ base + length chains.now }
    requires ranged { Ranged base chains.now }
    requires given { GivenNeeded base marks.old }
    ensures closed { Closes (need_in marks.new) base chains.now }
    ensures given { GivenNeeded base marks.new }
    ensures grown { (k : ℕ) → need_in marks.old k ≡ true → need_in marks.new k ≡ true }
{
    let mut k = chains.len();
    while k > 0 {
        k -= 1;
        if marks[base + k] {
            mark(&chains[k], marks);
        }
    }
}

// The rank of each number among those that are marked.
fn ranks(alloc: Global, marks: &[bool]) -> Result<Vec<usize>, AllocError>
    ensures { IfOk result (λ r. AreRanks (need_in marks.now) r.items × (length r.items ≡ length marks.now)) }
{
    let mut numbers = Vec::new(alloc);
    let mut next = 0;
    for is_needed in marks {
        numbers.push(next)?;
        if *is_needed {
            next += 1;
        }
    }
    Ok(numbers)
}

// The cone of the last of some chains.
fn last_cone(alloc: Global, chains: &[Chain], base: usize) -> Result<Cone, AllocError>
    requires some { 0 < length chains.now }
    requires ranged { Ranged base chains.now }
    requires few { base < 4294967296 }
    requires fits { length chains.now < 4294967296 }
    ensures all { IfOk result (λ r. length r.marks.items ≡ base + length chains.now) }
    ensures given { IfOk result (λ r. GivenNeeded base r.marks.items) }
    ensures closed { IfOk result (λ r. Closes (need_in r.marks.items) base chains.now) }
    ensures last { IfOk result (λ r. (k : ℕ) → k + 1 ≡ base + length chains.now → need_in r.marks.items k ≡ true) }
{
    let mut marks = vec![in alloc; true; base]?;
    for _ in 0..chains.len() - 1 {
        marks.push(false)?;
    }
    marks.push(true)?;
    mark_back(chains, base, &mut marks);
    let numbers = ranks(alloc, &marks)?;
    Ok(Cone { marks, numbers })
}

// The rank of a clause among those that are needed.
fn renumber(cone: &Cone, clause: u32) -> u32
    requires { clause < length cone.now.marks.items }
    ensures { result ≡ rank (need_in cone.now.marks.items) clause }
{
    cone.numbers[clause as usize] as u32
}

// A chain with its clauses renamed.
fn rename(alloc: Global, cone: &Cone, chain: &Chain) -> Result<Chain, AllocError>
    requires { NamesBelow (length cone.now.marks.items) chain.now }
    ensures { IfOk result (λ r. r ≡ renamed (rank (need_in cone.now.marks.items)) chain.now) }
{
    let first = renumber(cone, chain.first);
    let mut pairs = Pairs::new(alloc);
    for pair in chain.pairs.as_slice() {
        pairs.push(pair.0, renumber(cone, pair.1))?;
    }
    Ok(Chain { first, pairs })
}

// The needed chains, renamed. Each chain's memory is given back before the next one is looked at.
fn cut(alloc: Global, cone: &Cone, chains: Vec<Chain>, base: usize) -> Result<Log, AllocError>
    requires all { length cone.now.marks.items ≡ base + length chains.items }
    requires ranged { Ranged base chains.items }
    ensures { IfOk result (λ r. r ≡ cut_from (need_in cone.now.marks.items) base chains.items) }
{
    let mut log = Log::new(alloc);
    let mut at = base;
    for chain in chains {
        if cone.marks[at] {
            log.push(rename(alloc, cone, &chain)?)?;
        }
        at += 1;
    }
    Ok(log)
}

/// A lean refutation cut to the cone of its last chain: it names the clauses that it needs alone. The old log goes chain by
/// chain while the new one grows, so that both together take little more than one.
pub fn trimmed(alloc: Global, clauses: &Clauses, log: Log) -> Result<Log, AllocError>
    requires { Lean clauses.now log }
    ensures { IfOk result (IsRefuted clauses.now (length log)) }
{
    let base = clauses.len() as usize;
    let chains = log.into_chains();
    let cone = last_cone(alloc, chains.as_slice(), base)?;
    cut(alloc, &cone, chains, base)
}
