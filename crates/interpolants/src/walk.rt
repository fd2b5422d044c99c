//! The formula of one cut, by a walk over the log (K. McMillan, Interpolation and SAT-Based Model Checking, 2003).

ghost use Rattle.std.specs.Prelude.{◌≡◌, ◌+◌, ◌<◌, ◌&&◌, ◌||◌, ℕ, Bool, true, not, List, All, IfOk, OnOk, length, slice_get, slice_index_or, Some};
ghost use Rattle.prop.specs.Logic.{lit_value};
ghost use Rattle.formula_diagrams.specs.Truths.{choice};
ghost use Rattle.interpolants.specs.Cuts.{AreCutBits, IsPlaced};
ghost use Rattle.interpolants.specs.Meanings.{Agree, HasBit, IsPlacing, agree_from, read, said, twin_agrees};
ghost use Rattle.interpolants.specs.Memos.{AllKnown};
ghost use Rattle.interpolants.specs.Rules.{chain_truth, joined, last_of, some_holds};
ghost use Rattle.interpolants.specs.Walks.{AreAgreed, AreBits, AreCovered, AreKept, AreMet, AreTrue, HasEntry, IsCut, IsCutTruth, IsKept, all_truths, leaf_truths, noted_behind, truth_of, value_of};

use crate::cone::Cone;
use crate::items::{Formula, Placed, Twins};
use crate::joining::Algebra;
use crate::occurrences::Ends;
use crate::placing::CutBits;
use crate::recall::Memo;
use prop::{Clauses, Lit};
use resolution_log::{Chain, Log};
use std::alloc::Global;

/// What a walk at a cut reads.
#[derive(Clone, Copy)]
pub struct Cut<'a> {
    pub clauses: &'a Clauses,
    pub log: &'a Log,
    pub ends: &'a Ends,
    pub cone: &'a Cone,
    pub bits: &'a CutBits,
    /// The first clause behind the cut.
    pub edge: u32,
}

fn are_same(one: bool, other: bool) -> bool
    ensures { result ≡ choice one other (not other) }
{
    if one { other } else { !other }
}

// What says that a literal is true. A variable that occurs before and behind the cut is that of a bit of the cut: the clauses of a path
// have it so. Of a variable that had no bit nothing could be said.
fn literal<A: Algebra>(
    alloc: Global,
    algebra: &mut A,
    bits: &CutBits,
    lit: Lit,
) -> Result<Formula, A::Fail>
    requires bits { AreCutBits (A.cells algebra.old) bits.now }
    requires placing { IsPlacing bits.now }
    ensures keeps { A.keeps algebra.old algebra.new }
    ensures made { IfOk result (A.has algebra.new) }
    ensures told { (store : List ℕ) → Agree bits.now.bits.items store → HasBit bits.now.bits.items lit.var → IfOk result (λ r. A.truth algebra.new r store ≡ lit_value (read bits.now.bits.items store) lit) }
{
    match bits.find(lit.var) {
        Some(placed) => {
            let value = are_same(placed.lit.positive, lit.positive);
            algebra.bit(alloc, placed.bit, value)
        }
        None => algebra.constant(true),
    }
}

// Adds a literal to a disjunction.
fn add_literal<A: Algebra>(
    alloc: Global,
    algebra: &mut A,
    bits: &CutBits,
    so_far: Formula,
    lit: Lit,
) -> Result<Formula, A::Fail>
    requires bits { AreCutBits (A.cells algebra.old) bits.now }
    requires placing { IsPlacing bits.now }
    requires so_far { A.has algebra.old so_far }
    ensures keeps { A.keeps algebra.old algebra.new }
    ensures made { IfOk result (A.has algebra.new) }
    ensures told { (store : List ℕ) → Agree bits.now.bits.items store → HasBit bits.now.bits.items lit.var → IfOk result (λ r. A.truth algebra.new r store ≡ (A.truth algebra.old so_far store || lit_value (read bits.now.bits.items store) lit)) }
{
    let other = literal(alloc, algebra, bits, lit)?;
    algebra.either(alloc, so_far, other)
}

// Adds a literal to a disjunction, if its variable occurs behind the cut.
fn add_behind<A: Algebra>(
    alloc: Global,
    algebra: &mut A,
    cut: &Cut,
    so_far: Formula,
    lit: Lit,
) -> Result<Formula, A::Fail>
    requires bits { AreCutBits (A.cells algebra.old) cut.now.bits.now }
    requires placing { IsPlacing cut.now.bits.now }
    requires so_far { A.has algebra.old so_far }
    ensures keeps { A.keeps algebra.old algebra.new }
    ensures made { IfOk result (A.has algebra.new) }
    ensures told { (store : List ℕ) → AreAgreed cut.now store → (noted_behind cut.now lit.var ≡ true → HasBit cut.now.bits.now.bits.items lit.var) → IfOk result (λ r. A.truth algebra.new r store ≡ (A.truth algebra.old so_far store || (noted_behind cut.now lit.var && lit_value (value_of cut.now store) lit))) }
{
    if cut.ends.is_behind(lit.var, cut.edge) {
        add_literal(alloc, algebra, cut.bits, so_far, lit)
    } else {
        Ok(so_far)
    }
}

// A clause before the cut: the disjunction of its literals whose variables occur behind the cut.
fn leaf<A: Algebra>(
    alloc: Global,
    algebra: &mut A,
    cut: &Cut,
    clause: &[Lit],
) -> Result<Formula, A::Fail>
    requires bits { AreCutBits (A.cells algebra.old) cut.now.bits.now }
    requires placing { IsPlacing cut.now.bits.now }
    ensures keeps { A.keeps algebra.old algebra.new }
    ensures made { IfOk result (A.has algebra.new) }
    ensures told { (store : List ℕ) → AreAgreed cut.now store → AreBits cut.now clause.now → IfOk result (λ r. A.truth algebra.new r store ≡ some_holds (noted_behind cut.now) (value_of cut.now store) clause.now) }
{
    let mut so_far = algebra.constant(false)?;
    for lit in clause {
        so_far = add_behind(alloc, algebra, cut, so_far, *lit)?;
    }
    Ok(so_far)
}

// A clause that is not written down yet. A number that names no earlier clause stands in no valid log; nothing is known of it.
fn fresh<A: Algebra>(
    alloc: Global,
    algebra: &mut A,
    cut: &Cut,
    number: u32,
) -> Result<Formula, A::Fail>
    requires bits { AreCutBits (A.cells algebra.old) cut.now.bits.now }
    requires exact { IsCut cut.now }
    ensures keeps { A.keeps algebra.old algebra.new }
    ensures made { IfOk result (A.has algebra.new) }
    ensures told { (store : List ℕ) → AreAgreed cut.now store → AreCovered cut.now → (number < length cut.now.clauses.now → number < cut.now.edge) → IfOk result (λ r. A.truth algebra.new r store ≡ slice_index_or (leaf_truths cut.now store) number true) }
{
    if number < cut.clauses.len() {
        leaf(alloc, algebra, cut, cut.clauses.clause(number))
    } else {
        algebra.constant(true)
    }
}

// The formula of a clause or of an earlier chain's result. What comes from clauses behind the cut alone is true.
fn operand<A: Algebra>(
    alloc: Global,
    algebra: &mut A,
    memo: &mut Memo,
    cut: &Cut,
    number: u32,
) -> Result<Formula, A::Fail>
    requires bits { AreCutBits (A.cells algebra.old) cut.now.bits.now }
    requires exact { IsCut cut.now }
    requires known { AllKnown (A.has algebra.old) memo.old }
    ensures keeps { A.keeps algebra.old algebra.new }
    ensures made { IfOk result (A.has algebra.new) }
    ensures known { OnOk result (AllKnown (A.has algebra.new) memo.new) }
    ensures long { length memo.new ≡ length memo.old }
    ensures grows { (k : ℕ) → HasEntry memo.old k → HasEntry memo.new k }
    ensures told { (store : List ℕ) → AreAgreed cut.now store → AreCovered cut.now → AreTrue (A.truth algebra.old) cut.now store memo.old → IsKept cut.now memo.old number → IfOk result (λ r. A.truth algebra.new r store ≡ truth_of cut.now store number) }
    ensures truths { (store : List ℕ) → AreAgreed cut.now store → AreCovered cut.now → AreTrue (A.truth algebra.old) cut.now store memo.old → IsKept cut.now memo.old number → OnOk result (AreTrue (A.truth algebra.new) cut.now store memo.new) }
{
    if cut.cone.is_behind(number, cut.edge) {
        return algebra.constant(true);
    }
    if let Some(formula) = memo.find(number as usize) {
        return Ok(formula);
    }
    let formula = fresh(alloc, algebra, cut, number)?;
    memo.set(number as usize, formula);
    Ok(formula)
}

// A step: a conjunction where the pivot occurs behind the cut, else a disjunction.
fn resolved<A: Algebra>(
    alloc: Global,
    algebra: &mut A,
    cut: &Cut,
    pivot: u32,
    left: Formula,
    right: Formula,
) -> Result<Formula, A::Fail>
    requires left { A.has algebra.old left }
    requires right { A.has algebra.old right }
    ensures keeps { A.keeps algebra.old algebra.new }
    ensures made { IfOk result (A.has algebra.new) }
    ensures told { IfOk result (λ r. (store : List ℕ) → A.truth algebra.new r store ≡ joined (noted_behind cut.now pivot) (A.truth algebra.old left store) (A.truth algebra.old right store)) }
{
    if cut.ends.is_behind(pivot, cut.edge) {
        algebra.both(alloc, left, right)
    } else {
        algebra.either(alloc, left, right)
    }
}

// A step of a chain, whose formula so far is given.
fn step<A: Algebra>(
    alloc: Global,
    algebra: &mut A,
    memo: &mut Memo,
    cut: &Cut,
    so_far: Formula,
    pair: (u32, u32),
) -> Result<Formula, A::Fail>
    requires bits { AreCutBits (A.cells algebra.old) cut.now.bits.now }
    requires exact { IsCut cut.now }
    requires known { AllKnown (A.has algebra.old) memo.old }
    requires so_far { A.has algebra.old so_far }
    ensures keeps { A.keeps algebra.old algebra.new }
    ensures made { IfOk result (A.has algebra.new) }
    ensures known { OnOk result (AllKnown (A.has algebra.new) memo.new) }
    ensures long { length memo.new ≡ length memo.old }
    ensures grows { (k : ℕ) → HasEntry memo.old k → HasEntry memo.new k }
    ensures told { (store : List ℕ) → AreAgreed cut.now store → AreCovered cut.now → AreTrue (A.truth algebra.old) cut.now store memo.old → IsKept cut.now memo.old pair.1 → IfOk result (λ r. A.truth algebra.new r store ≡ joined (noted_behind cut.now pair.0) (A.truth algebra.old so_far store) (truth_of cut.now store pair.1)) }
    ensures truths { (store : List ℕ) → AreAgreed cut.now store → AreCovered cut.now → AreTrue (A.truth algebra.old) cut.now store memo.old → IsKept cut.now memo.old pair.1 → OnOk result (AreTrue (A.truth algebra.new) cut.now store memo.new) }
{
    let other = operand(alloc, algebra, memo, cut, pair.1)?;
    resolved(alloc, algebra, cut, pair.0, so_far, other)
}

// The formula of a chain's result.
fn chain_formula<A: Algebra>(
    alloc: Global,
    algebra: &mut A,
    memo: &mut Memo,
    cut: &Cut,
    chain: &Chain,
) -> Result<Formula, A::Fail>
    requires bits { AreCutBits (A.cells algebra.old) cut.now.bits.now }
    requires exact { IsCut cut.now }
    requires known { AllKnown (A.has algebra.old) memo.old }
    ensures keeps { A.keeps algebra.old algebra.new }
    ensures made { IfOk result (A.has algebra.new) }
    ensures known { OnOk result (AllKnown (A.has algebra.new) memo.new) }
    ensures long { length memo.new ≡ length memo.old }
    ensures grows { (k : ℕ) → HasEntry memo.old k → HasEntry memo.new k }
    ensures told { (store : List ℕ) → AreAgreed cut.now store → AreCovered cut.now → AreTrue (A.truth algebra.old) cut.now store memo.old → AreKept cut.now memo.old chain.now → IfOk result (λ r. A.truth algebra.new r store ≡ chain_truth (noted_behind cut.now) (all_truths cut.now store) chain.now) }
    ensures truths { (store : List ℕ) → AreAgreed cut.now store → AreCovered cut.now → AreTrue (A.truth algebra.old) cut.now store memo.old → AreKept cut.now memo.old chain.now → OnOk result (AreTrue (A.truth algebra.new) cut.now store memo.new) }
{
    let mut so_far = operand(alloc, algebra, memo, cut, chain.first)?;
    for pair in chain.pairs.as_slice() {
        so_far = step(alloc, algebra, memo, cut, so_far, *pair)?;
    }
    Ok(so_far)
}

// The formula of the chain at a place, if the last chain comes from it.
fn visit<A: Algebra>(
    alloc: Global,
    algebra: &mut A,
    memo: &mut Memo,
    cut: &Cut,
    place: usize,
    chain: &Chain,
) -> Result<Formula, A::Fail>
    requires place { place < 4294967296 }
    requires at { slice_get cut.now.log.now place ≡ Some chain.now }
    requires bits { AreCutBits (A.cells algebra.old) cut.now.bits.now }
    requires exact { IsCut cut.now }
    requires known { AllKnown (A.has algebra.old) memo.old }
    ensures keeps { A.keeps algebra.old algebra.new }
    ensures made { IfOk result (A.has algebra.new) }
    ensures known { OnOk result (AllKnown (A.has algebra.new) memo.new) }
    ensures long { length memo.new ≡ length memo.old }
    ensures met { AreMet cut.now place memo.old → OnOk result (AreMet cut.now (place + 1) memo.new) }
    ensures told { (store : List ℕ) → AreAgreed cut.now store → AreCovered cut.now → AreTrue (A.truth algebra.old) cut.now store memo.old → AreMet cut.now place memo.old → place + 1 ≡ length cut.now.log.now → IfOk result (λ r. A.truth algebra.new r store ≡ truth_of cut.now store (length cut.now.clauses.now + place)) }
    ensures truths { (store : List ℕ) → AreAgreed cut.now store → AreCovered cut.now → AreTrue (A.truth algebra.old) cut.now store memo.old → AreMet cut.now place memo.old → OnOk result (AreTrue (A.truth algebra.new) cut.now store memo.new) }
{
    if !cut.cone.is_met(place, cut.edge) {
        return algebra.constant(true);
    }
    let formula = chain_formula(alloc, algebra, memo, cut, chain)?;
    memo.set(cut.clauses.len() as usize + place, formula);
    Ok(formula)
}

// The formula of the last chain's result.
fn last_formula<A: Algebra>(
    alloc: Global,
    algebra: &mut A,
    memo: &mut Memo,
    cut: &Cut,
) -> Result<Formula, A::Fail>
    requires bits { AreCutBits (A.cells algebra.old) cut.now.bits.now }
    requires exact { IsCut cut.now }
    requires known { AllKnown (A.has algebra.old) memo.old }
    ensures keeps { A.keeps algebra.old algebra.new }
    ensures long { length memo.new ≡ length memo.old }
    ensures made { IfOk result (A.has algebra.new) }
    ensures told { (store : List ℕ) → AreAgreed cut.now store → AreCovered cut.now → AreTrue (A.truth algebra.old) cut.now store memo.old → AreMet cut.now 0 memo.old → 0 < length cut.now.log.now → IfOk result (λ r. A.truth algebra.new r store ≡ last_of (all_truths cut.now store)) }
{
    let mut formula = algebra.constant(true)?;
    let chains = cut.log.chains();
    for place in 0..chains.len() {
        formula = visit(alloc, algebra, memo, cut, place, &chains[place])?;
    }
    Ok(formula)
}

// What says that a bit's literal is true.
fn placed_literal<A: Algebra>(
    alloc: Global,
    algebra: &mut A,
    placed: Placed,
) -> Result<Formula, A::Fail>
    requires { IsPlaced (A.cells algebra.old) placed }
    ensures keeps { A.keeps algebra.old algebra.new }
    ensures made { IfOk result (A.has algebra.new) }
    ensures told { IfOk result (λ r. (store : List ℕ) → A.truth algebra.new r store ≡ said store placed) }
{
    algebra.bit(alloc, placed.bit, placed.lit.positive)
}

// What says that two bits agree by their signs.
fn agreement<A: Algebra>(alloc: Global, algebra: &mut A, twins: Twins) -> Result<Formula, A::Fail>
    requires one { IsPlaced (A.cells algebra.old) twins.one }
    requires other { IsPlaced (A.cells algebra.old) twins.other }
    ensures keeps { A.keeps algebra.old algebra.new }
    ensures made { IfOk result (A.has algebra.new) }
    ensures told { IfOk result (λ r. (store : List ℕ) → A.truth algebra.new r store ≡ twin_agrees store twins) }
{
    let one = placed_literal(alloc, algebra, twins.one)?;
    let other = placed_literal(alloc, algebra, twins.other)?;
    algebra.same(alloc, one, other)
}

// Adds to a conjunction that two bits agree.
fn add_agreement<A: Algebra>(
    alloc: Global,
    algebra: &mut A,
    so_far: Formula,
    twins: Twins,
) -> Result<Formula, A::Fail>
    requires so_far { A.has algebra.old so_far }
    requires one { IsPlaced (A.cells algebra.old) twins.one }
    requires other { IsPlaced (A.cells algebra.old) twins.other }
    ensures keeps { A.keeps algebra.old algebra.new }
    ensures made { IfOk result (A.has algebra.new) }
    ensures told { IfOk result (λ r. (store : List ℕ) → A.truth algebra.new r store ≡ (twin_agrees store twins && A.truth algebra.old so_far store)) }
{
    let agree = agreement(alloc, algebra, twins)?;
    algebra.both(alloc, agree, so_far)
}

// What says that all bits whose literals have one variable agree.
fn agreements<A: Algebra>(
    alloc: Global,
    algebra: &mut A,
    bits: &CutBits,
) -> Result<Formula, A::Fail>
    requires { AreCutBits (A.cells algebra.old) bits.now }
    ensures keeps { A.keeps algebra.old algebra.new }
    ensures made { IfOk result (A.has algebra.new) }
    ensures told { IfOk result (λ r. (store : List ℕ) → A.truth algebra.new r store ≡ agree_from store true bits.now.twins.items) }
{
    let mut so_far = algebra.constant(true)?;
    for twins in &bits.twins {
        so_far = add_agreement(alloc, algebra, so_far, *twins)?;
    }
    Ok(so_far)
}

/// The formula of a cut: that of the last chain's result, and that all bits whose literals have one variable agree.
pub fn cut_formula<A: Algebra>(
    alloc: Global,
    algebra: &mut A,
    memo: &mut Memo,
    cut: &Cut,
) -> Result<Formula, A::Fail>
    requires bits { AreCutBits (A.cells algebra.old) cut.now.bits.now }
    requires exact { IsCut cut.now }
    ensures keeps { A.keeps algebra.old algebra.new }
    ensures made { IfOk result (A.has algebra.new) }
    ensures long { length memo.new ≡ length memo.old }
    ensures told { (store : List ℕ) → AreCovered cut.now → length memo.old ≡ length cut.now.clauses.now + length cut.now.log.now → 0 < length cut.now.log.now → IfOk result (λ r. IsCutTruth cut.now store (A.truth algebra.new r store)) }
{
    memo.forget();
    let agree = agreements(alloc, algebra, cut.bits)?;
    let formula = last_formula(alloc, algebra, memo, cut)?;
    algebra.both(alloc, formula, agree)
}
