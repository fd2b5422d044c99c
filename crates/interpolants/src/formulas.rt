//! A formula for each cut of a path.

ghost use Rattle.std.specs.Prelude.{◌≡◌, ◌+◌, ◌<◌, ◌-◌, ℕ, List, length, suc, All, IfOk, OnOk, Some, slice_get, slice_index_or};
ghost use Rattle.bv_term.specs.Laws.{Extends};
ghost use Rattle.c_graph.specs.Shape.{widths_of};
ghost use Rattle.formula_diagrams.specs.Writings.{IsOneBit, IsPlain};
ghost use Rattle.path_query.specs.declared.query.Bundle.{Bundle};
ghost use Rattle.path_query.specs.Facts.{IsBundle, IsQuery};
ghost use Rattle.resolution_log.specs.Chains.{IsRefutation};
ghost use Rattle.interpolants.specs.declared.items.Placed.{Placed};
ghost use Rattle.interpolants.specs.CutMeanings.{AreCutFormulas, IsCutFormula, IsFormulaAt};
ghost use Rattle.interpolants.specs.Cuts.{Adds, AreCutBits, AreFormulas};
ghost use Rattle.interpolants.specs.Knowing.{IsKnown};
ghost use Rattle.interpolants.specs.Keeping.{term_truth};
ghost use Rattle.interpolants.specs.NamedCells.{AreKeptCells, AreNamed, IsNamedAt};
ghost use Rattle.interpolants.specs.Placings.{SameBits, bits_of};
ghost use Rattle.interpolants.specs.Sources.{AreEnds};
ghost use Rattle.interpolants.specs.Walks.{AreCovered, IsCut, IsCutTruth};
ghost use Rattle.term_masks.specs.Masks.{IsKept};

use crate::cone::Cone;
use crate::mask::kept_of;
use crate::occurrences::Ends;
use crate::placing::place_bits;
use crate::plain::put_end;
use crate::recall::Memo;
use crate::walk::{Cut, cut_formula};
use bv_term::{TermId, Terms};
use c_graph::{EdgeId, Graph};
use formula_diagrams::{DiagramFail, Diagrams, NodeId};
use lv_base::Memory;
use path_query::{Bundle, PathQuery};
use resolution_log::Log;
use std::alloc::Global;
use term_copy::number_in;
use term_masks::masked;

/// A formula whose diagram would have more nodes is made of plain terms.
const MOST_NODES: u32 = 4_000;

// What is known of the question and its refutation at every cut.
#[derive(Drop)]
pub struct Known {
    ends: Ends,
    cone: Cone,
}

fn known_of(alloc: Global, query: &PathQuery, log: &Log) -> Result<Known, Memory>
    ensures { IfOk result (IsKnown query.now.clauses log.now) }
{
    let ends = Ends::new(alloc, &query.clauses)?;
    let cone = Cone::new(alloc, query.clauses.len(), log.chains())?;
    Ok(Known { ends, cone })
}

// The formula of a cut as a decision diagram, which is written into the table.
fn put_diagram(
    alloc: Global,
    cut: &Cut,
    memo: &mut Memo,
    terms: &mut Terms,
) -> Result<TermId, DiagramFail>
    requires bits { AreCutBits terms.old.cells cut.now.bits.now }
    requires exact { IsCut cut.now }
    ensures extends { Extends terms.old terms.new }
    ensures bit { IfOk result (IsOneBit terms.new) }
    ensures long { length memo.new ≡ length memo.old }
    ensures told { (store : List ℕ) → AreCovered cut.now → length memo.old ≡ length cut.now.clauses.now + length cut.now.log.now → 0 < length cut.now.log.now → IfOk result (λ t. IsCutTruth cut.now store (term_truth terms.new (record { 0 = t.0 }) store)) }
{
    let cells = Vec::from_slice(alloc, terms.cells())?;
    let mut diagrams = Diagrams::new(alloc, cells, MOST_NODES);
    let formula = cut_formula(alloc, &mut diagrams, memo, cut)?;
    let term = diagrams.written(alloc, NodeId(formula.0), terms)?;
    Ok(term)
}

// The formula of a cut made of plain terms.
fn put_plain(alloc: Global, cut: &Cut, memo: &mut Memo, terms: &mut Terms) -> Result<TermId, Memory>
    requires bits { AreCutBits terms.old.cells cut.now.bits.now }
    requires exact { IsCut cut.now }
    ensures extends { Extends terms.old terms.new }
    ensures bit { IfOk result (IsOneBit terms.new) }
    ensures long { length memo.new ≡ length memo.old }
    ensures told { (store : List ℕ) → AreCovered cut.now → length memo.old ≡ length cut.now.clauses.now + length cut.now.log.now → 0 < length cut.now.log.now → IfOk result (λ t. IsCutTruth cut.now store (term_truth terms.new (record { 0 = t.0 }) store)) }
{
    let formula = cut_formula(alloc, terms, memo, cut)?;
    Ok(TermId(formula.0))
}

// The formula of a cut.
fn put_formula(
    alloc: Global,
    cut: &Cut,
    memo: &mut Memo,
    terms: &mut Terms,
) -> Result<TermId, Memory>
    requires bits { AreCutBits terms.old.cells cut.now.bits.now }
    requires exact { IsCut cut.now }
    ensures extends { Extends terms.old terms.new }
    ensures bit { IfOk result (IsOneBit terms.new) }
    ensures long { length memo.new ≡ length memo.old }
    ensures meaning { (bits : List Placed) → AreEnds cut.now.clauses.now cut.now.ends.now → SameBits bits cut.now.bits.now.bits.items → length memo.old ≡ length cut.now.clauses.now + length cut.now.log.now → 0 < length cut.now.log.now → IfOk result (IsCutFormula terms.new cut.now.clauses.now cut.now.log.now cut.now.edge bits) }
{
    match put_diagram(alloc, cut, memo, terms) {
        Ok(term) => Ok(term),
        Err(DiagramFail::TooLarge) => put_plain(alloc, cut, memo, terms),
        Err(DiagramFail::Memory) => Err(Memory),
    }
}

// The formula of a cut, made in a table of its own, and put into another with 0 in place of all cells but those that are kept. It depends on
// the cells of the cut alone, so where they are kept it is the same formula.
fn put_kept(
    alloc: Global,
    cut: &Cut,
    kept: &[bool],
    memo: &mut Memo,
    terms: &mut Terms,
) -> Result<TermId, Memory>
    requires bits { AreCutBits terms.old.cells cut.now.bits.now }
    requires exact { IsCut cut.now }
    ensures extends { Extends terms.old terms.new }
    ensures bit { IfOk result (IsOneBit terms.new) }
    ensures long { length memo.new ≡ length memo.old }
    ensures names { IfOk result (IsPlain terms.new (IsKept kept.now)) }
    ensures meaning { (bundles : List Bundle) → AreEnds cut.now.clauses.now cut.now.ends.now → SameBits (bits_of bundles) cut.now.bits.now.bits.items → AreKeptCells kept.now bundles → length memo.old ≡ length cut.now.clauses.now + length cut.now.log.now → 0 < length cut.now.log.now → IfOk result (IsCutFormula terms.new cut.now.clauses.now cut.now.log.now cut.now.edge (bits_of bundles)) }
{
    let cells = Vec::from_slice(alloc, terms.cells())?;
    let mut own = Terms::new(alloc, cells);
    let formula = put_formula(alloc, cut, memo, &mut own)?;
    let to = masked(alloc, &own, kept, terms)?;
    Ok(number_in(&to, formula))
}

// The cells of a cut.
fn bundles_at(query: &PathQuery, number: usize) -> &[Bundle]
    requires { number < length query.now.cuts }
    ensures at { slice_get query.now.cuts number ≡ Some result.now }
    ensures bundles { (cells : List ℕ) → All (All (IsBundle cells)) query.now.cuts → All (IsBundle cells) result.now }
{
    query.cuts.as_slice()[number].as_slice()
}

// The clauses before a cut.
fn edge_at(query: &PathQuery, number: usize) -> u32
    requires { number < length query.now.starts }
    ensures { result ≡ slice_index_or query.now.starts number (length query.now.clauses) }
{
    query.starts.as_slice()[number]
}

// The formula of a cut that is neither the first nor the last.
fn put_at(
    alloc: Global,
    query: &PathQuery,
    log: &Log,
    known: &Known,
    number: usize,
    memo: &mut Memo,
    terms: &mut Terms,
) -> Result<TermId, Memory>
    requires known { IsKnown query.now.clauses log.now known.now }
    requires refuted { IsRefutation query.now.clauses log.now }
    requires inner { 0 < number }
    requires start { number < length query.now.starts }
    requires cut { number < length query.now.cuts }
    requires bundles { All (All (IsBundle terms.old.cells)) query.now.cuts }
    requires room { length memo.old ≡ length query.now.clauses + length log.now }
    ensures extends { Extends terms.old terms.new }
    ensures bit { IfOk result (IsOneBit terms.new) }
    ensures long { length memo.new ≡ length memo.old }
    ensures names { IfOk result (IsNamedAt terms.new query.now number) }
    ensures meaning { IfOk result (IsFormulaAt terms.new query.now log.now number) }
{
    let _count = terms.count();
    let bundles = bundles_at(query, number);
    let edge = edge_at(query, number);
    let bits = place_bits(alloc, bundles)?;
    let kept = kept_of(alloc, bundles, terms.cells().len())?;
    let cut = Cut {
        clauses: &query.clauses,
        log,
        ends: &known.ends,
        cone: &known.cone,
        bits: &bits,
        edge,
    };
    put_kept(alloc, &cut, &kept, memo, terms)
}

// Adds the formulas of the cuts that are neither the first nor the last.
fn put_inner(
    alloc: Global,
    query: &PathQuery,
    log: &Log,
    formulas: &mut Vec<TermId>,
    terms: &mut Terms,
) -> Result<(), Memory>
    requires refuted { IsRefutation query.now.clauses log.now }
    requires cuts { length query.now.cuts ≡ suc (length query.now.starts) }
    requires bundles { All (All (IsBundle terms.old.cells)) query.now.cuts }
    requires first { length formulas.old.items ≡ 1 }
    requires named { AreNamed terms.old query.now formulas.old.items }
    ensures extends { Extends terms.old terms.new }
    ensures adds { OnOk result (Adds terms.new (length query.now.starts - 1) formulas.old.items formulas.new.items) }
    ensures names { OnOk result (AreNamed terms.new query.now formulas.new.items) }
    ensures meaning { OnOk result (AreCutFormulas terms.new query.now log.now formulas.new.items) }
{
    let known = known_of(alloc, query, log)?;
    let clauses = query.clauses.len() as usize;
    let mut memo = Memo::new(alloc, clauses + log.chains().len())?;
    for number in 1..query.starts.as_slice().len() {
        let formula = put_at(alloc, query, log, &known, number, &mut memo, terms)?;
        formulas.push(formula)?;
    }
    Ok(())
}

/// From a refutation of a path's clauses one formula for each cut of the path, the first true and the last false.
///
/// By McMillan's rules a clause of the steps before the cut is the disjunction of its literals whose variables occur behind the cut, a
/// clause behind the cut is true, a resolution on a variable that occurs behind the cut is a conjunction, and one on any other variable
/// is a disjunction. The formula of a cut is that of the last result. A variable stands for a bit of the cut whose literal has it, with
/// that literal's sign, and the formula also says that all bits whose literals have one variable agree.
///
/// At each cut it takes time in proportion to the pairs of the log from which the last result comes, but for what joining takes:
/// formulas are decision diagrams, and so have one number where they are equal, or plain terms where a diagram has more than some
/// thousand nodes. Each names the cells of its cut alone, in constants and bits of cells under `~`, `&` and `o`. After a failure further
/// terms may stand in the table.
pub fn chain(
    alloc: Global,
    graph: &Graph,
    path: &[EdgeId],
    query: &PathQuery,
    log: &Log,
    terms: &mut Terms,
) -> Result<Vec<TermId>, Memory>
    requires query { IsQuery (widths_of graph.now.cells) (length path.now) query.now }
    requires refuted { IsRefutation query.now.clauses log.now }
    requires cells { terms.old.cells ≡ widths_of graph.now.cells }
    ensures extends { Extends terms.old terms.new }
    ensures formulas { IfOk result (λ r. AreFormulas terms.new (length path.now) r.items) }
    ensures names { IfOk result (λ r. AreNamed terms.new query.now r.items) }
    ensures meaning { IfOk result (λ r. AreCutFormulas terms.new query.now log.now r.items) }
{
    let _ = graph.entry();
    let mut formulas = Vec::new(alloc);
    let first = put_end(terms, true)?;
    formulas.push(first)?;
    put_inner(alloc, query, log, &mut formulas, terms)?;
    if path.is_empty() {
        return Ok(formulas);
    }
    let last = put_end(terms, false)?;
    formulas.push(last)?;
    Ok(formulas)
}
