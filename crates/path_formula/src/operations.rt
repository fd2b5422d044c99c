//! The clauses of an edge's operations.
ghost use Rattle.std.specs.Prelude.{◌≡◌, ◌<◌, ◌≤◌, ◌++◌, ◌∷◌, [], All, length, slice_index, slice_index_or, false, IfErr, IfOk, OnOk};
ghost use Rattle.bv_term.specs.WellFormed.{Table};
ghost use Rattle.c_graph.specs.Shape.{OperationFits, FitsCell, IsIndexed, HasWidth};
ghost use Rattle.bit_gates.specs.Cut.{Cut};
ghost use Rattle.bit_blast.specs.Emission.{cell_at};
ghost use Rattle.bit_blast.specs.Held.{IsOver, fresh_of, rebind_of};
ghost use Rattle.path_query.specs.Facts.{IsBundle};
ghost use Rattle.path_formula.specs.Needs.{operations_at};
ghost use Rattle.path_formula.specs.Added.{added, added_all, assumed, drawn_into, set_to, stored_at};

use crate::needs::operations_of;
use bit_blast::{Bits, blast, blast_all};
use bv_term::{TermId, Terms};
use c_graph::{EdgeId, Graph, Operation};
use path_query::{Bundle, Lits};
use prop::{BlastFail, Clauses, Lit};
use std::alloc::Global;

/// Adds that a term holds.
fn assume(
    alloc: Global,
    terms: &Terms,
    term: TermId,
    clauses: &mut Clauses,
    bits: &mut Bits,
) -> Result<(), BlastFail>
    requires term { HasWidth terms.now term 1 }
    requires over { IsOver terms.now bits.old }
    ensures clauses { OnOk result (clauses.new ≡ clauses.old ++ (assumed terms.now term.0 bits.old).clauses) }
    ensures held { OnOk result (bits.new ≡ (assumed terms.now term.0 bits.old).held) }
    ensures over { OnOk result (IsOver terms.now bits.new) }
    ensures cut { IfErr result (λ e. Cut e clauses.old (assumed terms.now term.0 bits.old).clauses clauses.new) }
{
    let lit = match blast(alloc, terms, term, clauses, bits) {
        Err(end) => return Err(end),
        Ok(lit) => lit,
    };
    match clauses.push(&[lit]) {
        Err(end) => Err(end),
        Ok(()) => Ok(()),
    }
}

/// Gives a cell these literals.
fn rebind(cell: u32, to: Vec<Lit>, clauses: &mut Clauses, bits: &mut Bits)
    requires cell { cell < length bits.old.cells }
    requires width { length to.items ≡ length (cell_at bits.old.cells cell) }
    ensures clauses { clauses.new ≡ clauses.old }
    ensures held { bits.new ≡ rebind_of cell to.items bits.old }
    ensures over { (table : Table) → IsOver table bits.old → IsOver table bits.new }
{
    match bits.rebind(clauses, cell, to) {
        Ok(()) => (),
        Err(_) => unreachable!(),
    }
}

/// Gives a cell the literals of a term.
#[tactic(auto, using(crate::proofs::Parts::cell_there, crate::proofs::Parts::cell_long))]
fn set(
    alloc: Global,
    terms: &Terms,
    cell: u32,
    term: TermId,
    clauses: &mut Clauses,
    bits: &mut Bits,
) -> Result<(), BlastFail>
    requires fits { FitsCell terms.now cell term }
    requires over { IsOver terms.now bits.old }
    ensures clauses { OnOk result (clauses.new ≡ clauses.old ++ (set_to terms.now cell term.0 bits.old).clauses) }
    ensures held { OnOk result (bits.new ≡ (set_to terms.now cell term.0 bits.old).held) }
    ensures over { OnOk result (IsOver terms.now bits.new) }
    ensures cut { IfErr result (λ e. Cut e clauses.old (set_to terms.now cell term.0 bits.old).clauses clauses.new) }
{
    let lits = match blast_all(alloc, terms, term, clauses, bits) {
        Err(end) => return Err(end),
        Ok(lits) => lits,
    };
    rebind(cell, lits, clauses, bits);
    Ok(())
}

/// Stores a term's value at an index among cells.
fn set_at(
    alloc: Global,
    terms: &Terms,
    first: u32,
    count: u32,
    index: TermId,
    term: TermId,
    clauses: &mut Clauses,
    bits: &mut Bits,
) -> Result<(), BlastFail>
    requires indexed { IsIndexed terms.now first count index }
    requires term { HasWidth terms.now term (slice_index terms.now.cells first) }
    requires over { IsOver terms.now bits.old }
    ensures clauses { OnOk result (clauses.new ≡ clauses.old ++ (stored_at terms.now first count index.0 term.0 bits.old).clauses) }
    ensures held { OnOk result (bits.new ≡ (stored_at terms.now first count index.0 term.0 bits.old).held) }
    ensures over { OnOk result (IsOver terms.now bits.new) }
    ensures cut { IfErr result (λ e. Cut e clauses.old (stored_at terms.now first count index.0 term.0 bits.old).clauses clauses.new) }
{
    let _all = terms.count();
    let places = match blast_all(alloc, terms, index, clauses, bits) {
        Err(end) => return Err(end),
        Ok(places) => places,
    };
    let value = match blast_all(alloc, terms, term, clauses, bits) {
        Err(end) => return Err(end),
        Ok(value) => value,
    };
    match bits.store_at(alloc, clauses, first, count, &places, &value) {
        Err(end) => Err(end),
        Ok(()) => Ok(()),
    }
}

/// A cell with literals, appended.
pub fn push_bundle(bundles: &mut Vec<Bundle>, cell: u32, lits: Vec<Lit>) -> Result<(), BlastFail>
    ensures pushed { OnOk result (bundles.new.items ≡ bundles.old.items ++ record { cell = cell; bits = lits.items } ∷ []) }
    ensures memory { IfErr result (λ e. e ≡ BlastFail.Memory) }
{
    let bits = Lits::new(lits);
    match bundles.push(Bundle { cell, bits }) {
        Ok(()) => Ok(()),
        Err(_) => Err(BlastFail::Memory),
    }
}

/// A copy of some literals.
pub fn copied(alloc: Global, lits: &[Lit]) -> Result<Vec<Lit>, BlastFail>
    ensures same { IfOk result (λ r. r.items ≡ lits.now) }
    ensures memory { IfErr result (λ e. e ≡ BlastFail.Memory) }
{
    match Vec::from_slice(alloc, lits) {
        Ok(copy) => Ok(copy),
        Err(_) => Err(BlastFail::Memory),
    }
}

/// As many literals as a cell is wide, of variables that occur nowhere yet.
fn fresh(alloc: Global, width: u32, bits: &mut Bits) -> Result<Vec<Lit>, BlastFail>
    ensures made { IfOk result (λ r. (r.items ≡ (fresh_of width bits.old).outs) × (bits.new ≡ (fresh_of width bits.old).held)) }
    ensures over { OnOk result ((table : Table) → IsOver table bits.old → IsOver table bits.new) }
    ensures memory { IfErr result (λ e. e ≡ BlastFail.Memory) }
{
    match bits.fresh(alloc, width) {
        Ok(lits) => Ok(lits),
        Err(_) => Err(BlastFail::Memory),
    }
}

/// Gives a cell literals of its own, which stand for the next input.
#[tactic(auto, using(crate::proofs::Parts::cell_there, crate::proofs::Parts::cell_long, crate::proofs::Parts::fresh_long))]
fn draw(
    alloc: Global,
    terms: &Terms,
    cell: u32,
    clauses: &mut Clauses,
    bits: &mut Bits,
    draws: &mut Vec<Bundle>,
) -> Result<(), BlastFail>
    requires cell { cell < length terms.now.cells }
    requires over { IsOver terms.now bits.old }
    ensures draws { OnOk result (draws.new.items ≡ draws.old.items ++ (drawn_into terms.now cell bits.old).draws) }
    ensures held { OnOk result (bits.new ≡ (drawn_into terms.now cell bits.old).held) }
    ensures over { OnOk result (IsOver terms.now bits.new) }
    ensures same { clauses.new ≡ clauses.old }
    ensures memory { IfErr result (λ e. e ≡ BlastFail.Memory) }
{
    let width = terms.cells()[cell as usize];
    let lits = fresh(alloc, width, bits)?;
    let copy = copied(alloc, &lits)?;
    push_bundle(draws, cell, copy)?;
    rebind(cell, lits, clauses, bits);
    Ok(())
}

/// Adds one operation.
fn add_operation(
    alloc: Global,
    terms: &Terms,
    operation: Operation,
    clauses: &mut Clauses,
    bits: &mut Bits,
    draws: &mut Vec<Bundle>,
) -> Result<(), BlastFail>
    requires fits { OperationFits terms.now operation }
    requires over { IsOver terms.now bits.old }
    ensures clauses { OnOk result (clauses.new ≡ clauses.old ++ (added terms.now bits.old operation).clauses) }
    ensures draws { OnOk result (draws.new.items ≡ draws.old.items ++ (added terms.now bits.old operation).draws) }
    ensures held { OnOk result (bits.new ≡ (added terms.now bits.old operation).held) }
    ensures over { OnOk result (IsOver terms.now bits.new) }
    ensures cut { IfErr result (λ e. Cut e clauses.old (added terms.now bits.old operation).clauses clauses.new) }
{
    match operation {
        Operation::Assume(term) => assume(alloc, terms, term, clauses, bits),
        Operation::Set(cell, term) => set(alloc, terms, cell, term, clauses, bits),
        Operation::SetAt(first, count, index, term) => {
            set_at(alloc, terms, first, count, index, term, clauses, bits)
        }
        Operation::Draw(cell, _) => draw(alloc, terms, cell, clauses, bits, draws),
    }
}

/// Whether a flag is set, which none is past the last.
fn is_set(flags: &[bool], at: usize) -> bool
    ensures { result ≡ slice_index_or flags.now at false }
{
    if at < flags.len() { flags[at] } else { false }
}

/// Adds operations in order, each where its flag is set.
fn add_all(
    alloc: Global,
    terms: &Terms,
    ops: &[Operation],
    kept: &[bool],
    clauses: &mut Clauses,
    bits: &mut Bits,
    draws: &mut Vec<Bundle>,
) -> Result<(), BlastFail>
    requires fits { All (OperationFits terms.now) ops.now }
    requires over { IsOver terms.now bits.old }
    ensures clauses { OnOk result (clauses.new ≡ clauses.old ++ (added_all terms.now bits.old ops.now kept.now).clauses) }
    ensures draws { OnOk result (draws.new.items ≡ draws.old.items ++ (added_all terms.now bits.old ops.now kept.now).draws) }
    ensures held { OnOk result (bits.new ≡ (added_all terms.now bits.old ops.now kept.now).held) }
    ensures over { OnOk result (IsOver terms.now bits.new) }
    ensures cut { IfErr result (λ e. Cut e clauses.old (added_all terms.now bits.old ops.now kept.now).clauses clauses.new) }
{
    for number in 0..ops.len() {
        if is_set(kept, number) {
            add_operation(alloc, terms, ops[number], clauses, bits, draws)?;
        }
    }
    Ok(())
}

/// Adds the clauses of an edge's operations, each where its flag of `kept` is set, and appends what the edge draws. The
/// cells hold what they have behind the edge then. It fails where the literals would pass the limit, or for want of memory
/// or variables; the arguments are of no further use then.
pub fn add_edge(
    alloc: Global,
    graph: &Graph,
    edge: EdgeId,
    kept: &[bool],
    clauses: &mut Clauses,
    bits: &mut Bits,
    draws: &mut Vec<Bundle>,
) -> Result<(), BlastFail>
    requires over { IsOver graph.now.terms bits.old }
    ensures clauses { OnOk result (clauses.new ≡ clauses.old ++ (added_all graph.now.terms bits.old (operations_at graph.now.edges edge.0) kept.now).clauses) }
    ensures draws { OnOk result (draws.new.items ≡ draws.old.items ++ (added_all graph.now.terms bits.old (operations_at graph.now.edges edge.0) kept.now).draws) }
    ensures held { OnOk result (bits.new ≡ (added_all graph.now.terms bits.old (operations_at graph.now.edges edge.0) kept.now).held) }
    ensures over { OnOk result (IsOver graph.now.terms bits.new) }
    ensures bundles { OnOk result (All (IsBundle graph.now.terms.cells) draws.old.items → All (IsBundle graph.now.terms.cells) draws.new.items) }
    ensures cut { IfErr result (λ e. Cut e clauses.old (added_all graph.now.terms bits.old (operations_at graph.now.edges edge.0) kept.now).clauses clauses.new) }
{
    let ops = operations_of(graph, edge);
    add_all(alloc, graph.terms(), ops, kept, clauses, bits, draws)
}
