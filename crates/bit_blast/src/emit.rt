ghost use Rattle.std.specs.Prelude.{◌≡◌, ℕ, ◌+◌, ◌-◌, ◌≤◌, ◌<◌, length, map, take, drop, List, [], ◌∷◌, ◌++◌, IfOk, None, All, nat_lt, if◌then◌else◌};
ghost use Rattle.prop.specs.Logic.{negated};
ghost use Rattle.bit_gates.specs.Cut.{Grew};
ghost use Rattle.bit_gates.specs.Shifts.{top_of};
ghost use Rattle.bit_words.specs.Elements.{AllLong};
ghost use Rattle.bit_words.specs.Folding.{standing};
ghost use Rattle.bit_words.specs.Words.{spelled_of, copies_of};
ghost use Rattle.bit_blast.specs.Done.{lits_of};
ghost use Rattle.bit_blast.specs.Emission.{cell_at, no_cell, element_of, emission, IsReady, AllReady, emitted};

use crate::cells::{Cells, copied, some_cells};
use crate::done::DoneTerms;
use crate::gates::{
    extend, fold_ands, fold_arithmetic, fold_choice, fold_difference, fold_equal, fold_left,
    fold_less, fold_ors, fold_product, fold_quotient, fold_remainder, fold_right, fold_sum,
    fold_xors,
};
use bit_gates::{Net, NoRoom, negate_all};
use bit_words::{copies, fold, numeral, put_decoded, put_picked, spelled};
use bv_term::{Term, TermId, Terms};
use prop::Lit;
use std::alloc::Global;

// As many zeros as the first cell has literals.
fn put_none(alloc: Global, one: Lit, cells: &[Vec<Lit>]) -> Result<Vec<Lit>, NoRoom>
    requires { 1 ≤ length cells.now }
    ensures { IfOk result (λ r. r.items ≡ no_cell one (map (λ c. c.items) cells.now)) }
{
    let width = cells[0].len();
    let none = copies(alloc, one.negate(), width)?;
    Ok(none)
}

// The cell that an index names, where the index is not known: a literal for each place, and a choice by these.
fn put_choice(
    alloc: Global,
    net: &mut Net,
    one: Lit,
    cells: &[Vec<Lit>],
    index: &[Lit],
) -> Result<Vec<Lit>, NoRoom>
    requires some { 1 ≤ length cells.now }
    requires index { length index.now ≤ 128 }
    requires widths { AllLong (length (cell_at (map (λ c. c.items) cells.now) 0)) (map (λ c. c.items) cells.now) }
    ensures start { net.new.start ≡ net.old.start }
    ensures grew { IfOk result (λ r.
        let m = element_of one net.old.next (map (λ c. c.items) cells.now) index.now None in
        Grew net.old.next net.old.defs.items net.new.next net.new.defs.items m.defs × (r.items ≡ m.outs)) }
{
    let mut made = Net::new(alloc, net.next);
    let raw = put_decoded(alloc, &mut made, one, index, cells.len())?;
    let places = fold(alloc, net, one, &made, &raw)?;
    let none = put_none(alloc, one, cells)?;
    let mut chosen = Net::new(alloc, net.next);
    let outs = put_picked(alloc, &mut chosen, &places, cells, &none)?;
    let out = fold(alloc, net, one, &chosen, &outs)?;
    Ok(out)
}

// The cell at a known place among the `m` cells from the first on, or zeros.
fn put_known(
    alloc: Global,
    one: Lit,
    cells: &Cells,
    first: usize,
    m: usize,
    k: u128,
) -> Result<Vec<Lit>, NoRoom>
    requires { first + m ≤ length cells.now }
    ensures { IfOk result (λ r. r.items
        ≡ (if nat_lt k m then cell_at cells.now (first + k) else copies_of (negated one) (length (cell_at cells.now first)))) }
{
    let _all = cells.len();
    if k < m as u128 {
        cell_copy(alloc, cells, first + k as usize)
    } else {
        copies(alloc, one.negate(), cells.get(first).len())
    }
}

// The cell that an index names among the `m` cells from the first on, where the index is not known.
fn put_unknown(
    alloc: Global,
    net: &mut Net,
    one: Lit,
    cells: &Cells,
    first: usize,
    m: usize,
    index: &[Lit],
) -> Result<Vec<Lit>, NoRoom>
    requires some { 1 ≤ m }
    requires there { first + m ≤ length cells.now }
    requires index { length index.now ≤ 128 }
    requires widths { AllLong (length (cell_at (take m (drop first cells.now)) 0)) (take m (drop first cells.now)) }
    ensures start { net.new.start ≡ net.old.start }
    ensures grew { IfOk result (λ r.
        let m = element_of one net.old.next (take m (drop first cells.now)) index.now None in
        Grew net.old.next net.old.defs.items net.new.next net.new.defs.items m.defs × (r.items ≡ m.outs)) }
{
    let some = some_cells(alloc, cells, first, m)?;
    let out = put_choice(alloc, net, one, &some, index)?;
    Ok(out)
}

/// The cell that an index names among the `m` cells from the first on, which have one width, or zeros. A known index costs
/// one cell.
pub fn put_element(
    alloc: Global,
    net: &mut Net,
    one: Lit,
    cells: &Cells,
    first: usize,
    m: usize,
    index: &[Lit],
) -> Result<Vec<Lit>, NoRoom>
    requires some { 1 ≤ m }
    requires there { first + m ≤ length cells.now }
    requires index { length index.now ≤ 128 }
    requires widths { AllLong (length (cell_at (take m (drop first cells.now)) 0)) (take m (drop first cells.now)) }
    ensures start { net.new.start ≡ net.old.start }
    ensures grew { IfOk result (λ r.
        let m = element_of one net.old.next (take m (drop first cells.now)) index.now (spelled_of one index.now) in
        Grew net.old.next net.old.defs.items net.new.next net.new.defs.items m.defs × (r.items ≡ m.outs)) }
{
    match spelled(one, index) {
        Some(k) => put_known(alloc, one, cells, first, m, k),
        None => put_unknown(alloc, net, one, cells, first, m, index),
    }
}

// One bit of a word.
fn bit_of(lits: &[Lit], k: usize) -> Lit
    requires { k < length lits.now }
    ensures { result ≡ standing lits.now k }
{
    lits[k]
}

// The highest bit of a word.
fn top(lits: &[Lit]) -> Lit
    requires { 1 ≤ length lits.now }
    ensures { result ≡ top_of lits.now }
{
    lits[lits.len() - 1]
}

// One literal as a word.
fn word(alloc: Global, l: Lit) -> Result<Vec<Lit>, NoRoom>
    ensures { IfOk result (λ r. r.items ≡ l ∷ []) }
{
    let mut outs = Vec::new(alloc);
    outs.push(l)?;
    Ok(outs)
}

// The literals of a cell.
fn cell_copy(alloc: Global, cells: &Cells, cell: usize) -> Result<Vec<Lit>, NoRoom>
    ensures { IfOk result (λ r. r.items ≡ cell_at cells.now cell) }
{
    copied(alloc, cells.get(cell))
}

/// The literals of a term over those of its operands and of the cells, in a net that grows by what the term adds.
pub fn put_term(
    alloc: Global,
    net: &mut Net,
    one: Lit,
    cells: &Cells,
    done: &DoneTerms,
    term: Term,
) -> Result<Vec<Lit>, NoRoom>
    requires { IsReady cells.now (lits_of done.now) term }
    ensures start { net.new.start ≡ net.old.start }
    ensures grew { IfOk result (λ r.
        let m = emission one cells.now (lits_of done.now) net.old.next term in
        Grew net.old.next net.old.defs.items net.new.next net.new.defs.items m.defs × (r.items ≡ m.outs)) }
{
    match term {
        Term::Constant(w, v) => numeral(alloc, one, w, v),
        Term::Cell(c) => cell_copy(alloc, cells, c as usize),
        Term::Element(first, m, i) => {
            put_element(
                alloc,
                net,
                one,
                cells,
                first as usize,
                m as usize,
                done.lits(i.0),
            )
        }
        Term::Add(i, j) => fold_sum(alloc, net, one, done.lits(i.0), done.lits(j.0)),
        Term::Subtract(i, j) => fold_difference(alloc, net, one, done.lits(i.0), done.lits(j.0)),
        Term::Multiply(i, j) => fold_product(alloc, net, one, done.lits(i.0), done.lits(j.0)),
        Term::Divide(i, j) => fold_quotient(alloc, net, one, done.lits(i.0), done.lits(j.0)),
        Term::Remainder(i, j) => fold_remainder(alloc, net, one, done.lits(i.0), done.lits(j.0)),
        Term::And(i, j) => fold_ands(alloc, net, one, done.lits(i.0), done.lits(j.0)),
        Term::Or(i, j) => fold_ors(alloc, net, one, done.lits(i.0), done.lits(j.0)),
        Term::Xor(i, j) => fold_xors(alloc, net, one, done.lits(i.0), done.lits(j.0)),
        Term::Not(i) => negate_all(alloc, done.lits(i.0)),
        Term::ShiftLeft(i, j) => fold_left(alloc, net, one, done.lits(i.0), done.lits(j.0)),
        Term::ShiftRight(i, j) => fold_right(alloc, net, one, done.lits(i.0), done.lits(j.0)),
        Term::ShiftSigned(i, j) => fold_arithmetic(alloc, net, one, done.lits(i.0), done.lits(j.0)),
        Term::Equal(i, j) => fold_equal(alloc, net, one, done.lits(i.0), done.lits(j.0)),
        Term::Less(i, j) => fold_less(alloc, net, one, false, done.lits(i.0), done.lits(j.0)),
        Term::LessSigned(i, j) => fold_less(alloc, net, one, true, done.lits(i.0), done.lits(j.0)),
        Term::Select(i, j, k) => {
            let c = bit_of(done.lits(i.0), 0);
            fold_choice(alloc, net, one, c, done.lits(j.0), done.lits(k.0))
        }
        Term::ZeroExtend(w, i) => extend(alloc, w, one.negate(), done.lits(i.0)),
        Term::SignExtend(w, i) => extend(alloc, w, top(done.lits(i.0)), done.lits(i.0)),
        Term::Truncate(w, i) => copied(alloc, &done.lits(i.0)[..w as usize]),
        Term::Bit(k, i) => word(alloc, bit_of(done.lits(i.0), k as usize)),
    }
}

/// Appends what terms add, the last of them first, and counts each as done.
pub fn put_terms(
    alloc: Global,
    net: &mut Net,
    one: Lit,
    cells: &Cells,
    done: &mut DoneTerms,
    terms: &Terms,
    cone: &[u32],
) -> Result<(), NoRoom>
    requires there { All (λ k. k < length terms.now.terms) cone.now }
    requires ready { AllReady one cells.now terms.now.terms net.old.next done.old cone.now }
    ensures start { net.new.start ≡ net.old.start }
    ensures grew { IfOk result (λ r.
        let m = emitted one cells.now terms.now.terms net.old.next done.old cone.now in
        Grew net.old.next net.old.defs.items net.new.next net.new.defs.items m.defs × (done.new ≡ m.done)) }
{
    let mut left = cone.len();
    while left > 0 {
        left -= 1;
        let k = cone[left];
        let lits = put_term(alloc, net, one, cells, done, terms.get(TermId(k)))?;
        done.push(k, lits)?;
    }
    Ok(())
}
