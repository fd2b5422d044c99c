//! The cells that terms read.
ghost use Rattle.std.specs.Prelude.{◌≡◌, ◌<◌, ◌≤◌, ◌+◌, length, [], IfOk, OnOk, ◌||◌};
ghost use Rattle.std.specs.BinaryHeap.{IsHeap, heap_items, heap_len};
ghost use Rattle.std.specs.BTreeSet.{insert_key};
ghost use Rattle.std.specs.Ordering.{nat_cmp};
ghost use Rattle.bit_blast.specs.Cone.{AllWanted, Wanted, numbers, uses_of};
ghost use Rattle.bit_blast.specs.Done.{is_done};
ghost use Rattle.path_formula.specs.Reads.{cells_from, is_needed, some_needed, span_of, with_cells, with_read, without};

use bit_blast::Uses;
use bv_term::{Term, TermId, Terms};
use lv_base::Memory;
use std::alloc::Global;
use std::collections::{BTreeSet, BinaryHeap};

/// Cells that follow each other: the first, and how many.
#[derive(Clone, Copy, PartialEq, Eq, Debug)]
pub struct Span {
    pub first: u32,
    pub count: u32,
}

/// The cells that a term reads by itself.
fn own_cells(term: Term) -> Span
    ensures { result ≡ span_of term }
{
    match term {
        Term::Constant(_, _) => Span { first: 0, count: 0 },
        Term::Cell(cell) => Span {
            first: cell,
            count: 1,
        },
        Term::Element(first, count, _) => Span { first, count },
        Term::Add(_, _) => Span { first: 0, count: 0 },
        Term::Subtract(_, _) => Span { first: 0, count: 0 },
        Term::Multiply(_, _) => Span { first: 0, count: 0 },
        Term::Divide(_, _) => Span { first: 0, count: 0 },
        Term::Remainder(_, _) => Span { first: 0, count: 0 },
        Term::And(_, _) => Span { first: 0, count: 0 },
        Term::Or(_, _) => Span { first: 0, count: 0 },
        Term::Xor(_, _) => Span { first: 0, count: 0 },
        Term::Not(_) => Span { first: 0, count: 0 },
        Term::ShiftLeft(_, _) => Span { first: 0, count: 0 },
        Term::ShiftRight(_, _) => Span { first: 0, count: 0 },
        Term::ShiftSigned(_, _) => Span { first: 0, count: 0 },
        Term::Equal(_, _) => Span { first: 0, count: 0 },
        Term::Less(_, _) => Span { first: 0, count: 0 },
        Term::LessSigned(_, _) => Span { first: 0, count: 0 },
        Term::Select(_, _, _) => Span { first: 0, count: 0 },
        Term::ZeroExtend(_, _) => Span { first: 0, count: 0 },
        Term::SignExtend(_, _) => Span { first: 0, count: 0 },
        Term::Truncate(_, _) => Span { first: 0, count: 0 },
        Term::Bit(_, _) => Span { first: 0, count: 0 },
    }
}

/// The operands of a term.
fn operands(term: Term) -> Uses
    ensures { result ≡ uses_of term }
{
    match term {
        Term::Constant(_, _) => Uses::Nothing,
        Term::Cell(_) => Uses::Nothing,
        Term::Element(_, _, i) => Uses::One(i.0),
        Term::Add(i, j) => Uses::Two(i.0, j.0),
        Term::Subtract(i, j) => Uses::Two(i.0, j.0),
        Term::Multiply(i, j) => Uses::Two(i.0, j.0),
        Term::Divide(i, j) => Uses::Two(i.0, j.0),
        Term::Remainder(i, j) => Uses::Two(i.0, j.0),
        Term::And(i, j) => Uses::Two(i.0, j.0),
        Term::Or(i, j) => Uses::Two(i.0, j.0),
        Term::Xor(i, j) => Uses::Two(i.0, j.0),
        Term::Not(i) => Uses::One(i.0),
        Term::ShiftLeft(i, j) => Uses::Two(i.0, j.0),
        Term::ShiftRight(i, j) => Uses::Two(i.0, j.0),
        Term::ShiftSigned(i, j) => Uses::Two(i.0, j.0),
        Term::Equal(i, j) => Uses::Two(i.0, j.0),
        Term::Less(i, j) => Uses::Two(i.0, j.0),
        Term::LessSigned(i, j) => Uses::Two(i.0, j.0),
        Term::Select(i, j, k) => Uses::Three(i.0, j.0, k.0),
        Term::ZeroExtend(_, i) => Uses::One(i.0),
        Term::SignExtend(_, i) => Uses::One(i.0),
        Term::Truncate(_, i) => Uses::One(i.0),
        Term::Bit(_, i) => Uses::One(i.0),
    }
}

/// Puts a cell among those that are needed.
fn need(needed: &mut BTreeSet<usize>, cell: usize) -> Result<(), Memory>
    ensures { OnOk result (needed.new.keys ≡ insert_key nat_cmp needed.old.keys cell) }
{
    needed.insert(cell)?;
    Ok(())
}

/// Takes a cell from those that are needed, and answers whether it was one.
pub fn forget(needed: &mut BTreeSet<usize>, cell: usize) -> bool
    ensures was { result ≡ is_needed needed.old.keys cell }
    ensures rest { needed.new.keys ≡ without cell needed.old.keys }
{
    needed.remove(&cell)
}

/// Whether a cell is needed.
pub fn has(needed: &BTreeSet<usize>, cell: usize) -> bool
    ensures { result ≡ is_needed needed.now.keys cell }
{
    needed.contains(&cell)
}

/// Whether one of some cells is needed.
pub fn has_some(needed: &BTreeSet<usize>, first: u32, count: u32) -> bool
    ensures { result ≡ some_needed needed.now.keys (cells_from first count) }
{
    for k in 0..count {
        if has(needed, first as usize + k as usize) {
            return true;
        }
    }
    false
}

/// Puts cells among those that are needed.
pub fn need_all(needed: &mut BTreeSet<usize>, first: u32, count: u32) -> Result<(), Memory>
    ensures { OnOk result (needed.new.keys ≡ with_cells needed.old.keys (cells_from first count)) }
{
    for k in 0..count {
        need(needed, first as usize + k as usize)?;
    }
    Ok(())
}

/// Makes a term pending.
fn want(pending: &mut BinaryHeap<u32>, term: u32) -> Result<(), Memory>
    ensures wanted { OnOk result (Wanted (heap_items pending.old) (heap_items pending.new) (is_done []) term) }
    ensures ordered { OnOk result (IsHeap nat_cmp (heap_items pending.old) → IsHeap nat_cmp (heap_items pending.new)) }
    ensures more { OnOk result (heap_len pending.new ≤ heap_len pending.old + 1) }
{
    pending.push(term)?;
    Ok(())
}

/// Makes all operands pending.
fn want_all(pending: &mut BinaryHeap<u32>, uses: Uses) -> Result<(), Memory>
    ensures wanted { OnOk result (AllWanted (heap_items pending.old) (heap_items pending.new) (is_done []) (numbers uses)) }
    ensures ordered { OnOk result (IsHeap nat_cmp (heap_items pending.old) → IsHeap nat_cmp (heap_items pending.new)) }
    ensures more { OnOk result (heap_len pending.new ≤ heap_len pending.old + 3) }
{
    match uses {
        Uses::Nothing => Ok(()),
        Uses::One(a) => want(pending, a),
        Uses::Two(a, b) => {
            want(pending, a)?;
            want(pending, b)
        }
        Uses::Three(a, b, c) => {
            want(pending, a)?;
            want(pending, b)?;
            want(pending, c)
        }
    }
}

/// Puts the cells that a term reads among those that are needed. It takes time in proportion to the term's own parts, each
/// once, and to the cells that they name, times a logarithm; a heap of pending terms holds no term twice for long, and no
/// depth of terms takes stack.
pub fn need_cells(
    alloc: Global,
    terms: &Terms,
    term: TermId,
    needed: &mut BTreeSet<usize>,
) -> Result<(), Memory>
    requires { term.0 < length terms.now.terms }
    ensures { OnOk result (needed.new.keys ≡ with_read terms.now term.0 needed.old.keys) }
{
    let mut pending = BinaryHeap::new(alloc);
    want(&mut pending, term.0)?;
    let mut below = term.0 as u64 + 1;
    while let Some(k) = pending.pop() {
        if (k as u64) < below {
            let found = terms.get(TermId(k));
            let own = own_cells(found);
            need_all(needed, own.first, own.count)?;
            want_all(&mut pending, operands(found))?;
            below = k as u64;
        }
    }
    Ok(())
}
