ghost use Rattle.std.specs.Prelude.{◌≡◌, ◌<◌, ◌∷◌, ◌++◌, [], length, slice_index, IfOk};
ghost use Rattle.bv_term.specs.WellFormed.{IsWidth, widths};
ghost use Rattle.bv_term.specs.Laws.{Extends};
ghost use Rattle.term_masks.specs.Masks.{AreMasked, is_kept, masked_cell, masked_in};

use bv_term::{Term, TermId, Terms};
use lv_base::Memory;
use std::alloc::Global;
use term_copy::number_in;

// Whether a cell is kept; those past the end of the list are not.
fn is_kept(kept: &[bool], cell: u32) -> bool
    ensures { result ≡ is_kept kept.now cell }
{
    match kept.get(cell as usize) {
        Some(is) => *is,
        None => false,
    }
}

// A cell if it is kept, else 0.
fn masked_cell(kept: &[bool], width: u32, cell: u32) -> Term
    ensures { result ≡ masked_cell kept.now width cell }
{
    if is_kept(kept, cell) {
        Term::Cell(cell)
    } else {
        Term::Constant(width, 0)
    }
}

// A term under the new numbers of its operands, with 0 in place of a cell that is not kept. What no formula has is 0, too.
fn masked_term(kept: &[bool], to: &[TermId], width: u32, term: Term) -> Term
    ensures { result ≡ masked_in kept.now to.now width term }
{
    match term {
        Term::Constant(_, _) => term,
        Term::Cell(cell) => masked_cell(kept, width, cell),
        Term::Bit(number, i) => Term::Bit(number, number_in(to, i)),
        Term::Not(i) => Term::Not(number_in(to, i)),
        Term::And(i, j) => Term::And(number_in(to, i), number_in(to, j)),
        Term::Or(i, j) => Term::Or(number_in(to, i), number_in(to, j)),
        _ => Term::Constant(width, 0),
    }
}

// Puts the next term of a table into another, the earlier ones being there under new numbers.
fn masked_next(
    from: &Terms,
    kept: &[bool],
    to: &[TermId],
    into: &mut Terms,
) -> Result<TermId, Memory>
    requires cells { into.old.cells ≡ from.now.cells }
    requires next { length to.now < length from.now.terms }
    requires masked { AreMasked from.now into.old kept.now to.now }
    ensures extends { Extends into.old into.new }
    ensures masked { IfOk result (λ id. AreMasked from.now into.new kept.now (to.now ++ id ∷ [])) }
{
    let _count = from.count();
    let of = TermId(to.len() as u32);
    let term = from.get(of);
    let width = from.width_of(of);
    let outcome = into.put(masked_term(kept, to, width, term));
    let _new_count = into.count();
    outcome
}

/// Puts all terms of a table into another over the same cells, with 0 in place of each cell that is not kept, and answers their new
/// numbers in the order of the old ones. A formula over bits of cells then has the value that it had in the store with 0 in those
/// cells, and names kept cells alone.
#[tactic(auto, using(crate::proofs::Masking::masked_none, crate::proofs::Masking::extends_none, crate::proofs::Masking::extends_twice))]
pub fn masked(
    alloc: Global,
    from: &Terms,
    kept: &[bool],
    into: &mut Terms,
) -> Result<Vec<TermId>, Memory>
    requires cells { into.old.cells ≡ from.now.cells }
    ensures extends { Extends into.old into.new }
    ensures count { IfOk result (λ to. length to.items ≡ length from.now.terms) }
    ensures masked { IfOk result (λ to. AreMasked from.now into.new kept.now to.items) }
{
    let mut to: Vec<TermId> = Vec::new(alloc);
    while to.len() < from.count() as usize {
        let number = masked_next(from, kept, &to, into)?;
        to.push(number)?;
    }
    Ok(to)
}
