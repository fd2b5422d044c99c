ghost use Rattle.std.specs.Prelude.{◌≡◌, ◌<◌, ◌∷◌, ◌++◌, [], length, IfOk};
ghost use Rattle.bv_term.specs.Laws.{Extends};
ghost use Rattle.term_laws.specs.Operands.{renamed};
ghost use Rattle.term_copy.specs.Copies.{AreCopies, number_in};

use bv_term::{Term, TermId, Terms};
use lv_base::Memory;
use std::alloc::Global;

/// The new number of a term, 0 where it has none.
pub fn number_in(to: &[TermId], of: TermId) -> TermId
    ensures { result ≡ number_in to.now of }
{
    match to.get(of.0 as usize) {
        Some(number) => *number,
        None => TermId(0),
    }
}

/// The term with the new numbers of its operands in place of theirs.
pub fn renamed(term: Term, to: &[TermId]) -> Term
    ensures { result ≡ renamed (number_in to.now) term }
{
    match term {
        Term::Constant(_, _) | Term::Cell(_) => term,
        Term::Element(first, count, i) => Term::Element(first, count, number_in(to, i)),
        Term::Add(i, j) => Term::Add(number_in(to, i), number_in(to, j)),
        Term::Subtract(i, j) => Term::Subtract(number_in(to, i), number_in(to, j)),
        Term::Multiply(i, j) => Term::Multiply(number_in(to, i), number_in(to, j)),
        Term::Divide(i, j) => Term::Divide(number_in(to, i), number_in(to, j)),
        Term::Remainder(i, j) => Term::Remainder(number_in(to, i), number_in(to, j)),
        Term::And(i, j) => Term::And(number_in(to, i), number_in(to, j)),
        Term::Or(i, j) => Term::Or(number_in(to, i), number_in(to, j)),
        Term::Xor(i, j) => Term::Xor(number_in(to, i), number_in(to, j)),
        Term::Not(i) => Term::Not(number_in(to, i)),
        Term::ShiftLeft(i, j) => Term::ShiftLeft(number_in(to, i), number_in(to, j)),
        Term::ShiftRight(i, j) => Term::ShiftRight(number_in(to, i), number_in(to, j)),
        Term::ShiftSigned(i, j) => Term::ShiftSigned(number_in(to, i), number_in(to, j)),
        Term::Equal(i, j) => Term::Equal(number_in(to, i), number_in(to, j)),
        Term::Less(i, j) => Term::Less(number_in(to, i), number_in(to, j)),
        Term::LessSigned(i, j) => Term::LessSigned(number_in(to, i), number_in(to, j)),
        Term::Select(i, j, k) => Term::Select(number_in(to, i), number_in(to, j), number_in(to, k)),
        Term::ZeroExtend(width, i) => Term::ZeroExtend(width, number_in(to, i)),
        Term::SignExtend(width, i) => Term::SignExtend(width, number_in(to, i)),
        Term::Truncate(width, i) => Term::Truncate(width, number_in(to, i)),
        Term::Bit(number, i) => Term::Bit(number, number_in(to, i)),
    }
}

/// Puts the next term of a table into another, the earlier ones being there under new numbers.
pub fn copy_next(from: &Terms, to: &[TermId], into: &mut Terms) -> Result<TermId, Memory>
    requires cells { into.old.cells ≡ from.now.cells }
    requires next { length to.now < length from.now.terms }
    requires copies { AreCopies from.now into.old to.now }
    ensures extends { Extends into.old into.new }
    ensures copies { IfOk result (λ id. AreCopies from.now into.new (to.now ++ id ∷ [])) }
{
    let _count = from.count();
    let term = from.get(TermId(to.len() as u32));
    let outcome = into.put(renamed(term, to));
    let _new_count = into.count();
    outcome
}

/// Puts all terms of a table into another over the same cells. It answers their new numbers, in the order of the old ones.
#[tactic(auto, using(crate::proofs::Copying::copies_none, crate::proofs::Copying::extends_none, crate::proofs::Copying::extends_twice))]
pub fn copied(alloc: Global, from: &Terms, into: &mut Terms) -> Result<Vec<TermId>, Memory>
    requires cells { into.old.cells ≡ from.now.cells }
    ensures extends { Extends into.old into.new }
    ensures count { IfOk result (λ to. length to.items ≡ length from.now.terms) }
    ensures copies { IfOk result (λ to. AreCopies from.now into.new to.items) }
{
    let mut to: Vec<TermId> = Vec::new(alloc);
    while to.len() < from.count() as usize {
        let number = copy_next(from, &to, into)?;
        to.push(number)?;
    }
    Ok(to)
}
