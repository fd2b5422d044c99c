ghost use Rattle.std.specs.Prelude.{◌≡◌, ◌<◌, ◌≤◌, ◌+◌, length, ℕ, Bool, ◌||◌, [], ◌∷◌, ◌++◌, IfOk};
ghost use Rattle.std.specs.BinaryHeap.{IsHeap, heap_items, heap_len};
ghost use Rattle.std.specs.Ordering.{nat_cmp};
ghost use Rattle.bit_blast.specs.Done.{is_done};
ghost use Rattle.bit_blast.specs.Cone.{uses_of, cone_of, Wanted, AllWanted, numbers};

use crate::done::DoneTerms;
use bit_gates::NoRoom;
use bv_term::{Term, TermId, Terms};
use std::alloc::Global;
use std::collections::BinaryHeap;

/// The operands of a term.
#[derive(Clone, Copy, PartialEq, Eq, Debug)]
pub enum Uses {
    Nothing,
    One(u32),
    Two(u32, u32),
    Three(u32, u32, u32),
}

/// The operands of a term.
fn operands(term: Term) -> Uses
    ensures { result ≡ uses_of term }
{
    match term {
        Term::Constant(_, _) => Uses::Nothing,
        Term::Cell(_) => Uses::Nothing,
        Term::Element(_, _, i) => Uses::One(i.0),
        Term::Add(i, j) => Uses::Two(i.0, j.0),
        Term::Subtract(i, j) => Uses::Two(i.0, j.0),
        Term::Multiply(i, j) => Uses::Two(i.0, j.0),
        Term::Divide(i, j) => Uses::Two(i.0, j.0),
        Term::Remainder(i, j) => Uses::Two(i.0, j.0),
        Term::And(i, j) => Uses::Two(i.0, j.0),
        Term::Or(i, j) => Uses::Two(i.0, j.0),
        Term::Xor(i, j) => Uses::Two(i.0, j.0),
        Term::Not(i) => Uses::One(i.0),
        Term::ShiftLeft(i, j) => Uses::Two(i.0, j.0),
        Term::ShiftRight(i, j) => Uses::Two(i.0, j.0),
        Term::ShiftSigned(i, j) => Uses::Two(i.0, j.0),
        Term::Equal(i, j) => Uses::Two(i.0, j.0),
        Term::Less(i, j) => Uses::Two(i.0, j.0),
        Term::LessSigned(i, j) => Uses::Two(i.0, j.0),
        Term::Select(i, j, k) => Uses::Three(i.0, j.0, k.0),
        Term::ZeroExtend(_, i) => Uses::One(i.0),
        Term::SignExtend(_, i) => Uses::One(i.0),
        Term::Truncate(_, i) => Uses::One(i.0),
        Term::Bit(_, i) => Uses::One(i.0),
    }
}

// Makes a term pending, where it is not done.
fn want(pending: &mut BinaryHeap<u32>, done: &DoneTerms, term: u32) -> Result<(), NoRoom>
    ensures wanted { IfOk result (λ _. Wanted (heap_items pending.old) (heap_items pending.new) (is_done done.now) term) }
    ensures ordered { IfOk result (λ _. IsHeap nat_cmp (heap_items pending.old) → IsHeap nat_cmp (heap_items pending.new)) }
    ensures more { IfOk result (λ _. heap_len pending.new ≤ heap_len pending.old + 1) }
{
    if done.has(term) {
        return Ok(());
    }
    match pending.push(term) {
        Ok(()) => Ok(()),
        Err(_) => Err(NoRoom),
    }
}

// Makes all operands pending that are not done.
fn want_all(pending: &mut BinaryHeap<u32>, done: &DoneTerms, uses: Uses) -> Result<(), NoRoom>
    ensures wanted { IfOk result (λ _. AllWanted (heap_items pending.old) (heap_items pending.new) (is_done done.now) (numbers uses)) }
    ensures ordered { IfOk result (λ _. IsHeap nat_cmp (heap_items pending.old) → IsHeap nat_cmp (heap_items pending.new)) }
    ensures more { IfOk result (λ _. heap_len pending.new ≤ heap_len pending.old + 3) }
{
    match uses {
        Uses::Nothing => Ok(()),
        Uses::One(a) => want(pending, done, a),
        Uses::Two(a, b) => {
            want(pending, done, a)?;
            want(pending, done, b)
        }
        Uses::Three(a, b, c) => {
            want(pending, done, a)?;
            want(pending, done, b)?;
            want(pending, done, c)
        }
    }
}

// Appends a term's number.
fn push_term(found: &mut Vec<u32>, term: u32) -> Result<(), NoRoom>
    ensures { IfOk result (λ _. found.new.items ≡ found.old.items ++ term ∷ []) }
{
    match found.push(term) {
        Ok(()) => Ok(()),
        Err(_) => Err(NoRoom),
    }
}

/// The terms below a term, itself included, that are not done, each once, from the highest number down. It takes time in
/// proportion to these terms, times the logarithm of how many of them are pending at once.
pub fn cone(alloc: Global, terms: &Terms, done: &DoneTerms, term: u32) -> Result<Vec<u32>, NoRoom>
    requires { term < length terms.now.terms }
    ensures { IfOk result (λ r. r.items ≡ cone_of terms.now.terms done.now term) }
{
    let mut found = Vec::new(alloc);
    let mut pending = BinaryHeap::new(alloc);
    want(&mut pending, done, term)?;
    let mut below = term as u64 + 1;
    while let Some(k) = pending.pop() {
        if (k as u64) < below {
            push_term(&mut found, k)?;
            want_all(&mut pending, done, operands(terms.get(TermId(k))))?;
            below = k as u64;
        }
    }
    Ok(found)
}
