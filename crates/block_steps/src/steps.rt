//! Deeds found among the operations of edges.
ghost use Rattle.block_steps.specs.Made as made;
ghost use Rattle.std.specs.Prelude.{ℕ, ◌≡◌, ◌||◌, List, IfSome, IsTrue, length, None, if◌then◌else◌};
ghost use Rattle.bv_term.specs.Numbers.{truth};
ghost use Rattle.c_graph.specs.declared.graph.Operation.TheVariants.{Assume, Set, SetAt};
ghost use Rattle.bv_term.specs.Values.{value};
ghost use Rattle.truth_terms.specs.Truths.{Grew, IsBit, Means};
ghost use Rattle.block_rule.specs.Deeds.{Code, Does, IsDeed, Sets, SetsWithin, Tests};
ghost use Rattle.block_rule.specs.Rule.{guarded, is_on, is_set};
ghost use Rattle.block_steps.specs.Cursors.{IsBehind, Meets, OpAt};
ghost use Rattle.block_steps.specs.Tests.{holds};
ghost use Rattle.block_steps.specs.declared.tests.Test.TheVariants.{Under};

use crate::cursor::{Cursor, next_step};
use crate::tests::Test;
use bv_term::{TermId, Terms};
use c_graph::{Graph, Operation};
use truth_terms::{
    is_added, is_bit_under, is_cell_bit, is_chosen, is_chosen_index, is_old, is_old_bit, is_one_bit,
};

/// Whether a term is the bit of a test.
pub fn is_test(old: &Terms, terms: &Terms, term: TermId, test: Test) -> bool
    requires { Grew old.now terms.now }
    ensures means { IsTrue result → IsBit terms.now term (holds old.now test) }
    ensures made { result ≡ made.is_test old.now terms.now term test }
{
    match test {
        Test::On(None) => is_one_bit(terms, term),
        Test::On(Some(cell)) => is_cell_bit(terms, term, cell),
        Test::Under(None, found) => is_this(old, terms, term, found),
        Test::Under(Some(cell), found) => is_bit_under(old, terms, term, cell, found),
    }
}

fn is_this(old: &Terms, terms: &Terms, term: TermId, found: TermId) -> bool
    requires { Grew old.now terms.now }
    ensures means { IsTrue result → IsBit terms.now term (holds old.now (Under None found)) }
    ensures made { result ≡ made.is_this old.now terms.now term found }
{
    if term.0 != found.0 {
        return false;
    }
    is_old_bit(old, terms, found)
}

/// The term that a cell gets, and the place behind that.
#[derive(Clone, Copy)]
struct Put {
    term: TermId,
    next: Cursor,
}

fn put_at(graph: &Graph, cursor: Cursor, cell: u32) -> Option<Put>
    ensures means { IfSome result (λ p. (f : List ℕ → ℕ) (code : Code) → Means graph.now.terms p.term f → Meets graph.now p.next code
        → Meets graph.now cursor (Does (Sets cell f) code)) }
    ensures made { result ≡ made.put_at graph.now cursor cell }
{
    let Some(step) = next_step(graph, cursor) else {
        return None;
    };
    match step.operation {
        Operation::Set(found, term) => put_in(graph, cursor, step.next, found, term, cell),
        _ => None,
    }
}

fn put_in(
    graph: &Graph,
    cursor: Cursor,
    next: Cursor,
    found: u32,
    term: TermId,
    cell: u32,
) -> Option<Put>
    requires { OpAt graph.now cursor (Set found term) × IsBehind cursor next }
    ensures means { IfSome result (λ p. (f : List ℕ → ℕ) (code : Code) → Means graph.now.terms p.term f → Meets graph.now p.next code
        → Meets graph.now cursor (Does (Sets cell f) code)) }
    ensures made { result ≡ made.put_in graph.now next found term cell }
{
    if found != cell {
        return None;
    }
    if cell as usize >= graph.cells().len() {
        return None;
    }
    Some(Put { term, next })
}

/// The place behind a store of a test's bit.
pub fn sets(old: &Terms, graph: &Graph, cursor: Cursor, cell: u32, test: Test) -> Option<Cursor>
    requires { Grew old.now graph.now.terms }
    ensures means { IfSome result (λ n. (code : Code) → Meets graph.now n code
        → Meets graph.now cursor (Does (Sets cell (λ s. truth (holds old.now test s))) code)) }
    ensures made { result ≡ made.sets old.now graph.now cursor cell test }
{
    let Some(put) = put_at(graph, cursor, cell) else {
        return None;
    };
    if !is_test(old, graph.terms(), put.term, test) {
        return None;
    }
    Some(put.next)
}

/// The place behind a store of a cell's own bit or a test's.
pub fn adds(old: &Terms, graph: &Graph, cursor: Cursor, cell: u32, test: Test) -> Option<Cursor>
    requires { Grew old.now graph.now.terms }
    ensures means { IfSome result (λ n. (code : Code) → Meets graph.now n code
        → Meets graph.now cursor (Does (Sets cell (λ s. truth (is_set cell s || holds old.now test s))) code)) }
    ensures made { result ≡ made.adds old.now graph.now cursor cell test }
{
    let Some(put) = put_at(graph, cursor, cell) else {
        return None;
    };
    let Some(term) = is_added(graph.terms(), put.term, cell) else {
        return None;
    };
    if !is_test(old, graph.terms(), term, test) {
        return None;
    }
    Some(put.next)
}

/// The place behind an Assume of a test.
pub fn assumes(old: &Terms, graph: &Graph, cursor: Cursor, test: Test) -> Option<Cursor>
    requires { Grew old.now graph.now.terms }
    ensures means { IfSome result (λ n. (code : Code) → Meets graph.now n code → Meets graph.now cursor (Does (Tests (holds old.now test)) code)) }
    ensures made { result ≡ made.assumes old.now graph.now cursor test }
{
    let Some(step) = next_step(graph, cursor) else {
        return None;
    };
    match step.operation {
        Operation::Assume(term) => assumed(old, graph, cursor, step.next, term, test),
        _ => None,
    }
}

fn assumed(
    old: &Terms,
    graph: &Graph,
    cursor: Cursor,
    next: Cursor,
    term: TermId,
    test: Test,
) -> Option<Cursor>
    requires grew { Grew old.now graph.now.terms }
    requires found { OpAt graph.now cursor (Assume term) × IsBehind cursor next }
    ensures means { IfSome result (λ n. (code : Code) → Meets graph.now n code → Meets graph.now cursor (Does (Tests (holds old.now test)) code)) }
    ensures made { result ≡ made.assumed old.now graph.now next term test }
{
    if !is_test(old, graph.terms(), term, test) {
        return None;
    }
    Some(next)
}

/// The place behind an operation of the old graph through a guard.
pub fn stores(
    old: &Terms,
    graph: &Graph,
    cursor: Cursor,
    guard: Option<u32>,
    operation: Operation,
) -> Option<Cursor>
    requires { Grew old.now graph.now.terms }
    ensures means { IfSome result (λ n. (code : Code) → Meets graph.now n code → Meets graph.now cursor (Does (guarded old.now guard operation) code)) }
    ensures made { result ≡ made.stores old.now graph.now cursor guard operation }
{
    let Some(step) = next_step(graph, cursor) else {
        return None;
    };
    if !is_same(old, graph, guard, operation, step.operation) {
        return None;
    }
    Some(step.next)
}

/// Whether an operation is the old one through a guard, and sets a cell that is there.
fn is_same(
    old: &Terms,
    graph: &Graph,
    guard: Option<u32>,
    operation: Operation,
    found: Operation,
) -> bool
    requires { Grew old.now graph.now.terms }
    ensures means { IsTrue result → IsDeed graph.now.terms found (guarded old.now guard operation)
        × SetsWithin (length graph.now.cells) (guarded old.now guard operation) }
    ensures made { result ≡ made.is_same old.now graph.now guard operation found }
{
    match (operation, found) {
        (Operation::Set(cell, term), Operation::Set(one, put)) => {
            is_store(old, graph, guard, cell, term, one, put)
        }
        (Operation::SetAt(first, count, index, term), Operation::SetAt(one, many, at, put)) => {
            is_array_store(
                old,
                graph.terms(),
                guard,
                (first, count, index, term),
                (one, many, at, put),
            )
        }
        (Operation::Draw(cell, is_signed), Operation::Draw(one, other)) => {
            cell == one && is_signed == other
        }
        _ => false,
    }
}

fn is_store(
    old: &Terms,
    graph: &Graph,
    guard: Option<u32>,
    cell: u32,
    term: TermId,
    one: u32,
    put: TermId,
) -> bool
    requires { Grew old.now graph.now.terms }
    ensures means { IsTrue result → IsDeed graph.now.terms (Set one put) (guarded old.now guard (Set cell term))
        × SetsWithin (length graph.now.cells) (guarded old.now guard (Set cell term)) }
    ensures made { result ≡ made.is_store old.now graph.now guard cell term one put }
{
    if cell != one {
        return false;
    }
    if cell as usize >= graph.cells().len() {
        return false;
    }
    match guard {
        None => is_value(old, graph.terms(), put, term),
        Some(test) => is_chosen(old, graph.terms(), put, test, term, cell),
    }
}

/// A store into an array: its first cell, its length, the index and the value.
type ArrayStore = (u32, u32, TermId, TermId);

fn is_array_store(
    old: &Terms,
    terms: &Terms,
    guard: Option<u32>,
    store: ArrayStore,
    found: ArrayStore,
) -> bool
    requires { Grew old.now terms.now }
    ensures means { IsTrue result → IsDeed terms.now (SetAt found.0 found.1 found.2 found.3) (guarded old.now guard (SetAt store.0 store.1 store.2 store.3)) }
    ensures made { result ≡ made.is_array_store old.now terms.now guard store.0 store.1 store.2 store.3 found.0 found.1 found.2 found.3 }
{
    if store.0 != found.0 {
        return false;
    }
    if store.1 != found.1 {
        return false;
    }
    if !is_value(old, terms, found.3, store.3) {
        return false;
    }
    is_index(old, terms, guard, store.2, store.1, found.2)
}

/// Whether a term is the index of a store through a guard.
fn is_index(
    old: &Terms,
    terms: &Terms,
    guard: Option<u32>,
    index: TermId,
    count: u32,
    found: TermId,
) -> bool
    requires { Grew old.now terms.now }
    ensures means { IsTrue result → Means terms.now found (λ s. if is_on guard s then value old.now s index else count) }
    ensures made { result ≡ made.is_index old.now terms.now guard index count found }
{
    match guard {
        None => is_value(old, terms, found, index),
        Some(test) => is_chosen_index(old, terms, found, test, index, count),
    }
}

/// Whether a term is the old one of a number.
fn is_value(old: &Terms, terms: &Terms, found: TermId, index: TermId) -> bool
    requires { Grew old.now terms.now }
    ensures means { IsTrue result → Means terms.now found (λ s. value old.now s index) }
    ensures made { result ≡ made.is_value old.now terms.now found index }
{
    if found.0 != index.0 {
        return false;
    }
    is_old(old, terms, index)
}
