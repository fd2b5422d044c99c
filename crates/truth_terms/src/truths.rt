ghost use Rattle.std.specs.Prelude.{ℕ, ◌≡◌, ◌<◌, ◌==◌, ◌&&◌, ◌||◌, Bool, true, not, List, length, slice_index, slice_get, Some, IfSome, IsTrue, if◌then◌else◌};
ghost use Rattle.bv_term.specs.declared.term.Term.TheVariants.{And, Cell, Not, Or, Select};
ghost use Rattle.bv_term.specs.WellFormed.{IsTable, widths};
ghost use Rattle.bv_term.specs.Values.{value};
ghost use Rattle.truth_terms.specs.Made as made;
ghost use Rattle.truth_terms.specs.Truths.{Grew, IsBit, IsOneWide, Means, is_one};

use bv_term::{Term, TermId, Terms};

/// The term of a number.
fn term_at(terms: &Terms, term: TermId) -> Option<Term>
    ensures table { IsTable terms.now }
    ensures found { IfSome result (λ u. slice_get terms.now.terms term.0 ≡ Some u) }
    ensures made { result ≡ made.term_at terms.now term }
{
    if term.0 < terms.count() {
        Some(terms.get(term))
    } else {
        None
    }
}

/// Whether the term is there and has one bit.
pub fn is_one_wide(terms: &Terms, term: TermId) -> bool
    ensures means { IsTrue result → IsOneWide terms.now term }
    ensures made { result ≡ made.is_one_wide terms.now term }
{
    term.0 < terms.count() && terms.width_of(term) == 1
}

fn cell_of(terms: &Terms, term: TermId) -> Option<u32>
    ensures means { IfSome result (λ c. IsTable terms.now × (slice_get terms.now.terms term.0 ≡ Some (Cell c))) }
    ensures made { result ≡ made.cell_of terms.now term }
{
    match term_at(terms, term) {
        Some(Term::Cell(cell)) => Some(cell),
        _ => None,
    }
}

/// Whether the term is the bit of a cell.
pub fn is_cell_bit(terms: &Terms, term: TermId, cell: u32) -> bool
    ensures means { IsTrue result → IsBit terms.now term (is_one cell) }
    ensures made { result ≡ made.is_cell_bit terms.now term cell }
{
    match cell_of(terms, term) {
        None => false,
        Some(found) => is_bit_of(terms, term, found, cell),
    }
}

fn is_bit_of(terms: &Terms, term: TermId, found: u32, cell: u32) -> bool
    requires { IsTable terms.now × (slice_get terms.now.terms term.0 ≡ Some (Cell found)) }
    ensures means { IsTrue result → IsBit terms.now term (is_one cell) }
    ensures made { result ≡ made.is_bit_of terms.now term found cell }
{
    if found != cell {
        return false;
    }
    is_one_wide(terms, term)
}

/// Whether the term is one of the old table.
pub fn is_old(old: &Terms, terms: &Terms, term: TermId) -> bool
    requires { Grew old.now terms.now }
    ensures means { IsTrue result → Means terms.now term (λ s. value old.now s term) }
    ensures made { result ≡ made.is_old old.now term }
{
    term.0 < old.count()
}

/// Whether the term is one of the old table, and has one bit.
pub fn is_old_bit(old: &Terms, terms: &Terms, term: TermId) -> bool
    requires { Grew old.now terms.now }
    ensures means { IsTrue result → IsBit terms.now term (λ s. value old.now s term == 1) }
    ensures made { result ≡ made.is_old_bit old.now terms.now term }
{
    let _count = terms.count();
    if term.0 >= old.count() {
        return false;
    }
    is_one_wide(terms, term)
}

/// Whether the term is the bit 1.
pub fn is_one_bit(terms: &Terms, term: TermId) -> bool
    ensures means { IsTrue result → IsBit terms.now term (λ s. true) }
    ensures made { result ≡ made.is_one_bit terms.now term }
{
    match term_at(terms, term) {
        Some(Term::Constant(_, 1)) => true,
        _ => false,
    }
}

/// Whether the term is 1 where a cell is and an old term is.
pub fn is_bit_under(old: &Terms, terms: &Terms, term: TermId, cell: u32, test: TermId) -> bool
    requires { Grew old.now terms.now }
    ensures means { IsTrue result → IsBit terms.now term (λ s. is_one cell s && value old.now s test == 1) }
    ensures made { result ≡ made.is_bit_under old.now terms.now term cell test }
{
    match term_at(terms, term) {
        Some(Term::And(first, second)) => is_both(old, terms, term, first, second, cell, test),
        _ => false,
    }
}

fn is_both(
    old: &Terms,
    terms: &Terms,
    term: TermId,
    first: TermId,
    second: TermId,
    cell: u32,
    test: TermId,
) -> bool
    requires grew { Grew old.now terms.now }
    requires found { IsTable terms.now × (slice_get terms.now.terms term.0 ≡ Some (And first second)) }
    ensures means { IsTrue result → IsBit terms.now term (λ s. is_one cell s && value old.now s test == 1) }
    ensures made { result ≡ made.is_both old.now terms.now first second cell test }
{
    if second.0 != test.0 {
        return false;
    }
    if !is_cell_bit(terms, first, cell) {
        return false;
    }
    is_old_bit(old, terms, test)
}

/// The other part of a term that is 1 where a cell is or that part is.
pub fn is_added(terms: &Terms, term: TermId, cell: u32) -> Option<TermId>
    ensures means { IfSome result (λ t. (p : List ℕ → Bool) → IsBit terms.now t p → IsBit terms.now term (λ s. is_one cell s || p s)) }
    ensures made { result ≡ made.is_added terms.now term cell }
{
    match term_at(terms, term) {
        Some(Term::Or(first, second)) => added(terms, term, first, second, cell),
        _ => None,
    }
}

fn added(terms: &Terms, term: TermId, first: TermId, second: TermId, cell: u32) -> Option<TermId>
    requires { IsTable terms.now × (slice_get terms.now.terms term.0 ≡ Some (Or first second)) }
    ensures means { IfSome result (λ t. (p : List ℕ → Bool) → IsBit terms.now t p → IsBit terms.now term (λ s. is_one cell s || p s)) }
    ensures made { result ≡ made.added terms.now first second cell }
{
    if !is_cell_bit(terms, first, cell) {
        return None;
    }
    Some(second)
}

/// Whether the first term is the complement of the second.
pub fn is_not(terms: &Terms, term: TermId, other: TermId) -> bool
    ensures means { IsTrue result → (p : List ℕ → Bool) → IsBit terms.now other p → IsBit terms.now term (λ s. not (p s)) }
    ensures made { result ≡ made.is_not terms.now term other }
{
    match term_at(terms, term) {
        Some(Term::Not(found)) => is_complement(terms, term, found, other),
        _ => false,
    }
}

fn is_complement(terms: &Terms, term: TermId, found: TermId, other: TermId) -> bool
    requires { IsTable terms.now × (slice_get terms.now.terms term.0 ≡ Some (Not found)) }
    ensures means { IsTrue result → (p : List ℕ → Bool) → IsBit terms.now other p → IsBit terms.now term (λ s. not (p s)) }
    ensures made { result ≡ made.is_complement terms.now found other }
{
    if found.0 != other.0 {
        return false;
    }
    is_one_wide(terms, other)
}

/// Whether the term has an old term's value where a cell is 1, and else that of another cell.
pub fn is_chosen(
    old: &Terms,
    terms: &Terms,
    term: TermId,
    test: u32,
    chosen: TermId,
    cell: u32,
) -> bool
    requires { Grew old.now terms.now }
    ensures means { IsTrue result → Means terms.now term (λ s. if is_one test s then value old.now s chosen else slice_index s cell) }
    ensures made { result ≡ made.is_chosen old.now terms.now term test chosen cell }
{
    match choice_of(old, terms, term, test, chosen) {
        None => false,
        Some(other) => is_cell(terms, other, cell),
    }
}

/// Whether the term has an old term's value where a cell is 1, and else is a number.
pub fn is_chosen_index(
    old: &Terms,
    terms: &Terms,
    term: TermId,
    test: u32,
    chosen: TermId,
    number: u32,
) -> bool
    requires { Grew old.now terms.now }
    ensures means { IsTrue result → Means terms.now term (λ s. if is_one test s then value old.now s chosen else number) }
    ensures made { result ≡ made.is_chosen_index old.now terms.now term test chosen number }
{
    match choice_of(old, terms, term, test, chosen) {
        None => false,
        Some(other) => is_number(terms, other, number),
    }
}

// The last part of a term that has an old term's value where a cell is 1, and else that of this part.
fn choice_of(old: &Terms, terms: &Terms, term: TermId, test: u32, chosen: TermId) -> Option<TermId>
    requires { Grew old.now terms.now }
    ensures means { IfSome result (λ t. (f : List ℕ → ℕ) → Means terms.now t f → Means terms.now term (λ s. if is_one test s then value old.now s chosen else f s)) }
    ensures made { result ≡ made.choice_of old.now terms.now term test chosen }
{
    match term_at(terms, term) {
        Some(Term::Select(bit, first, second)) => {
            choice_in(old, terms, term, bit, first, second, test, chosen)
        }
        _ => None,
    }
}

fn choice_in(
    old: &Terms,
    terms: &Terms,
    term: TermId,
    bit: TermId,
    first: TermId,
    second: TermId,
    test: u32,
    chosen: TermId,
) -> Option<TermId>
    requires grew { Grew old.now terms.now }
    requires found { IsTable terms.now × (slice_get terms.now.terms term.0 ≡ Some (Select bit first second)) }
    ensures means { IfSome result (λ t. (f : List ℕ → ℕ) → Means terms.now t f → Means terms.now term (λ s. if is_one test s then value old.now s chosen else f s)) }
    ensures made { result ≡ made.choice_in old.now terms.now bit first second test chosen }
{
    if first.0 != chosen.0 {
        return None;
    }
    if !is_cell_bit(terms, bit, test) {
        return None;
    }
    if !is_old(old, terms, chosen) {
        return None;
    }
    Some(second)
}

fn is_cell(terms: &Terms, term: TermId, cell: u32) -> bool
    ensures means { IsTrue result → Means terms.now term (λ s. slice_index s cell) }
    ensures made { result ≡ made.is_cell terms.now term cell }
{
    match term_at(terms, term) {
        Some(Term::Cell(found)) => found == cell,
        _ => false,
    }
}

fn is_number(terms: &Terms, term: TermId, number: u32) -> bool
    ensures means { IsTrue result → Means terms.now term (λ s. number) }
    ensures made { result ≡ made.is_number terms.now term number }
{
    match term_at(terms, term) {
        Some(Term::Constant(_, found)) => found == number as u128,
        _ => false,
    }
}
