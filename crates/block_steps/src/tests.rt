//! Tests of guards and terms.

use bv_term::TermId;

/// A test: a guard alone, or a guard and an old term. A guard without a cell is true.
#[derive(Clone, Copy)]
pub enum Test {
    On(Option<u32>),
    Under(Option<u32>, TermId),
}
