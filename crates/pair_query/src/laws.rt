//! Laws of pairs, each as the contract of a function that does nothing.

ghost use Rattle.pair_query.specs.Laws.{PairExact, PairRead};

/// A pair's clauses are refuted exactly where each store that meets the first label meets the second.
pub fn pair_exact()
    ensures { PairExact }
{}

/// The store that the cells spell under an assignment which satisfies a pair's clauses meets the first label and not the second.
pub fn pair_read()
    ensures { PairRead }
{}
