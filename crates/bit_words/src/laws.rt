//! Laws of folding. Each is the contract of a function that does nothing: a caller cites what it ensures.
ghost use Rattle.bit_words.specs.Laws.{FoldingGrounded, FoldingSmall, FoldingTold};

/// Where folded definitions are met, the definitions that were folded are met too, by an assignment that agrees on all
/// earlier variables and gives each literal the value of the literal that stands for it.
pub fn folding_told()
    ensures { FoldingTold }
{}

/// Folded definitions speak of earlier variables alone, so that each assignment extends to one that meets them.
pub fn folding_grounded()
    ensures { FoldingGrounded }
{}

/// Folded definitions have no more literals in their clauses.
pub fn folding_small()
    ensures { FoldingSmall }
{}
