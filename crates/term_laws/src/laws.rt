//! The width and the value of a term, by those of its operands.
ghost use Rattle.term_laws.specs.Laws.{RenamedFits, RenamedMeans, TermsAreMade};

/// Each term of a table is well formed, its operands have lower numbers, and its width and its value are the defined
/// functions of theirs.
pub fn terms_are_made()
    ensures { TermsAreMade }
{}

/// A term whose operands are others of the same widths is as well formed, and as wide.
pub fn renamed_fits()
    ensures { RenamedFits }
{}

/// A term whose operands are others of the same widths and values has the same value.
pub fn renamed_means()
    ensures { RenamedMeans }
{}
