//! The laws of truths.

ghost use Rattle.formula_diagrams.specs.Laws.{TruthsStay};

/// Numbers keep their truths as an arena grows.
pub fn truths_stay()
    ensures { TruthsStay }
{}
