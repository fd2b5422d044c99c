//! What the verdict that a source is safe means for checks, as the contract of a function that does nothing.
ghost use Rattle.source_verdicts.specs.Laws.{WrittenIsAccepted};

/// The text that is written of a proof is accepted by each check of it for the same source, model and graph, or memory runs out.
pub fn written_is_accepted()
    ensures { WrittenIsAccepted }
{}
