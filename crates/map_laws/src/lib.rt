//! Laws of maps that are made from unwindings, each as the contract of a function that does nothing.
#![tactic(auto)]

ghost use Rattle.map_laws.specs.Laws.{ExtractedIsInductive};

/// A map that says at each node the labels of a complete legal unwinding's uncovered vertices there is inductive.
pub fn extracted_is_inductive()
    ensures { ExtractedIsInductive }
{}
