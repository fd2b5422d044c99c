//! What a witness writes is read by the rules of C as the tree that is meant. Each law is the contract of a function that does nothing: a
//! caller cites what it ensures.
#![tactic(auto)]

ghost use Rattle.witness_text_laws.specs.Laws.{TextsAreRead, TreesAreShaped};

/// The trees have the shape of the grammar, operators binding as in C.
pub fn trees_are_shaped()
    ensures { TreesAreShaped }
{}

/// The tokens of the text are those of the tree.
pub fn texts_are_read()
    ensures { TextsAreRead }
{}
