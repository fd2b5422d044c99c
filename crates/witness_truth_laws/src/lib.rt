//! What a witness writes of a formula is a tree of C that has a value other than 0 wherever the formula holds. Each law is the contract of a
//! function that does nothing: a caller cites what it ensures.
#![tactic(auto)]

ghost use Rattle.witness_truth_laws.specs.Laws.{BitsAreRead, TextIsWritten, WrittenHasValue, WrittenIsTrue};

/// A bit of an object's value in C is that bit of what its cell holds.
pub fn bits_are_read()
    ensures { BitsAreRead }
{}

/// What is written of a term as a whole has the term's value, 1 or 0.
pub fn written_has_value()
    ensures { WrittenHasValue }
{}

/// What is written of a formula is true where the formula holds.
pub fn written_is_true()
    ensures { WrittenIsTrue }
{}

/// The text that is written of a formula is that of these expressions.
pub fn text_is_written()
    ensures { TextIsWritten }
{}
