//! The operations of C as terms: the values of slots and of objects' elements, and where operations fail.
//!
//! A slot's cell has 64 bits, whatever the kind of its value, and holds the value modulo two to the power of 64. An element's cell
//! has the width of its kind, and holds the value modulo two to the power of that. An operation narrows its operands to the width
//! of its kind, which is promoted, computes there, and extends the result by the kind's sign. Zero tests, index tests and cases
//! compare all 64 bits of a slot.
//!
//! A product of a signed kind is made exactly, in twice the width: it and its test of overflow share the multiplication, which costs
//! about four times that of the width alone. Quotients and remainders of signed kinds are those of the operands without their
//! signs. All else costs in proportion to the width.
//!
//! What a call promises of its term holds in every store: the term's width, and its value as a function of those of the operands
//! (`specs/Numbers`, `specs/Operations`), where the operands stand in the table and have the widths that the call asks for. Then the
//! table stays sound.
//!
//! Which terms a call puts, and the number of the one that it answers, are a function of the words before it and of its arguments
//! (`specs/Made`, a definition for each call), whatever the operands are: equal calls on equal words make equal tables.
#![tactic(auto)]

mod arithmetic;
mod failing;
mod single;
mod values;
mod words;

pub use arithmetic::Operands;
pub use failing::{Fails, Tests, negation_overflows, tests_of};
pub use values::{complement, converted, is_signed, narrow, negated, promoted, widen};
pub use words::{SLOT_WIDTH, Words};
