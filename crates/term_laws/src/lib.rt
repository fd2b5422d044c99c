//! Laws of bit-vector terms: what each is made of, and terms with other operands of the same widths and values. Each law is
//! the contract of a function that does nothing: a caller cites what it ensures.
#![tactic(auto)]

pub mod laws;
