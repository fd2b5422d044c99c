//! Laws of the terms of C's operations, whose operands hold integers modulo two to the power of 64: where C's operation has a result, its term
//! holds it, and its tests are 1 where C's operation meets an error. Each law is the contract of a function that does nothing: a caller
//! cites what it ensures.
#![tactic(auto)]

pub mod laws;
