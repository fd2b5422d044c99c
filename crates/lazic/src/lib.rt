//! What `lazic` answers to its words: to `verify SOURCE` whether inputs make a program reach an error, to `generate SEED` the same of the
//! source of a seed, to `check SOURCE CERT` whether a certificate shows that none do, and to `replay SOURCE RUN` what the program does
//! with given inputs.
#![tactic(auto)]

mod answer;
mod outcome;
mod report;
mod requests;
mod running;
mod top;

pub use report::{Kept, Report, no_memory};
pub use top::run_words;
pub use verdicts::Values;
