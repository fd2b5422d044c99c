//! Certificates: the proof of a map's obligations, and what is stored of it.
//!
//! Each obligation of a map is made into clauses and refuted by the solver, one after another; answers that are there already are taken
//! ([`prove_with`]). The refutations, with the map, are a certificate; what it says is checked by `cert_check`, which asks no solver.
#![tactic(auto)]

mod known_answers;
mod proving;
mod storing;

pub use known_answers::{Stopped, place_log, places_for};
pub use proving::{Proved, prove, prove_one, prove_with};
pub use storing::certificate;
