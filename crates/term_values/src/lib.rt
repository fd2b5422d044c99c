//! The value of one term in many stores, by the terms below it alone.
#![tactic(auto)]

mod cone;
mod part;
mod step;

pub use cone::ConeTerms;
