//! The answers to requests for the check of a certificate and for the verification of a source, be it that of a file or that of a seed:
//! files are read and written, and the line of the answer is printed.
#![tactic(auto)]

mod answering;
mod deciding;
mod laws;
mod loading;
mod printing;
mod storing;
mod witnessing;

pub use answering::{Told, answer};
pub use laws::{
    accepted_is_certified, accepted_is_exact, checks_agree, safe_is_accepted, safe_is_proved,
    unsafe_reaches, zero_is_certified,
};
