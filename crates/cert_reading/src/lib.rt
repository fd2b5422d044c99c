//! Certificates that are read by workers beside each other.
//!
//! What stands before the logs is read first. The logs are cut into stretches of about equal size, where logs seem to begin, and each
//! worker reads one by itself, with as many logs left as there seem to be. Where each stretch ends as the next one began, they say together
//! what one reader would have said; where one does not, or memory runs out, all is read by one.
#![tactic(auto)]

mod beside;
mod cutting;
mod portions;

pub use beside::{read_cert_by, read_shared};
