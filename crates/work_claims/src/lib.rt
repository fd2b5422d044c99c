//! The numbers below a total are claimed one by one by workers that run beside each other.
//!
//! What the workers share is two words: the next number that nobody has, and the least number that was reported. Each
//! call of a worker is one atomic step on one of them: no lock, no channel, nothing tried again. A worker steps with its
//! claimer, which has no bytes; contracts see in it which numbers the worker was given and which it reported. In every
//! schedule the numbers given are those below the claimed count, each given once, and the second word is the least number
//! that was reported.
#![tactic(auto)]

mod calls;
mod ending;
mod knowledge;
mod law;
mod words;

pub use knowledge::{Hand, Terms};
pub use law::Law;
pub use words::{Claimer, Claims, Closed};
