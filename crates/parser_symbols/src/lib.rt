//! What each token is to the grammar: its symbol, with the token's offset.
#![tactic(auto)]

mod laws;
mod symbols;

pub use laws::words_are;
pub use symbols::sign_of;
