//! Words of literals over the gates, with constants and equal literals folded.
//!
//! A gate's definitions are made in a net of their own and then folded into the net that becomes clauses: each definition
//! whose literals are constants, equal or complements becomes a literal that is there already, and the definitions after it
//! speak of that literal. The gates keep their sizes, and their laws carry over.
#![tactic(auto)]

mod elements;
mod folding;
mod folds;
pub mod laws;
mod words;

pub use elements::{put_decoded, put_picked, put_stored};
pub use folding::{fold, fold_all, rename, rename_all, rename_def};
pub use folds::{
    Relation, put_alike, put_both, put_carry, put_def, put_either, put_same, put_select, put_sum,
    put_xor, related, under,
};
pub use words::{copies, numeral, put_ands, put_xors, spelled};
