//! What stands in the rows of tables: words and numbers, literals and clauses, terms; and tables whose rows state something.
#![tactic(auto)]

mod clauses;
mod fails;
mod tables;
mod terms;
mod words;

pub use clauses::{clauses_in, lit_in, literal_rows, lits_in};
pub use fails::RowFail;
pub use table_rows::{Library, Refusal, Rows};
pub use tables::{Stated, Table};
pub use terms::{one_term, terms_in};
pub use words::{fields, half, halves, number, numbers, wide, wides};
