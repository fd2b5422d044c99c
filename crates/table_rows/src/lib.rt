//! What the libraries of rows share: tables of rows, one a line, with tabs between their columns, and texts as they stand there.
//!
//! In a text `\n`, `\t` and `\s` stand for a line's end, a tab and a blank, `\xHH` for a byte, `\e` for nothing, `\\` for a
//! backslash, and `\h` for the lines that C programs of the tables begin with; `«N×TEXT»` stands for a text N times.
#![tactic(auto)]

mod fields;
mod files;
mod naming;
mod refusal;
mod table;
mod text;

pub use fields::{Fields, list_of, number_of};
pub use files::load;
pub use naming::{status_for, try_named};
pub use refusal::{Flaw, Refusal};
pub use table::{Library, Rows, Table, other_than};
pub use text::text_of;
