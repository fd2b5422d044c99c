//! What an instruction of flat code does to the cells of a program's graphs: its checks, as tests of width 1, and its operations.
//!
//! What a call promises of terms holds in every store: `specs/Values` says where an instruction meets an error and what slots and
//! elements hold there, `specs/Moves` what an instruction whose checks passed does to cells, one after the other, and `specs/Deeds`
//! when operations do that. All this is said where the table of terms is over cells in which everything lies as the layout says.
//!
//! Which tests and operations an instruction becomes, and which terms are put for them, is a function of the words and operations
//! before it, of what the terms are made over, and of the instruction (`specs/Made`, a definition for each call), wherever anything
//! lies.
#![tactic(auto)]

mod checks;
mod ground;
mod moves;

pub use checks::operation_of;
pub use ground::Ground;
