//! The board of a run of flat code: its slots, its objects, and how many inputs and turns it took; and what each instruction
//! does on it. Nothing here takes memory but what makes a board.
#![tactic(auto)]

mod board;
mod row;
mod step;
mod values;

pub use board::{Board, Site, put_value};
pub use row::Row;
pub use step::Step;
