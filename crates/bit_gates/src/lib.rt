//! Gates: clauses that define new variables as functions of given literals.
//!
//! A gate's clauses are those of a list of definitions, one new variable each (`Def`). `put_` functions append
//! definitions to a `Net`; a gate makes a net, then adds the net's clauses in one go. Lists of literals have their lowest
//! bit first.
#![tactic(auto)]

mod adders;
mod comparisons;
mod dividers;
mod emission;
mod netlist;
mod products;
mod shifters;
mod singles;

pub use adders::{adder, put_half, put_ripple};
pub use comparisons::{
    equal, less, put_alike, put_below, put_equal, put_less, put_ordered, topped,
};
pub use dividers::{
    divider, negate_all, put_divided, put_none, put_quotient, put_selected, put_step, put_zeros,
    shift_in,
};
pub use emission::{are_below, close, emit, emit_def, push_each};
pub use netlist::{Def, Net, NoRoom};
pub use products::{multiplier, put_masked, put_product, put_row};
pub use shifters::{
    Shift, put_emptied, put_filled, put_last_stage, put_right_stage, put_shift, put_stage,
    put_stages, shifter,
};
pub use singles::{and_gate, put_and, put_select, put_xor, select_gate, xor_gate};
