//! Terms of a table, looked up by what they mean: bits of truths, and choices between values. A call that answers yes promises the
//! meaning in each store of the table's widths.
#![tactic(auto)]

mod truths;

pub use truths::{
    is_added, is_bit_under, is_cell_bit, is_chosen, is_chosen_index, is_not, is_old, is_old_bit,
    is_one_bit, is_one_wide,
};
