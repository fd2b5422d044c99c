//! The lines in which a run is told: what was drawn, decided, assigned, called and returned, and what failed.
#![tactic(auto)]

mod failures;
mod lines;
mod names;

pub use failures::{absent, broken, caret, changed, negated, no_element, operated, unfit, wanting};
pub use lines::{
    assigned, bound, called, decided, drawn, element_text, front, left_out, met, returned,
    undecided, valued, valueless_text,
};
pub use names::{crement_text, kind_text, operator_text};
