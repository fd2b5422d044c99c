//! The cells of a program's graphs, and where objects and slots lie among them.
//!
//! First stand the elements of objects, in the order of the objects, each as wide as its kind (one bit for `_Bool`): so an object
//! has one run of cells. Then a cell of 64 bits for each slot that some instruction reads, in the order of the slots. Then one for
//! each width that is drawn into a slot, in the order in which the code first draws it, since a draw has the range of its cell; and
//! one for an index that a `++` or `--` behind an element keeps. A slot's cell holds its value modulo two to the power of 64, an
//! element's cell its value modulo two to the power of its width. The place to return to is in no cell.
#![tactic(auto)]

pub mod laws;
mod layout;
mod reading;

pub use layout::{Layout, elements_of, is_array, widths_of};
pub use reading::behind;
