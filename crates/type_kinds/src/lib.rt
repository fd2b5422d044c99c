//! The types of C's expressions: which kind an operation has, a constant, a size, and what type words say together.
#![tactic(auto)]

mod kinds;
mod numbers;
mod operations;
mod types;
mod words;

pub use kinds::{common, is_promoted, is_same_kind, is_signed, promoted};
pub use numbers::number_kind;
pub use operations::{is_shift, is_truth, operation_kind, result_kind, right_kind};
pub use types::{
    ExprType, arms_type, binary_type, bytes_of, called_type, element_type, is_array, is_kind,
    is_void, kind_in, kind_of, kind_or_int, prefix_type, result_type, size_kind, size_of,
};
pub use words::{type_with, typing_type, words_kind};
