//! The variables in the order of their activity, for decisions (M. Moskewicz and others, Chaff, 2001), and the sign that
//! each had last (K. Pipatsrisawat and A. Darwiche, 2007).
//!
//! The variables stand in a binary heap, the most active first. Where a variable stands is written down as a hint, which
//! is looked at before it is used: so what is promised of the heap, which variables it has, rests on the heap alone.
//! Nothing is promised of the order, which is free to the search.
#![tactic(auto)]

mod order;
mod sifting;

pub use order::Order;
