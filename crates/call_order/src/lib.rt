//! Calls in a typed tree: those that lie on a cycle of calls, and an order of the functions in which each stands behind those that
//! it calls.
#![tactic(auto)]

mod calls;
mod confirmed;
mod cycles;
mod laws;
mod marks;
mod order;
mod search;
mod walk;

pub use calls::{CallAt, calls_of};
pub use cycles::recursion_found;
pub use laws::{
    cycles_broken, cycles_found, cycles_none, layers_lead, orders_found, whole_acyclic,
};
pub use order::order_of;
