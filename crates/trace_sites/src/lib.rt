//! Where in a source stand the values that are drawn, the conditions that are decided and the objects that are assigned to, in
//! the order in which their instructions stand in flat code, which itself has no offsets for them.
#![tactic(auto)]

mod expressions;
mod site;
mod statements;

pub use site::{Part, Site};
pub use statements::{body_sites, statement_sites};
