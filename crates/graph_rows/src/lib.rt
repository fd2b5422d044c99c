//! What row programs share about graphs: the graph that stands in a row's text, and walks through a graph.
//!
//! The parts of a graph have semicolons between them: `widths` of the cells come first, `WIDTHxCOUNT` for those of an array, then
//! `cells` where the graph's are to have other widths than the terms', `nodes`, each `plain`, `end` or an error as `KIND:OFFSET`, with
//! `error` for `reach:71`, `entry NODE`, which is 0 where it is not there, `loop OFFSET NODE`, and `edge FROM TO OPERATION , ..`, which
//! may have no operation. An operation is `assume TERM`, `set CELL TERM`, `set_at FIRST COUNT INDEX VALUE`, where both are terms, or
//! `draw CELL`, or `draw_signed CELL`.
#![tactic(auto)]

mod graphs;
mod listed;
mod walking;

pub use graphs::{graph_of, kind_in, whole_graph};
pub use listed::{ListedWalk, walk_listed};
pub use walking::{Inputs, Stop, walk_on};
