//! Certificates: what lazic stores of a proof that no error can be reached, as text with one spelling.
//!
//! A certificate names its source by a hash, the data model and the layout of graph numbers, and has a table of terms, a formula
//! for each node of the graph, and a log of resolution steps for each obligation. It is read and written in one pass; memory is
//! taken by what was read, never by a number that a file states.
#![tactic(auto)]

mod draft;
mod field;
mod letters;
mod pairs;
mod place;
mod readers;
mod reading;
mod steps;
mod writing;

use bv_term::Term;
use lv_base::Model;
pub use readers::{Front, Reader};
pub use reading::{MOST_BYTES, read_cert};
use resolution_log::Log;
pub use writing::write_cert;

/// A certificate.
#[derive(Drop)]
pub struct Cert {
    /// The hash of the source.
    pub hash: [u8; 32],
    /// The data model.
    pub model: Model,
    /// The layout of the graph's numbers.
    pub layout: u32,
    /// The terms, numbered from 0.
    pub terms: Vec<Term>,
    /// The number of a term for each node of the graph.
    pub formulas: Vec<u32>,
    /// A refutation of each obligation.
    pub logs: Vec<Log>,
}
