//! What clause learning keeps and answers: the trail of true literals with their levels and reasons, the clause that a
//! conflict teaches, and the laws by which it is new over the clauses that are known. Each solver stands on these.
//!
//! The method is that of J. Marques-Silva and K. Sakallah (GRASP, 1999) with the first unique implication points of
//! L. Zhang and others (Efficient Conflict Driven Learning, 2001).
#![tactic(auto)]

mod cone;

pub use cone::trimmed;
use prop::{Assignment, Lit};
use resolution_log::Log;

/// The most pairs that a log may have is one less than this.
pub const MOST_PAIRS: u64 = 134_217_728;

/// A literal that is true.
#[derive(Clone, Copy)]
pub struct Entry {
    /// The literal.
    pub lit: Lit,
    /// The level at which it became true: how many decisions stood then, itself included.
    pub level: usize,
    /// The number of the clause that made it true, or none for a decision.
    pub reason: Option<u32>,
}

/// What a query answers.
#[derive(Drop)]
pub enum Answer {
    /// An assignment that satisfies all clauses.
    Sat(Assignment),
    /// A lean refutation.
    Unsat(Log),
    /// A new log of as many chains as were allowed.
    Spent(Log),
}

/// Why a query has no answer.
#[derive(Drop)]
pub enum SolveFail {
    /// A new log whose pairs reach the limit with its last chain.
    OverLog(Log),
    /// Memory ran out, or a number of 32 bits does.
    Memory,
}

/// Why a question that is first made into clauses has no answer.
#[derive(Drop)]
pub enum QueryFail {
    /// The clauses would have this many literals, more than are allowed.
    Over(u64),
    /// A new log whose pairs reach the limit with its last chain.
    OverLog(Log),
    /// Memory ran out, or a number of 32 bits does.
    Memory,
}
