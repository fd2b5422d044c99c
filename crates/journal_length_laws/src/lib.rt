//! How long a journal can be where the graph has no cycle.
//!
//! Where so many paths begin at a graph's entry and no more, each vertex of an unwinding is one of them. A vertex is expanded once at
//! most, and a refined leaf is closed for good; between two Refines a pair is settled once at most. So each list of legal units ends.
#![tactic(auto)]

ghost use Rattle.journal_length_laws.specs.Laws.{JournalsAreShort};

/// Where p paths begin at the entry of a graph, with the one that has no edge, the journal of a legal unwinding has fewer than
/// p * p * p + p * p + 2 * p units, in whatever order they were made.
pub fn journals_are_short()
    ensures { JournalsAreShort }
{}
