//! How many literals the clauses of a path have.
//!
//! The weight of a path is read off the graph alone, before any clause is made. Each law is the contract of a function that
//! does nothing: a caller cites what it ensures.
#![tactic(auto)]

ghost use Rattle.path_weight_laws.specs.Laws.{PathsAreLight, RefusedPathsAreHeavy, TermsAreBelow};

/// The literals of a path's clauses are at most the path's weight: the bounds of the terms below each operation of its
/// edges, each term once for that operation, the bounds of the stores into arrays, 64 for each operation, 64 for each step
/// and 64 for the whole. Operations that give nothing that is needed count in the weight, and add no clause.
pub fn paths_are_light()
    ensures { PathsAreLight }
{}

/// Where `path_clauses` fails since the literals would pass the limit, the number that it names is above the limit and at
/// most the path's weight. So a path whose weight is within the limit is never refused for its literals.
pub fn refused_paths_are_heavy()
    ensures { RefusedPathsAreHeavy }
{}

/// The terms that count in a weight as those below some terms of a table are these terms, their operands, the operands of
/// those, and so on: no others, and each once.
pub fn terms_are_below()
    ensures { TermsAreBelow }
{}
