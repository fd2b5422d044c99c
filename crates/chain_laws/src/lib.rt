//! The formulas that a refutation of a path's clauses gives are a chain along the path's edges.
//!
//! Each law is the contract of a function that does nothing: a caller cites what it ensures.
#![tactic(auto)]

ghost use Rattle.chain_laws.specs.Laws.{FormulasAreLinked, FormulasMakeLinks};

/// From a refutation of the clauses of a path's question, of the formulas of its cuts as `chain` answers them each with the edge
/// of its number implies the next.
pub fn formulas_are_linked()
    ensures { FormulasAreLinked }
{}

/// Copied into the table of a legal unwinding, the formulas of the cuts of the path of a vertex are links along the path, from true at
/// the root to false at the vertex, each one bit wide, and each names only cells that the rest of the path reads before it sets them. So
/// they may strengthen the path.
pub fn formulas_make_links()
    ensures { FormulasMakeLinks }
{}
