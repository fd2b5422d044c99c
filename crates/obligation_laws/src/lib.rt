//! What the clauses of an obligation say, each law as the contract of a function that does nothing.
#![tactic(auto)]

ghost use Rattle.obligation_laws.specs.Laws.{EdgeExact, EntryExact, ErrorExact, InductiveExact};

/// No assignment satisfies the clauses of the entry's obligation exactly where the entry's formula holds in every store.
pub fn entry_exact()
    ensures { EntryExact }
{}

/// No assignment satisfies the clauses of an error node's obligation exactly where no store meets the node's formula.
pub fn error_exact()
    ensures { ErrorExact }
{}

/// No assignment satisfies the clauses of an edge's obligation exactly where the edge leads from stores that meet the formula at its start
/// only to stores that meet the formula at its end, though operations that give nothing that is needed add no clauses.
pub fn edge_exact()
    ensures { EdgeExact }
{}

/// A map is inductive exactly where no assignment satisfies the clauses of any of its obligations.
pub fn inductive_exact()
    ensures { InductiveExact }
{}
