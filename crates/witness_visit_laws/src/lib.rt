//! Each invariant that a witness states is true at each visit of its loop. Each law is the contract of a function that does nothing: a caller
//! cites what it ensures.
#![tactic(auto)]

ghost use Rattle.witness_visit_laws.specs.Laws.{InlinedCellsStand, InvariantsAreTrue, MarkedInvariantsAreTrue};

/// The cells of the graph that is made of a program lie as its layout says.
pub fn inlined_cells_stand()
    ensures { InlinedCellsStand }
{}

/// Where a map's formulas hold at the visits of a source's loops, so do the invariants that are written of them.
pub fn invariants_are_true()
    ensures { InvariantsAreTrue }
{}

/// So it is of an inductive map on a graph of blocks, where the invariants are written over the cells that hold the same in both graphs.
pub fn marked_invariants_are_true()
    ensures { MarkedInvariantsAreTrue }
{}
