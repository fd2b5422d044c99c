//! Cells that are needed are read by operations behind before they are set.
//!
//! The cuts of a path's question, and the formulas that a Refine may use, are over cells that a pass backwards along the path finds. What
//! they are is said here without that pass: the path's operations in order have one that reads the cell, and none before it sets it.
#![tactic(auto)]

ghost use Rattle.needed_cell_laws.specs.Laws.{CutsAreRead, NeededIsRead, SharedIsRead};

/// Each cell that edges in order need is read by an operation of theirs, and no operation before that one sets it.
pub fn needed_is_read()
    ensures { NeededIsRead }
{}

/// Each cell of a cut of a path's question is read by an operation behind the cut, and no operation between sets it.
pub fn cuts_are_read()
    ensures { CutsAreRead }
{}

/// A variable of clauses before a cut and of clauses behind it is in a literal of a cell of the cut. An operation behind the cut reads
/// that cell, and no operation between sets it.
pub fn shared_is_read()
    ensures { SharedIsRead }
{}
