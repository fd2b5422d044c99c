//! Flat code runs as the typed tree that it was made of, and goes on from instruction to instruction.
#![tactic(auto)]

ghost use Rattle.slot_laws.specs.Laws.{CodeGoesOn, CodeRunsEachWay, CodeRunsAsTree, CodeShaped, RanksFall};

/// A run from a place is the run from where the instruction there leads: each instruction takes a turn or goes forward.
pub fn code_goes_on()
    ensures { CodeGoesOn }
{}

/// The rank of a machine falls with each instruction: so a run takes no more of them than its first rank.
pub fn ranks_fall()
    ensures { RanksFall }
{}

/// The code of a typed tree stores no more and no fewer values into an object than it has elements.
pub fn code_shaped()
    ensures { CodeShaped }
{}

/// The code of a typed tree runs as the tree with each arithmetic that is C's on operands of the kinds, and in each way to keep values
/// in objects, to pick elements and to tell cases that does as C where values are of the kinds and indices are below the sizes.
pub fn code_runs_each_way()
    ensures { CodeRunsEachWay }
{}

/// The code of a typed tree runs as the tree, whatever the slots hold before, where each function stands behind those that it
/// calls.
pub fn code_runs_as_tree()
    ensures { CodeRunsAsTree }
{}
