//! Runs of C programs: state, endings, loops, jumps and calls, as the words over which the meanings of the source tree and
//! of the typed tree are written. The public functions have empty bodies: each stands for the law that its contract is.
#![tactic(auto)]

ghost use Rattle.c_run.specs.Laws.{EachIndex, Filled};

/// An index finds its element where the array has it, and is the error anywhere else.
pub fn each_index()
    ensures { EachIndex }
{}

/// An array has all its elements, whatever its list gives.
pub fn filled()
    ensures { Filled }
{}
