//! Where the turns of flat code go, by the offsets of what asks for them.
//!
//! A visit of a loop stands where the loop's turns go. So that a run which is out of turns at an offset is known to stand there, all
//! turns at the offset have to go to one place, and no call may stand at it. Both are tried here in one pass over the code.
#![tactic(auto)]

mod goals;

pub use goals::TurnGoals;
