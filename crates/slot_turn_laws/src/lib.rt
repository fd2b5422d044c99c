//! Flat code is out of turns where the typed tree is that it was made of, with the same objects. The law is the contract of a function
//! that does nothing: a caller cites what it ensures.
#![tactic(auto)]

ghost use Rattle.slot_turn_laws.specs.Turns.{CodeTurnsAsTree};

/// Where a run of the tree ends for want of a turn at the offset of a loop or a jump, the run of its code ends so, at an instruction that
/// takes a turn for this offset, with the same objects.
pub fn code_turns_as_tree()
    ensures { CodeTurnsAsTree }
{}
