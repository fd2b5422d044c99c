//! For each visit of a loop of main a run over the graphs of functions comes to the loop's node, and its store shows what the objects hold.
//! Each law is the contract of a function that does nothing: a caller cites what it ensures.
#![tactic(auto)]

ghost use Rattle.loop_visit_laws.specs.Loops.{LoopVisitsFollow, LoopsTurn};

/// Where all turns of the code at a loop's offset go to one place of main, and no call stands at it, each visit of the loop has a run over
/// the graphs to that place's node, with no call open. It draws what the program drew, and its store shows what the objects hold.
pub fn loop_visits_follow()
    ensures { LoopVisitsFollow }
{}

/// A loop of main's graph is one of those.
pub fn loops_turn()
    ensures { LoopsTurn }
{}
