//! The graph that is made of a program visits the program's loops, and what an inductive map says at a loop holds at each visit. Each law is
//! the contract of a function that does nothing: a caller cites what it ensures.
#![tactic(auto)]

ghost use Rattle.source_visit_laws.specs.Laws.{InlinedVisitsFollow, VisitsHoldThere};

/// Each visit of a listed loop of a typed program whose code the function graphs follow has a run of the graph with all calls inlined to the
/// loop's node, which draws the same values, in a store that shows what the objects hold.
pub fn inlined_visits_follow()
    ensures { InlinedVisitsFollow }
{}

/// With an inductive map on a graph that visits a program's loops, the formula of a loop's node holds at each visit.
pub fn visits_hold()
    ensures { VisitsHoldThere }
{}
