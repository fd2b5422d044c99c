//! Where the machine stands in a run of flat code, a run over the graphs of functions stands too. The law is the contract of a function
//! that does nothing: a caller cites what it ensures.
#![tactic(auto)]

ghost use Rattle.code_visit_laws.specs.Visits.{FlatVisitsFollow};

/// Behind each number of instructions a run over the graphs comes to the node of the machine's place, with a store that mirrors the
/// machine, and draws what the machine drew.
pub fn flat_visits_follow()
    ensures { FlatVisitsFollow }
{}
