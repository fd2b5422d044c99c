//! A run that ends in an error has its run over the graphs of functions. Each law is the contract of a function that does nothing: a
//! caller cites what it ensures.
#![tactic(auto)]

ghost use Rattle.code_flow_laws.specs.Followed.{FlatErrorsFollow, TypedErrorsFollow};

/// Where the opening gives a store that mirrors the machine, a run of a typed tree's flat code that ends in an error, as the graph
/// computes and in its way, has a run over the graphs of functions to a node of that error, which draws what the code drew.
pub fn flat_errors_follow()
    ensures { FlatErrorsFollow }
{}

/// So has each run of the typed tree that ends in an error.
pub fn typed_errors_follow()
    ensures { TypedErrorsFollow }
{}
