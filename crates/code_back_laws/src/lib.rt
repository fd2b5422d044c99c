//! A run over the graphs of functions that ends at an error node is a run of the program to this error: the graphs leave no choice, so
//! each step of the machine goes along the run. Each law is the contract of a function that does nothing: a caller cites what it ensures.
#![tactic(auto)]

ghost use Rattle.code_back_laws.specs.Back.{FlatErrorsComeBack, MovesAreDetermined, ProgramErrorsComeBack, ReturnsAreUnread, StoresOpen, TypedErrorsComeBack};

/// Of two moves from one spot that draw from the front of the same values, one is the other.
pub fn moves_are_determined()
    ensures { MovesAreDetermined }
{}

/// The slot by which a function returns is read by no instruction, and has no cell.
pub fn returns_are_unread()
    ensures { ReturnsAreUnread }
{}

/// The opening leads from any store to one that mirrors the machine where main begins, if its slots are read off that store.
pub fn stores_open()
    ensures { StoresOpen }
{}

/// A run over the graphs to an error node is a run of the flat code to this error, with at least as many turns as it has moves, and with
/// inputs that begin with what it draws.
pub fn flat_errors_come_back()
    ensures { FlatErrorsComeBack }
{}

/// So it is a run of the typed tree.
pub fn typed_errors_come_back()
    ensures { TypedErrorsComeBack }
{}

/// From some number of turns on.
pub fn program_errors_come_back()
    ensures { ProgramErrorsComeBack }
{}
