//! The opening of a program's graphs gives a store that mirrors the machine where the code of main begins. So each run of a typed
//! program that ends in an error has its run over the graphs. Each law is the contract of a function that does nothing: a caller cites
//! what it ensures.
#![tactic(auto)]

ghost use Rattle.code_start_laws.specs.Errors.{ProgramErrorsFollow};
ghost use Rattle.code_start_laws.specs.Opening.{ProgramOpens};

/// From a store of zeros, but for the cell of the slot that holds the place to return to, the opening leads to one that says what all
/// objects of a typed program hold before main.
pub fn program_opens()
    ensures { ProgramOpens }
{}

/// Where graphs follow a typed program's code, a run of the program that ends in an error has a run over the graphs to a node of that
/// error, which draws what the program drew.
pub fn program_errors_follow()
    ensures { ProgramErrorsFollow }
{}
