//! The graph of a program lists the `while` and `for` loops of `main`. Each law is the contract of a function that does nothing: a caller
//! cites what it ensures.
#![tactic(auto)]

ghost use Rattle.loop_listing_laws.specs.Listing.{LoopsListed};

/// Where nothing else asks for turns at the offset of a `while` or `for` loop of `main`, the graph lists all of them, in their order.
pub fn loops_are_listed()
    ensures { LoopsListed }
{}
