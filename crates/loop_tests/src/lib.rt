//! Tests of workers on the map that is found of a loop.
#![tactic(auto)]

#[cfg(test)]
mod counting;
