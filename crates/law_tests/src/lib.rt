//! Tests of the laws: what no caller runs is called here once.
#![tactic(auto)]

#[cfg(test)]
mod laws;
