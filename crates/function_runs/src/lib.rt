//! Runs over the graphs of a program's functions: definitions alone.
//!
//! A run stands at a node of a function's graph, with a store and the places at which its open calls go on. It moves along an edge,
//! into a called function, or back from a function's exit. What is made of flat code is said by these runs, and so is what becomes
//! of calls that are inlined.
#![tactic(auto)]
