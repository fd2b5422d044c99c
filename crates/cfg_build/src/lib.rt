//! The graphs of a program's functions, made of its flat code, instruction by instruction: a node for each place, a node for each
//! check that may fail, and the cells that instructions work on.
//!
//! **Cells.** Elements of objects and slots lie among the cells as `code_layout` says; what an instruction does to them is said by
//! `code_moves`.
//!
//! **Nodes.** The nodes of a function stand in the order of its places, and its exit, an end node, stands last. A place has one node;
//! an instruction with one check has the node of its error behind its own; one with two checks (a divisor of zero, then an
//! overflow) has its own, the first error's, one between them, and the second error's. In the graph of `main` node 0 stands before
//! all places: its one edge gives each element of a static object its first value, and 0 to all others. The call of an error is its
//! error node, the end of the program (as in `abort`) an end node, and a call a call node.
//!
//! **Edges.** Error, end and call nodes have none, all others one or two. Of two, the first begins with an Assume of a term and the
//! second with an Assume of its complement: for a check the error's side comes first, for `if`, loops, `&&`, `||` and `?:` the side
//! on which the value is not 0, for a case of a `switch` the side on which the value is that of the case. An edge leads to a higher
//! number, but for the turns of loops and of gotos that go back.
//!
//! **Loops.** `main`'s graph lists its `while` and `for` loops in the order of their offsets, each with the node to which its turns
//! go: there the store of each visit stands. That all turns at a loop's offset go there, and that no call stands at it, is tested.
//!
//! **Contracts.** `specs/Steps` and `specs/Follows` say what stands for each instruction at its place, by the meaning of terms in every
//! store, and `specs/Graphs` what the graph of each function is. `specs/Ranges` says where the code of each function stands, and
//! `specs/Fitting` that constants, kinds and numbers of elements fit their objects and that each call goes to the entry of a function;
//! both are tested. So the graphs of all functions follow the code, each from its function's entry on, and `main`'s is that of the
//! program's `main`; or there are none. `specs/Passing` says of which code graphs are made: there the tests pass and each place has its
//! number; that the parts make graphs then is a law of function_graph_laws. Not said is that the graph lists all loops of `main`.
//! `specs/Sizes` says how many cells and nodes are too many: a limit is told only of a program that passes it.
//! Which nodes and edges places become, and which terms are put for them, is a function of the terms, nodes and edges before them, of
//! what the terms are made over, and of the code with its numbers, ranges and owners (`specs/Made`, a definition for each call), wherever
//! anything lies. So is the graph of each function.
#![tactic(auto)]

mod building;
mod draft;
mod fitting;
mod keeping;
mod looping;
mod numbering;
mod opening;
mod placing;
mod ranging;
mod sizes;
mod steps;

pub use building::build;
