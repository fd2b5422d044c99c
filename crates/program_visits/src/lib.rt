//! When a graph visits the loops of a program as the program does: for each visit of a loop a run of the graph comes to the loop's node, and
//! the cells of the objects hold what these hold there. Definitions alone.
#![tactic(auto)]
