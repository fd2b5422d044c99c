//! When a graph stands for a program: each run of the program that ends in an error has a run of the graph to that error, and each run of
//! the graph to an error is one of the program; and when the errors of one graph come back to another. Definitions alone; that the graph
//! which is made of a program stands for it, `source_graph_laws` and `source_graphs` say.
#![tactic(auto)]
