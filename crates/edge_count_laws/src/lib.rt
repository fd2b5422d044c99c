//! The edges of the graphs that follow a program's flat code: how many there are, and which ways nodes have.
//!
//! Each instruction's nodes have at most two edges each. So copies of these graphs have few edges where they have few nodes, and `inline`
//! answers the copies.
#![tactic(auto)]

ghost use Rattle.edge_count_laws.specs.Branching.{GraphsBranch};
ghost use Rattle.edge_count_laws.specs.Sparse.{BuiltIsSparse};

/// Of what `build` answers no graph has more edges for each node than `inline` asks for.
pub fn built_is_sparse()
    ensures { BuiltIsSparse }
{}

/// Of what `build` answers an error, an end and a call lead nowhere, and each other node leads on by one edge or by two. Of two the first
/// assumes a term of one bit, and the second begins by assuming one that is 1 in each store where the other is not: no store goes both
/// ways, and each goes one.
pub fn graphs_branch()
    ensures { GraphsBranch }
{}
