//! Graph runs are determined by what they draw, where a node with two edges tests a term on one and its complement on the
//! other.
//!
//! The walk takes at each node the edge that leads on; the law ties it to the relation of graph runs, which names a path.
#![tactic(auto)]

ghost use Rattle.graph_walk_laws.specs.Walks.{RunsAreWalks, WalksAreRuns};

/// A run along a path is the walk of as many steps, whatever values are left over behind those that it draws. So two
/// runs with the same start, the same values and the same number of edges are one.
pub fn runs_are_walks()
    ensures { RunsAreWalks }
{}

/// A walk of n steps is a run along a path of n edges, which draws the values that the walk takes.
pub fn walks_are_runs()
    ensures { WalksAreRuns }
{}
