//! The graph of a whole program: each call of a function becomes a copy of its graph, which stands where the call stood.
//!
//! **Nodes.** The nodes of `main` keep their order, and so do those of each copy. A call is a plain node; the nodes of its copy
//! stand right behind it, those of the copies in it among them, and then come the nodes that follow the call. From the call's node
//! an edge leads to the copy's entry, and from the copy's exit, which is a plain node, one leads to the node at which the call goes
//! on; they do nothing. So a call adds the nodes of the called graph and no other, and an edge of a copy leads to a higher number
//! where that of the function's graph does: the edges that do not are the turns of loops and of gotos.
//!
//! **Cells and terms** are those of the functions' graphs. Nothing is recursive, so that all copies of a function use its cells.
//!
//! **Loops** are those of `main`, in the order of their offsets. Other end nodes than a function's exit, such as that of `abort`,
//! stay end nodes in each copy.
//!
//! What is proved is that the answer is an inlining (`specs/Inlining.antt`) of the functions' graphs: each edge stands in each copy, a
//! call leads into a copy that goes on where the call does, each error node is there in each copy, and there is nothing else: no other
//! edge, no other error among the copies' nodes, and no two nodes with one number. So runs of the answer are runs over the functions'
//! graphs, both ways. A graph has a limit on edges: where some function's graph has more than 30,000 for each node, copies that pass the
//! limit give the graph that is an error at its entry. Which numbers nodes have no contract says; of the limit on nodes, that it is told
//! only where the copies have more.
//!
//! **Numbers** are apart because of sizes. A copy of so many nodes, those of the copies in it among them, has a stretch of as many numbers:
//! each of its nodes has one, and behind a call lies the stretch of its copy. So the nodes of all copies share the stretch of `main`, and
//! none is left over or given twice.
#![tactic(auto)]

mod copies;
mod edges;
mod inlining;
mod nodes;
mod numbers;
mod offsets;
mod sizes;

pub use inlining::inline;
pub use numbers::Copied;
