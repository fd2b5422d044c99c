//! The cells of a graph that operations, edges and paths of edges read before they set them: by a pass backwards that lists them, and by
//! what an operation reads and sets.
//!
//! Each law is the contract of a function that does nothing: a caller cites what it ensures.
#![tactic(auto)]

ghost use Rattle.needed_cells.specs.Deciding.{EdgesKeepWhole, NamedCellsDecide, NeededAlongDecides, NeededByDecides, NeededCellsDecide};

/// A term has one value in all stores that hold the same in the cells that it names.
pub fn named_cells_decide()
    ensures { NamedCellsDecide }
{}

/// What an operation does is decided by the cells that it reads and those that are needed behind it: from stores that agree on these,
/// with the same values to be drawn, it goes on from both or from neither, and leads to stores that agree on what is needed behind.
pub fn needed_by_decides()
    ensures { NeededByDecides }
{}

/// And so for operations in order: each test of theirs passes from both stores or from neither.
pub fn needed_cells_decide()
    ensures { NeededCellsDecide }
{}

/// A run along a path can be had from any other store of the graph's cells that agrees on what the path needs, and what is needed
/// behind the path is then the same in both last stores. So a formula over needed cells says of one store what it says of all these.
pub fn needed_along_decides()
    ensures { NeededAlongDecides }
{}

/// An edge leads from a store with a value of its width in each cell only to stores that have one too.
pub fn edges_keep_whole()
    ensures { EdgesKeepWhole }
{}
