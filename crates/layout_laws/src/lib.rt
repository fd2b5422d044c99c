//! Laws of the cells of a program's graphs: different things have different cells, and what an instruction needs has one. Each law is
//! the contract of a function that does nothing: a caller cites what it ensures.
#![tactic(auto)]

ghost use Rattle.layout_laws.specs.Differ.{CellsDiffer};
ghost use Rattle.layout_laws.specs.Serve.{CellsServe};

/// In the layout of any code no two of these have one cell: elements of objects, slots, the draws of a width, and the index that is kept.
pub fn cells_differ()
    ensures { CellsDiffer }
{}

/// In the layout of a code each slot that one of its instructions reads has a cell, and so have its draws, the index that it keeps, and
/// each object.
pub fn cells_serve()
    ensures { CellsServe }
{}
