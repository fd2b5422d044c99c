//! Laws of unwindings, each as the contract of a function that does nothing.
//!
//! An unwinding is a tree of paths through a graph with labels and coverings, as in K. McMillan, Lazy Abstraction with
//! Interpolants (CAV 2006). Its definitions stand in `cover_engine`.
#![tactic(auto)]

ghost use Rattle.cover_engine.specs.WellLabelled.{LegalIsWellLabelled};
ghost use Rattle.unwinding_laws.specs.Laws.{ChainsRefine, GrowingTablesKeepLegality, LegalIsATree, LegalPathsAreOfEdges};
ghost use Rattle.unwinding_laws.specs.Steered.{GrowingTablesKeepSteering, OneMoreIsSteered};

/// A legal unwinding is well labelled, whatever legal units made it: its root's label is true, each vertex's label with
/// the edge to a child implies the child's label, a vertex has no children or one for each edge that leads on, and each
/// pair is of one node, from a label to one that it implies, with a right side that is uncovered and not below the left.
pub fn legal_is_well_labelled()
    ensures { LegalIsWellLabelled }
{}

/// An unwinding stays legal where further terms come to its table, as `Unwinding::put` adds them.
pub fn growing_tables_keep_legality()
    ensures { GrowingTablesKeepLegality }
{}

/// A legal unwinding is a tree of paths of its graph: its first vertex is at the entry and is the only one without a
/// parent; each other one has a parent of a lower number, among whose children it is, and came by an edge that leads from
/// the parent's node to its own. Both sides of each pair are vertices, and the left side is not the root.
pub fn legal_is_a_tree()
    ensures { LegalIsATree }
{}

/// The edges that lead to vertices of a legal unwinding, as `Unwinding::path_to` answers them, are edges of the graph.
pub fn legal_paths_are_of_edges()
    ensures { LegalPathsAreOfEdges }
{}

/// Formulas that are a chain along the edges of the path to an open leaf at an error, as `Unwinding::path_to` answers them, from true
/// before the first edge to false behind the last, make a legal Refine of that leaf, wherever the chain comes from.
pub fn chains_refine()
    ensures { ChainsRefine }
{}

/// A legal and steered unwinding with one unit that keeps its kind's rule is steered.
pub fn one_more_is_steered()
    ensures { OneMoreIsSteered }
{}

/// An unwinding stays steered where further terms come to its table.
pub fn growing_tables_keep_steering()
    ensures { GrowingTablesKeepSteering }
{}
