//! An exploration with enough units does not end for want of them.
#![tactic(auto)]

ghost use Rattle.enough_unit_laws.specs.Laws.{EnoughUnitsAreNotSpent};

/// Where p paths begin at the entry of a graph, with the one that has no edge, an exploration with at least
/// p * p * p + p * p + 2 * p units answers something else than that they are spent.
pub fn enough_units_are_not_spent()
    ensures { EnoughUnitsAreNotSpent }
{}
