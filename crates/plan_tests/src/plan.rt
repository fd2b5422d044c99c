//! All tests of a plan.
ghost use Rattle.std.specs.Prelude.{◌≡◌, IsTrue};
ghost use Rattle.block_rule.specs.Blocked.{IsPlan};
ghost use Rattle.walk_states.specs.Known.{plan_of};
ghost use Rattle.plan_tests.specs.Made as made;
ghost use Rattle.plan_tests.specs.Nodes.{IsEntry};

use crate::cells::are_units;
use crate::flow::all_flow;
use crate::nodes::{are_listed, are_steps, are_watched};
use crate::reads::are_reads;
use c_graph::{Graph, NodeId};
use walk_states::Known;

/// Whether what the tables say of a graph's nodes, cells and terms is true. It takes no memory, and time in proportion to the edges
/// with their operations and the terms, each with the units of cells at most: an edge with a 64th of the units where nearly the same is
/// read from both its nodes on, and with none where what is read is not known.
pub fn is_plan(graph: &Graph, known: &Known) -> bool
    ensures tells { IsTrue result → IsPlan graph.now (plan_of known.now) }
    ensures made { result ≡ made.is_plan graph.now known.now }
{
    let cells = graph.cells().len() as u32;
    let Ok(count) = u32::try_from(known.units.count()) else {
        return false;
    };
    if !are_units(&known.units, cells, count) || !is_entry(known, graph.entry()) {
        return false;
    }
    if !are_steps(known, graph.edges()) || !are_watched(known, graph) {
        return false;
    }
    if !are_listed(known, graph.loops()) {
        return false;
    }
    are_reads(known, graph.terms()) && all_flow(known, graph.edges(), count)
}

/// Whether the entry is reached, and a cut point.
fn is_entry(known: &Known, entry: NodeId) -> bool
    ensures tells { IsTrue result → IsEntry (plan_of known.now) entry }
    ensures made { result ≡ made.is_entry known.now entry }
{
    known.reached.get(entry.0) && known.cuts.get(entry.0)
}
