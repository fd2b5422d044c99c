//! A graph of blocks is made, and taken only where it has what the rule says.
ghost use Rattle.std.specs.Prelude.{◌≡◌, IfOk, IsTrue};
ghost use Rattle.program_graphs.specs.Returning.{ComesBack};
ghost use Rattle.join_laws.specs.Keeping.{KeepsErrors};
ghost use Rattle.join_laws.specs.Visits.{KeepsMarked, KeepsVisits, MarksNeeded};
ghost use Rattle.walk_states.specs.Known.{plan_of};
ghost use Rattle.block_follow.specs.Made.{lists_of};
ghost use Rattle.block_join.specs.Joined.{BlocksReturn, Stays};
ghost use Rattle.block_join.specs.Living.{live_at, MarksWithin};
ghost use Rattle.block_join.specs.Made as made;

use crate::chains::with_chains;
use crate::live::LiveCells;
use block_emission::{Plan, blocked, members_of};
use block_follow::follows_rule;
use block_plan::{Blocks, Reads, Units, blocks_of, live_units};
use c_graph::{Graph, NodeId};
use lv_base::Memory;
use std::alloc::Global;
use walk_states::Known;

/// The graph in which everything between two cut points is one edge, with a branch for its failed checks and one for each way out;
/// and then each node with one way in and one way out, that is neither the entry nor a loop's, has given its edge away. Nodes keep
/// their numbers, also those without edges that are left over; new ones stand behind them. Loops keep their nodes. Where the graph of blocks is not what the
/// rule says, the graph's own chains of edges are joined, and where these make no graph, it stays as it is.
pub fn join_blocks(alloc: Global, graph: Graph) -> Result<Graph, Memory>
    ensures stays { IfOk result (λ h. Stays graph h) }
    ensures keeps { IfOk result (λ h. KeepsErrors graph h) }
    ensures visits { IfOk result (λ h. KeepsVisits graph h) }
    ensures back { IfOk result (λ h. ComesBack graph h) }
    ensures one { IfOk result (λ h. h ≡ made.joined graph) }
{
    let Joined { graph, live: _ } = join_blocks_live(alloc, graph)?;
    Ok(graph)
}

/// A graph of blocks, and what is known of the cells of the graph that it was made of.
#[derive(Drop)]
pub struct Joined {
    /// The graph of blocks.
    pub graph: Graph,
    /// The cells that hold the same in both at the nodes of loops.
    pub live: LiveCells,
}

/// The graph of [`join_blocks`], with the cells that hold at the nodes of loops what they hold in the first graph.
pub fn join_blocks_live(alloc: Global, graph: Graph) -> Result<Joined, Memory>
    ensures stays { IfOk result (λ j. Stays graph j.graph) }
    ensures keeps { IfOk result (λ j. KeepsErrors graph j.graph) }
    ensures visits { IfOk result (λ j. KeepsVisits graph j.graph) }
    ensures marked { IfOk result (λ j. KeepsMarked (live_at j.live) graph j.graph) }
    ensures within { IfOk result (λ j. MarksWithin (live_at j.live) graph.cells) }
    ensures needed { IfOk result (λ j. MarksNeeded (live_at j.live) graph) }
    ensures back { IfOk result (λ j. ComesBack graph j.graph) }
    ensures one { IfOk result (λ j. j.graph ≡ made.joined graph) }
{
    let count = graph.cells().len();
    let made = attempted(alloc, &graph)?;
    let Attempt {
        graph: blocked,
        known,
        members,
    } = made;
    let are_same = have_same_runs(alloc, &graph, &blocked, &known, &members)?;
    if are_same {
        let graph = with_chains(alloc, blocked)?;
        let known = Some(known);
        Ok(Joined {
            graph,
            live: LiveCells { count, known },
        })
    } else {
        let graph = with_chains(alloc, graph)?;
        let known = None;
        Ok(Joined {
            graph,
            live: LiveCells { count, known },
        })
    }
}

/// Whether the second graph has the blocks of the first, by what is known of that and the places of each block.
fn have_same_runs(
    alloc: Global,
    graph: &Graph,
    blocked: &Graph,
    known: &Known,
    members: &[Vec<NodeId>],
) -> Result<bool, Memory>
    ensures stays { IfOk result (λ b. IsTrue b → Stays graph.now blocked.now) }
    ensures keeps { IfOk result (λ b. IsTrue b → KeepsErrors graph.now blocked.now) }
    ensures visits { IfOk result (λ b. IsTrue b → KeepsVisits graph.now blocked.now) }
    ensures marked { IfOk result (λ b. IsTrue b → KeepsMarked (plan_of known.now).live graph.now blocked.now) }
    ensures needed { IfOk result (λ b. IsTrue b → MarksNeeded (plan_of known.now).live graph.now) }
    ensures back { IfOk result (λ b. IsTrue b → BlocksReturn graph.now blocked.now) }
    ensures made { IfOk result (λ b. b ≡ made.tested graph.now blocked.now known.now (lists_of members.now)) }
{
    let _entry = graph.entry();
    let _start = blocked.entry();
    follows_rule(alloc, graph, blocked, known, members)
}

/// A graph that may be one of blocks, and what it was made from.
#[derive(Drop)]
struct Attempt {
    graph: Graph,
    known: Known,
    members: Vec<Vec<NodeId>>,
}

/// The graph of the blocks before chains are joined.
fn attempted(alloc: Global, graph: &Graph) -> Result<Attempt, Memory>
    ensures made { IfOk result (λ a. a.graph ≡ made.attempted graph.now 4194304) }
    ensures test { IfOk result (λ a. made.tested graph.now a.graph a.known (lists_of a.members.items) ≡ made.has_blocks graph.now 4194304) }
{
    let blocks = blocks_of(alloc, graph)?;
    let units = Units::new(alloc, graph.cells())?;
    let reads = Reads::new(alloc, graph.terms(), &units)?;
    let live = live_units(alloc, graph, &blocks, &units, &reads)?;
    let members = members_of(alloc, graph, &blocks)?;
    let plan = Plan {
        graph,
        blocks: &blocks,
        units: &units,
        live: &live,
    };
    let blocked = blocked(alloc, plan, &members)?;
    let Blocks {
        reached,
        alive,
        cuts,
        ..
    } = blocks;
    let known = Known {
        reached,
        alive,
        cuts,
        units,
        live,
        reads,
    };
    Ok(Attempt {
        graph: blocked,
        known,
        members,
    })
}
