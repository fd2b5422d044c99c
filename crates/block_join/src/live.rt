//! Which cells hold the same in a graph and in that of its blocks.
ghost use Rattle.std.specs.Prelude.{◌≡◌};
ghost use Rattle.block_join.specs.Living.{live_at, live_by};

use c_graph::NodeId;
use walk_states::Known;

/// What is known of the cells of a graph at the nodes of its loops, in the graph of its blocks.
#[derive(Drop)]
pub struct LiveCells {
    // so many cells has the first graph
    pub(crate) count: usize,
    // nothing where the second graph has the first one's stores
    pub(crate) known: Option<Known>,
}

impl LiveCells {
    /// Whether a cell is one of the first graph, and read from a node on, or may be. At the nodes of loops such a cell holds in a run of the
    /// second graph what it holds in the run of the first one.
    pub fn is_live(&self, node: NodeId, cell: u32) -> bool
        ensures { result ≡ live_at self.now node.0 cell }
    {
        (cell as usize) < self.count && self.is_read(node, cell)
    }

    fn is_read(&self, node: NodeId, cell: u32) -> bool
        ensures { result ≡ live_by self.now.known node.0 cell }
    {
        match &self.known {
            None => true,
            Some(known) => match known.units.get(cell) {
                None => false,
                Some(unit) => known.live.is_live(node.0, unit),
            },
        }
    }
}
