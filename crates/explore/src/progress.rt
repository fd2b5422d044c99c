//! What a gate hears of an exploration on its way.

ghost use Rattle.std.specs.Prelude.{◌≡◌, ◌≤◌, length};
ghost use Rattle.explore.specs.Open.{open_below};

use c_graph::Graph;
use cover_engine::Unwinding;
use lv_outside::Gate;
use reach_tree::VertexId;
use resolution_log::Log;

/// When the gate was told last, in its seconds, and how many clauses the refinements learned so far.
#[derive(Drop)]
pub struct Heard {
    seconds: u64,
    learned: u64,
}

impl Heard {
    /// Nothing was told or learned.
    pub fn new() -> Heard
        ensures { result ≡ record { seconds = 0; learned = 0 } }
    {
        Heard {
            seconds: 0,
            learned: 0,
        }
    }

    /// A refinement learned the clauses of this log.
    pub fn learn(&mut self, log: &Log)
        ensures { (self.new.seconds ≡ self.old.seconds) × (self.old.learned ≤ self.new.learned) }
    {
        self.learned = self.learned.saturating_add(log.chains().len() as u64);
    }

    /// Tells the gate how far the unwinding has come, where its seconds have gone on.
    pub fn tell<G: Gate>(&mut self, graph: &Graph, unwinding: &Unwinding, gate: &G)
        ensures { (self.new.learned ≡ self.old.learned) × (self.old.seconds ≤ self.new.seconds) }
    {
        let seconds = gate.seconds();
        if seconds > self.seconds {
            self.seconds = seconds;
            let units = unwinding.journal().len() as u64;
            gate.working(units, open_leaves(graph, unwinding), self.learned);
        }
    }
}

// How many leaves are open.
fn open_leaves(graph: &Graph, unwinding: &Unwinding) -> u32
    ensures { result ≡ open_below graph.now unwinding.now (length unwinding.now.vertices) }
{
    let mut open = 0;
    for number in 0..unwinding.count() {
        if unwinding.open_leaf(graph, VertexId(number)) {
            open += 1;
        }
    }
    open
}
