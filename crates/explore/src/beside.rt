//! The vertices of each node. They are what the pairs of a vertex are made with.

ghost use Rattle.std.specs.Prelude.{◌≡◌, ◌+◌, ◌<◌, ℕ, [], ◌∷◌, ◌++◌, IfOk, OnOk, length, slice_index, slice_set};
ghost use Rattle.explore.specs.Standing.{AreAtNodes, AreBeside, node_at, standing};

use c_graph::NodeId;
use cover_engine::Unwinding;
use lv_base::Memory;
use reach_tree::VertexId;
use std::alloc::Global;

/// For each vertex that was looked at the last one before it at its node, and for each node the last one of them: one more than
/// its number, and 0 where there is none.
#[derive(Drop)]
pub struct Beside {
    before: Vec<u32>,
    last: Vec<u32>,
}

impl Beside {
    /// No vertices yet, at so many nodes.
    pub fn new(alloc: Global, nodes: usize) -> Result<Beside, Memory>
        ensures before { IfOk result (λ b. b.before.items ≡ []) }
        ensures nodes { IfOk result (λ b. length b.last.items ≡ nodes) }
        ensures last { IfOk result (λ b. (x : ℕ) → slice_index b.last.items x ≡ 0) }
    {
        let last = vec![in alloc; 0u32; nodes]?;
        Ok(Beside {
            before: Vec::new(alloc),
            last,
        })
    }

    // Looks at one vertex more, which stands at the node.
    fn note(&mut self, node: NodeId) -> Result<(), Memory>
        requires node { node.0 < length self.old.last.items }
        requires few { length self.old.before.items < 4294967295 }
        ensures before { OnOk result (self.new.before.items ≡ self.old.before.items ++ slice_index self.old.last.items node.0 ∷ []) }
        ensures last { OnOk result (self.new.last.items ≡ slice_set self.old.last.items node.0 (length self.old.before.items + 1)) }
    {
        let at = node.0 as usize;
        let number = self.before.len() as u32;
        self.before.push(self.last[at])?;
        self.last[at] = number + 1;
        Ok(())
    }

    // Looks at the vertices that came since.
    fn follow(&mut self, unwinding: &Unwinding) -> Result<(), Memory>
        requires nodes { AreAtNodes unwinding.now.vertices (length self.old.last.items) }
        requires beside { AreBeside unwinding.now.vertices self.old.before.items self.old.last.items }
        ensures nodes { OnOk result (length self.new.last.items ≡ length self.old.last.items) }
        ensures all { OnOk result (length self.new.before.items ≡ length unwinding.now.vertices) }
        ensures beside { OnOk result (AreBeside unwinding.now.vertices self.new.before.items self.new.last.items) }
    {
        let vertices = unwinding.vertices();
        for number in self.before.len()..unwinding.count() as usize {
            self.note(vertices[number].node)?;
        }
        Ok(())
    }

    /// The vertices of a vertex's node that are numbered below it, the last one first.
    pub fn below_of(
        &mut self,
        alloc: Global,
        unwinding: &Unwinding,
        v: VertexId,
    ) -> Result<Vec<VertexId>, Memory>
        requires there { v.0 < length unwinding.now.vertices }
        requires nodes { AreAtNodes unwinding.now.vertices (length self.old.last.items) }
        requires beside { AreBeside unwinding.now.vertices self.old.before.items self.old.last.items }
        ensures nodes { IfOk result (λ _. length self.new.last.items ≡ length self.old.last.items) }
        ensures beside { IfOk result (λ _. AreBeside unwinding.now.vertices self.new.before.items self.new.last.items) }
        ensures below { IfOk result (λ r. r.items ≡ standing unwinding.now.vertices (node_at unwinding.now.vertices v.0) v.0) }
    {
        self.follow(unwinding)?;
        let mut below = Vec::new(alloc);
        let mut place = self.before[v.0 as usize];
        while place > 0 {
            below.push(VertexId(place - 1))?;
            place = self.before[(place - 1) as usize];
        }
        Ok(below)
    }
}
