//! Whether a graph begins with what another one has.
ghost use Rattle.std.specs.Prelude.{◌≡◌, ◌++◌, IsTrue, List, length};
ghost use Rattle.bv_term.specs.declared.term.Term.{Term};
ghost use Rattle.c_graph.specs.declared.graph.Cell.{Cell};
ghost use Rattle.c_graph.specs.declared.graph.Node.{Node};
ghost use Rattle.block_follow.specs.Following.{Grows};
ghost use Rattle.block_follow.specs.Made as made;

use bv_term::{Term, TermId, Terms};
use c_graph::{Cell, Graph, LoopAt, Node};

/// Whether the nodes, cells and terms of the second graph begin with those of the first, both begin at one node, and their loops are the
/// same.
pub(crate) fn grows(old: &Graph, new: &Graph) -> bool
    ensures tells { IsTrue result → Grows old.now new.now }
    ensures made { result ≡ made.grows old.now new.now }
{
    if old.entry().0 != new.entry().0 {
        return false;
    }
    if !same_loops(old.loops(), new.loops()) {
        return false;
    }
    if !more_nodes(old.nodes(), new.nodes()) {
        return false;
    }
    if !more_cells(old.cells(), new.cells()) {
        return false;
    }
    more_terms(old.terms(), new.terms())
}

fn same_loops(old: &[LoopAt], new: &[LoopAt]) -> bool
    ensures tells { IsTrue result → new.now ≡ old.now }
    ensures made { result ≡ made.same_loops old.now new.now }
{
    if old.len() != new.len() {
        return false;
    }
    for number in 0..old.len() {
        if !same_loop(old[number], new[number]) {
            return false;
        }
    }
    true
}

/// Whether the second nodes begin with the first.
fn more_nodes(old: &[Node], new: &[Node]) -> bool
    ensures tells { IsTrue result → (more : List Node) × (new.now ≡ old.now ++ more) }
    ensures made { result ≡ made.more_nodes old.now new.now }
{
    if old.len() > new.len() {
        return false;
    }
    for number in 0..old.len() {
        if !same_node(old[number], new[number]) {
            return false;
        }
    }
    true
}

/// Whether the second cells begin with the first.
fn more_cells(old: &[Cell], new: &[Cell]) -> bool
    ensures tells { IsTrue result → (more : List Cell) × (new.now ≡ old.now ++ more) }
    ensures made { result ≡ made.more_cells old.now new.now }
{
    if old.len() > new.len() {
        return false;
    }
    for number in 0..old.len() {
        if !same_cell(old[number], new[number]) {
            return false;
        }
    }
    true
}

/// Whether the second terms begin with the first.
fn more_terms(old: &Terms, new: &Terms) -> bool
    ensures tells { IsTrue result → (more : List Term) × (new.now.terms ≡ old.now.terms ++ more) }
    ensures made { result ≡ made.more_terms old.now new.now }
{
    if old.count() > new.count() {
        return false;
    }
    for number in 0..old.count() {
        if !same_term(old.get(TermId(number)), new.get(TermId(number))) {
            return false;
        }
    }
    true
}

fn same_term(old: Term, new: Term) -> bool
    ensures tells { IsTrue result → new ≡ old }
    ensures made { result ≡ made.same_term old new }
{
    old == new
}

fn same_loop(old: LoopAt, new: LoopAt) -> bool
    ensures tells { IsTrue result → new ≡ old }
    ensures made { result ≡ made.same_loop old new }
{
    old == new
}

fn same_node(old: Node, new: Node) -> bool
    ensures tells { IsTrue result → new ≡ old }
    ensures made { result ≡ made.same_node old new }
{
    old == new
}

fn same_cell(old: Cell, new: Cell) -> bool
    ensures tells { IsTrue result → new ≡ old }
    ensures made { result ≡ made.same_cell old new }
{
    old == new
}
