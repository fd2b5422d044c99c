ghost use Rattle.std.specs.Prelude.{◌<◌, ◌≤◌, ◌≡◌, None, IfErr, IfOk, OnOk, false, length, slice_get, true};
ghost use Rattle.c_graph.specs.Shape.{widths_of};
ghost use Rattle.reach_tree.specs.Trees.{vertex_at};
ghost use Rattle.cover_engine.specs.Unwindings.{is_open_leaf};
ghost use Rattle.cover_engine.specs.Units.{Legal};
ghost use Rattle.cover_engine.specs.Steering.{IsHighestOpen, Steered};
ghost use Rattle.unwinding_laws.specs.Steered.{last_refined};
ghost use Rattle.refine.specs.Refinements.{IsErrorLeaf};
ghost use Rattle.explore.specs.Standing.{node_at, standing};
ghost use Rattle.explore.specs.Settling.{HasTurn, IsTried, NoneBelow};
ghost use Rattle.explore.specs.Ends.{Follows, IsEnd, IsExplored, IsOverCells, IsReady, is_plain, is_plain_at, unwinding_of};

use crate::beside::Beside;
use crate::progress::Heard;
use c_graph::{Graph, Node};
use cdcl_solver::QueryFail;
use cover_engine::Unwinding;
use lv_base::Memory;
use lv_outside::{FreeGate, Gate};
use reach_tree::VertexId;
use refine::{Refined, Settled, Values, Witnesses, refine_leaf, settle_with};
use resolution_log::Log;
use std::alloc::Global;

/// How an exploration ended, with its unwinding.
#[derive(Drop)]
pub enum Explored {
    /// No leaf is open.
    Complete(Unwinding),
    /// These input values drive the path of the highest open leaf to its error.
    Feasible(Unwinding, Values),
    /// There are as many units as were allowed.
    Units(Unwinding),
    /// A question's budget of learned clauses is spent, by this log.
    Learned(Unwinding, Log),
    /// A question's clauses would have this many literals, more than are allowed.
    Over(Unwinding, u64),
    /// A question's refutation would have more steps than are allowed; this log has the first of them.
    OverLog(Unwinding, Log),
}

/// Why no further unit is made.
#[derive(Drop)]
pub enum End {
    Complete,
    Feasible(Values),
    Units,
    Learned(Log),
    Over(u64),
    OverLog(Log),
    Memory,
}

impl From<Memory> for End {
    ghost use Rattle.std.specs.Prelude.{◌≡◌};
    ghost use Rattle.explore.specs.declared.strategy.End.TheVariants.{Memory as NoRoom};

    ghost from_gives = { λ _ e. e ≡ NoRoom };

    fn from(_: Memory) -> End {
        End::Memory
    }
}

impl From<QueryFail> for End {
    ghost use Rattle.std.specs.Prelude.{◌≡◌};
    ghost use Rattle.explore.specs.Ends.{end_of};

    ghost from_gives = { λ fail e. e ≡ end_of fail };

    fn from(fail: QueryFail) -> End {
        match fail {
            QueryFail::Over(count) => End::Over(count),
            QueryFail::OverLog(log) => End::OverLog(log),
            QueryFail::Memory => End::Memory,
        }
    }
}

/// What an exploration may spend.
#[derive(Clone, Copy)]
pub struct Budget {
    pub units: u64,
    pub learn: u64,
}

/// An exploration on its way: the unwinding, and what helps to settle its pairs.
#[derive(Drop)]
pub struct Work {
    unwinding: Unwinding,
    witnesses: Witnesses,
    beside: Beside,
}

// The open leaf of highest number, unless the unwinding is complete or its units are spent.
fn next_leaf(graph: &Graph, unwinding: &mut Unwinding, budget: Budget) -> Result<VertexId, End>
    ensures leaf { IfOk result (λ v. (v.0 < length unwinding.new.vertices) × (is_open_leaf graph.now unwinding.new v ≡ true)) }
    ensures highest { IfOk result (IsHighestOpen graph.now unwinding.new) }
    ensures more { IfOk result (λ _. length unwinding.new.journal < budget.units) }
    ensures ended { IfErr result (IsEnd graph.now budget.units budget.learn unwinding.new) }
    ensures unchanged { unwinding.new ≡ unwinding.old }
{
    match unwinding.highest_open(graph) {
        None => Err(End::Complete),
        Some(leaf) => {
            if unwinding.journal().len() as u64 >= budget.units {
                Err(End::Units)
            } else {
                Ok(leaf)
            }
        }
    }
}

// Whether edges lead on from the vertex's node.
fn is_plain(graph: &Graph, unwinding: &Unwinding, v: VertexId) -> bool
    requires { v.0 < length unwinding.now.vertices }
    ensures { result ≡ is_plain_at graph.now unwinding.now v }
{
    let node = unwinding.vertices()[v.0 as usize].node.0 as usize;
    let nodes = graph.nodes();
    if node >= nodes.len() {
        return false;
    }
    match nodes[node] {
        Node::Plain => true,
        Node::Error(_, _) | Node::End | Node::Call(_, _) => false,
    }
}

// The vertices of a vertex's node that are numbered below it, the last one first.
fn below_of(
    alloc: Global,
    graph: &Graph,
    work: &mut Work,
    v: VertexId,
) -> Result<Vec<VertexId>, Memory>
    requires there { v.0 < length work.old.unwinding.vertices }
    requires legal { Legal graph.now work.old.unwinding }
    requires follows { Follows graph.now work.old.unwinding.vertices work.old.beside }
    ensures unwinding { work.new.unwinding ≡ work.old.unwinding }
    ensures witnesses { work.new.witnesses ≡ work.old.witnesses }
    ensures follows { IfOk result (λ _. Follows graph.now work.new.unwinding.vertices work.new.beside) }
    ensures below { IfOk result (λ r. r.items ≡ standing work.old.unwinding.vertices (node_at work.old.unwinding.vertices v.0) v.0) }
{
    let _entry = graph.entry();
    work.beside.below_of(alloc, &work.unwinding, v)
}

// Settles the pair where it may be settled. It answers whether it covers.
fn try_pair<G: Gate>(
    alloc: Global,
    graph: &Graph,
    work: &mut Work,
    v: VertexId,
    w: VertexId,
    budget: Budget,
    gate: &G,
    heard: &mut Heard,
) -> Result<bool, End>
    requires learn { 0 < budget.learn }
    requires ready { IsReady graph.now budget.units work.old.unwinding work.old.witnesses }
    requires steered { Steered graph.now work.old.unwinding }
    requires there { v.0 < length work.old.unwinding.vertices }
    requires below { w.0 < v.0 }
    requires turn { HasTurn graph.now work.old.unwinding v }
    requires lowest { NoneBelow work.old.unwinding v w.0 }
    ensures ready { IsReady graph.now budget.units work.new.unwinding work.new.witnesses }
    ensures steered { Steered graph.now work.new.unwinding }
    ensures beside { work.new.beside ≡ work.old.beside }
    ensures ended { IfErr result (IsEnd graph.now budget.units budget.learn work.new.unwinding) }
    ensures grows { length work.old.unwinding.journal ≤ length work.new.unwinding.journal }
    ensures covers { IfOk result (λ b. b ≡ true → length work.old.unwinding.journal < length work.new.unwinding.journal) }
    ensures tried { IfOk result (IsTried work.old.unwinding work.new.unwinding v w) }
{
    if !work.unwinding.may_settle(v, w) {
        return Ok(false);
    }
    let _ = next_leaf(graph, &mut work.unwinding, budget)?;
    heard.tell(graph, &work.unwinding, gate);
    match settle_with(
        alloc,
        graph,
        &mut work.unwinding,
        v,
        w,
        &mut work.witnesses,
        budget.learn,
    )? {
        Settled::Covered => Ok(true),
        Settled::Apart => Ok(false),
        Settled::Spent(log) => Err(End::Learned(log)),
    }
}

// Settles the pairs of a vertex with those of its node that are numbered lower, rising, until one covers it. It answers
// whether one does.
fn settle_all<G: Gate>(
    alloc: Global,
    graph: &Graph,
    work: &mut Work,
    v: VertexId,
    budget: Budget,
    gate: &G,
    heard: &mut Heard,
) -> Result<bool, End>
    requires learn { 0 < budget.learn }
    requires ready { IsReady graph.now budget.units work.old.unwinding work.old.witnesses }
    requires steered { Steered graph.now work.old.unwinding }
    requires follows { Follows graph.now work.old.unwinding.vertices work.old.beside }
    requires there { v.0 < length work.old.unwinding.vertices }
    requires turn { HasTurn graph.now work.old.unwinding v }
    ensures ready { IsReady graph.now budget.units work.new.unwinding work.new.witnesses }
    ensures steered { Steered graph.now work.new.unwinding }
    ensures follows { IfOk result (λ _. Follows graph.now work.new.unwinding.vertices work.new.beside) }
    ensures ended { IfErr result (IsEnd graph.now budget.units budget.learn work.new.unwinding) }
    ensures grows { length work.old.unwinding.journal ≤ length work.new.unwinding.journal }
    ensures covers { IfOk result (λ b. b ≡ true → length work.old.unwinding.journal < length work.new.unwinding.journal) }
    ensures vertices { IfOk result (λ _. work.new.unwinding.vertices ≡ work.old.unwinding.vertices) }
    ensures refined { IfOk result (λ _. last_refined None work.new.unwinding.journal ≡ last_refined None work.old.unwinding.journal) }
    ensures highest { IfOk result (λ b. b ≡ false → IsHighestOpen graph.now work.old.unwinding v → IsHighestOpen graph.now work.new.unwinding v) }
    ensures none { IfOk result (λ b. b ≡ false → NoneBelow work.new.unwinding v v.0) }
{
    let mut below = below_of(alloc, graph, work, v)?;
    while let Some(w) = below.pop() {
        if try_pair(alloc, graph, work, v, w, budget, gate, heard)? {
            return Ok(true);
        }
    }
    Ok(false)
}

// Refines a leaf at an error, and then settles the pairs of the vertices of its path, from the root down.
fn refine_at<G: Gate>(
    alloc: Global,
    graph: &Graph,
    work: &mut Work,
    leaf: VertexId,
    budget: Budget,
    gate: &G,
    heard: &mut Heard,
) -> Result<(), End>
    requires leaf { leaf.0 < length work.old.unwinding.vertices }
    requires highest { IsHighestOpen graph.now work.old.unwinding leaf }
    requires error { IsErrorLeaf graph.now work.old.unwinding leaf }
    requires ready { IsReady graph.now budget.units work.old.unwinding work.old.witnesses }
    requires steered { Steered graph.now work.old.unwinding }
    requires follows { Follows graph.now work.old.unwinding.vertices work.old.beside }
    requires learn { 0 < budget.learn }
    requires more { length work.old.unwinding.journal < budget.units }
    ensures ready { IsReady graph.now budget.units work.new.unwinding work.new.witnesses }
    ensures steered { Steered graph.now work.new.unwinding }
    ensures follows { OnOk result (Follows graph.now work.new.unwinding.vertices work.new.beside) }
    ensures ended { IfErr result (IsEnd graph.now budget.units budget.learn work.new.unwinding) }
    ensures grows { OnOk result (length work.old.unwinding.journal < length work.new.unwinding.journal) }
{
    match refine_leaf(alloc, graph, &mut work.unwinding, leaf, budget.learn)? {
        Refined::Strengthened(log) => heard.learn(&log),
        Refined::Feasible(values) => return Err(End::Feasible(values)),
        Refined::Spent(log) => return Err(End::Learned(log)),
    }
    let path = work.unwinding.path_to(alloc, leaf)?;
    for vertex in path.vertices.as_slice() {
        let _ = settle_all(alloc, graph, work, *vertex, budget, gate, heard)?;
    }
    Ok(())
}

// Expands the highest open leaf, none of whose pairs is left to settle.
fn expand(
    alloc: Global,
    graph: &Graph,
    work: &mut Work,
    leaf: VertexId,
    budget: Budget,
) -> Result<(), End>
    requires ready { IsReady graph.now budget.units work.old.unwinding work.old.witnesses }
    requires steered { Steered graph.now work.old.unwinding }
    requires follows { Follows graph.now work.old.unwinding.vertices work.old.beside }
    requires there { leaf.0 < length work.old.unwinding.vertices }
    requires highest { IsHighestOpen graph.now work.old.unwinding leaf }
    requires plain { is_plain_at graph.now work.old.unwinding leaf ≡ true }
    requires none { NoneBelow work.old.unwinding leaf leaf.0 }
    ensures ready { IsReady graph.now budget.units work.new.unwinding work.new.witnesses }
    ensures steered { Steered graph.now work.new.unwinding }
    ensures follows { OnOk result (Follows graph.now work.new.unwinding.vertices work.new.beside) }
    ensures ended { IfErr result (IsEnd graph.now budget.units budget.learn work.new.unwinding) }
    ensures grows { OnOk result (length work.old.unwinding.journal < length work.new.unwinding.journal) }
{
    let _ = next_leaf(graph, &mut work.unwinding, budget)?;
    work.unwinding.expanded(alloc, graph, leaf)?;
    Ok(())
}

// One turn: the highest open leaf is refined at an error, and else covered or expanded.
fn turn<G: Gate>(
    alloc: Global,
    graph: &Graph,
    work: &mut Work,
    budget: Budget,
    gate: &G,
    heard: &mut Heard,
) -> Result<(), End>
    requires ready { IsReady graph.now budget.units work.old.unwinding work.old.witnesses }
    requires steered { Steered graph.now work.old.unwinding }
    requires follows { Follows graph.now work.old.unwinding.vertices work.old.beside }
    requires learn { 0 < budget.learn }
    ensures ready { IsReady graph.now budget.units work.new.unwinding work.new.witnesses }
    ensures steered { Steered graph.now work.new.unwinding }
    ensures follows { OnOk result (Follows graph.now work.new.unwinding.vertices work.new.beside) }
    ensures ended { IfErr result (IsEnd graph.now budget.units budget.learn work.new.unwinding) }
    ensures grows { OnOk result (length work.old.unwinding.journal < length work.new.unwinding.journal) }
{
    let _entry = graph.entry();
    let leaf = next_leaf(graph, &mut work.unwinding, budget)?;
    heard.tell(graph, &work.unwinding, gate);
    if !is_plain(graph, &work.unwinding, leaf) {
        return refine_at(alloc, graph, work, leaf, budget, gate, heard);
    }
    if settle_all(alloc, graph, work, leaf, budget, gate, heard)? {
        return Ok(());
    }
    expand(alloc, graph, work, leaf, budget)
}

// Makes turns until there is an end. Each makes a unit, so there are no more turns than units.
fn run<G: Gate>(alloc: Global, graph: &Graph, work: &mut Work, budget: Budget, gate: &G) -> End
    requires ready { IsReady graph.now budget.units work.old.unwinding work.old.witnesses }
    requires steered { Steered graph.now work.old.unwinding }
    requires follows { Follows graph.now work.old.unwinding.vertices work.old.beside }
    requires learn { 0 < budget.learn }
    ensures ready { IsReady graph.now budget.units work.new.unwinding work.new.witnesses }
    ensures steered { Steered graph.now work.new.unwinding }
    ensures ended { IsEnd graph.now budget.units budget.learn work.new.unwinding result }
{
    let mut heard = Heard::new();
    for _made in 0..budget.units {
        if let Err(end) = turn(alloc, graph, work, budget, gate, &mut heard) {
            return end;
        }
    }
    match next_leaf(graph, &mut work.unwinding, budget) {
        Ok(_) => End::Units,
        Err(end) => end,
    }
}

/// Explores a graph from its entry, by at most so many units, each question to the solver learning at most so many clauses. Each unit is
/// legal where it stands, and keeps the rule of its kind: the highest open leaf is refined at an error, and expanded else where it may be
/// settled with no lower vertex; a cover unit settles the highest open leaf, or a vertex of the path that was refined last, with the
/// lowest vertex with which it may be settled. Values that are answered drive a run of the graph to an error node; a log or a count is of a question that
/// the unwinding has.
pub fn explore(alloc: Global, graph: &Graph, units: u64, learn: u64) -> Result<Explored, Memory>
    requires units { 0 < units }
    requires learn { 0 < learn }
    ensures cells { IfOk result (IsOverCells graph.now) }
    ensures legal { IfOk result (λ e. Legal graph.now (unwinding_of e)) }
    ensures steered { IfOk result (λ e. Steered graph.now (unwinding_of e)) }
    ensures explored { IfOk result (IsExplored graph.now units learn) }
{
    explore_watched(alloc, graph, units, learn, &FreeGate)
}

/// Explores as `explore` does, and tells the gate between units how far it has come, where the gate's seconds have gone on since they
/// were looked at last. No answer depends on the gate.
pub fn explore_watched<G: Gate>(
    alloc: Global,
    graph: &Graph,
    units: u64,
    learn: u64,
    gate: &G,
) -> Result<Explored, Memory>
    requires units { 0 < units }
    requires learn { 0 < learn }
    ensures cells { IfOk result (IsOverCells graph.now) }
    ensures legal { IfOk result (λ e. Legal graph.now (unwinding_of e)) }
    ensures steered { IfOk result (λ e. Steered graph.now (unwinding_of e)) }
    ensures explored { IfOk result (IsExplored graph.now units learn) }
{
    let mut work = Work {
        unwinding: Unwinding::new(alloc, graph)?,
        witnesses: Witnesses::new(alloc),
        beside: Beside::new(alloc, graph.nodes().len())?,
    };
    let end = run(alloc, graph, &mut work, Budget { units, learn }, gate);
    let Work { unwinding, .. } = work;
    match end {
        End::Complete => Ok(Explored::Complete(unwinding)),
        End::Feasible(values) => Ok(Explored::Feasible(unwinding, values)),
        End::Units => Ok(Explored::Units(unwinding)),
        End::Learned(log) => Ok(Explored::Learned(unwinding, log)),
        End::Over(count) => Ok(Explored::Over(unwinding, count)),
        End::OverLog(log) => Ok(Explored::OverLog(unwinding, log)),
        End::Memory => Err(Memory),
    }
}
