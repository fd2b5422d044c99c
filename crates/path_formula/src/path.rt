//! A path's question, step by step.
ghost use Rattle.std.specs.Prelude.{◌≡◌, ◌<◌, ◌≤◌, ◌+◌, ◌++◌, ◌∷◌, [], All, List, length, map, suc, IfErr, IfOk, OnOk};
ghost use Rattle.c_graph.specs.Shape.{widths_of};
ghost use Rattle.bit_blast.specs.Held.{IsOver};
ghost use Rattle.path_query.specs.Facts.{IsQuery};
ghost use Rattle.bit_gates.specs.Cut.{Cut, IsCutOff};
ghost use Rattle.path_formula.specs.Needs.{kept_of, needed_by_all, operations_at};
ghost use Rattle.path_formula.specs.Questions.{Begun, Stepped, needed_along, planned, plans, question_in, question_of, stepped};
ghost use Rattle.path_formula.specs.Paths.{AreThere, bundles_of, IsDraft, IsStep};

use crate::needs::needed_before;
use crate::operations::{add_edge, copied, push_bundle};
use bit_blast::Bits;
use c_graph::{EdgeId, Graph};
use lv_base::Memory;
use path_query::{Bundle, Bundles, Cuts, PathQuery, Starts};
use prop::{BlastFail, Clauses};
use std::alloc::Global;
use std::collections::BTreeSet;

/// What is known of a step before its clauses are made.
#[derive(Drop)]
pub struct Step {
    /// The step's edge.
    pub edge: EdgeId,
    /// Which of the edge's operations give something that is needed.
    pub kept: Vec<bool>,
    /// The cells that are needed behind the edge, rising.
    pub behind: Vec<usize>,
}

/// A path's question as far as it was made.
#[derive(Drop)]
pub struct Draft {
    pub clauses: Clauses,
    pub bits: Bits,
    pub starts: Vec<u32>,
    pub draws: Vec<Bundle>,
    pub cuts: Vec<Bundles>,
}

/// The needed cells, rising.
fn cells_of(alloc: Global, needed: &BTreeSet<usize>) -> Result<Vec<usize>, Memory>
    ensures { IfOk result (λ r. r.items ≡ needed.now.keys) }
{
    let cells: Vec<usize> = needed.iter().copied().collect(alloc)?;
    Ok(cells)
}

/// Goes back over an edge.
fn step_back(
    alloc: Global,
    graph: &Graph,
    edge: EdgeId,
    needed: &mut BTreeSet<usize>,
) -> Result<Step, Memory>
    requires there { AreThere graph.now.terms.cells needed.old.keys }
    ensures step { IfOk result (IsStep graph.now) }
    ensures there { OnOk result (AreThere graph.now.terms.cells needed.new.keys) }
    ensures planned { IfOk result (λ s. planned s
        ≡ record { edge = edge; kept = kept_of graph.now.terms needed.old.keys (operations_at graph.now.edges edge.0); behind = needed.old.keys }) }
    ensures needed { OnOk result (needed.new.keys ≡ needed_by_all graph.now.terms needed.old.keys (operations_at graph.now.edges edge.0)) }
{
    let behind = cells_of(alloc, needed)?;
    let kept = needed_before(alloc, graph, edge, needed)?;
    Ok(Step { edge, kept, behind })
}

/// Goes back over a path: its steps, the last first, and what is needed before it.
fn steps_of(
    alloc: Global,
    graph: &Graph,
    path: &[EdgeId],
    needed: &mut BTreeSet<usize>,
) -> Result<Vec<Step>, Memory>
    requires none { needed.old.keys ≡ [] }
    ensures many { IfOk result (λ r. length r.items ≡ length path.now) }
    ensures steps { IfOk result (λ r. All (IsStep graph.now) r.items) }
    ensures there { OnOk result (AreThere graph.now.terms.cells needed.new.keys) }
    ensures plans { IfOk result (λ r. map planned r.items ≡ plans graph.now path.now) }
    ensures needed { OnOk result (needed.new.keys ≡ needed_along graph.now path.now) }
{
    let mut steps = Vec::new(alloc);
    let mut left = path.len();
    while left > 0 {
        left -= 1;
        let step = step_back(alloc, graph, path[left], needed)?;
        steps.push(step)?;
    }
    Ok(steps)
}

/// The literals of cells.
fn cut_of(alloc: Global, bits: &Bits, cells: &[usize]) -> Result<Bundles, BlastFail>
    requires few { length bits.now.cells ≤ 4294967295 }
    requires there { All (λ c. c < length bits.now.cells) cells.now }
    ensures cut { IfOk result (λ r. r ≡ bundles_of bits.now.cells cells.now) }
    ensures memory { IfErr result (λ e. e ≡ BlastFail.Memory) }
{
    let mut bundles = Vec::new(alloc);
    for cell in cells {
        let number = *cell as u32;
        let lits = copied(alloc, bits.cell(number))?;
        push_bundle(&mut bundles, number, lits)?;
    }
    Ok(Bundles::new(bundles))
}

/// A step's first clause, appended.
fn push_start(starts: &mut Vec<u32>, start: u32) -> Result<(), BlastFail>
    ensures pushed { OnOk result (starts.new.items ≡ starts.old.items ++ start ∷ []) }
    ensures memory { IfErr result (λ e. e ≡ BlastFail.Memory) }
{
    match starts.push(start) {
        Ok(()) => Ok(()),
        Err(_) => Err(BlastFail::Memory),
    }
}

/// A cut, appended.
fn push_cut(cuts: &mut Vec<Bundles>, cut: Bundles) -> Result<(), BlastFail>
    ensures pushed { OnOk result (cuts.new.items ≡ cuts.old.items ++ cut ∷ []) }
    ensures memory { IfErr result (λ e. e ≡ BlastFail.Memory) }
{
    match cuts.push(cut) {
        Ok(()) => Ok(()),
        Err(_) => Err(BlastFail::Memory),
    }
}

/// A question without a step, over the cells that are needed before the path.
fn begin(alloc: Global, graph: &Graph, needed: &BTreeSet<usize>) -> Result<Draft, BlastFail>
    requires { AreThere graph.now.terms.cells needed.now.keys }
    ensures draft { IfOk result (IsDraft graph.now.terms) }
    ensures begun { IfOk result (Begun graph.now needed.now.keys) }
    ensures few { OnOk result (length graph.now.terms.cells ≤ 4294967295) }
    ensures memory { IfErr result (λ e. e ≡ BlastFail.Memory) }
{
    let cells = match cells_of(alloc, needed) {
        Ok(cells) => cells,
        Err(_) => return Err(BlastFail::Memory),
    };
    let mut clauses = Clauses::new(alloc);
    let bits = Bits::new(alloc, &mut clauses, graph.terms().cells())?;
    let _next = bits.next();
    let cut = cut_of(alloc, &bits, &cells)?;
    let mut cuts = Vec::new(alloc);
    push_cut(&mut cuts, cut)?;
    Ok(Draft {
        clauses,
        bits,
        starts: Vec::new(alloc),
        draws: Vec::new(alloc),
        cuts,
    })
}

/// Adds a step.
fn take_step(alloc: Global, graph: &Graph, step: &Step, draft: &mut Draft) -> Result<(), BlastFail>
    requires step { IsStep graph.now step.now }
    requires draft { IsDraft graph.now.terms draft.old }
    requires few { length graph.now.terms.cells ≤ 4294967295 }
    ensures draft { OnOk result (IsDraft graph.now.terms draft.new) }
    ensures stepped { OnOk result (Stepped graph.now (planned step.now) draft.old draft.new) }
    ensures cut { IfErr result (λ e. Cut e draft.old.clauses (stepped graph.now (planned step.now) draft.old.bits).clauses draft.new.clauses) }
{
    push_start(&mut draft.starts, draft.clauses.len())?;
    draft.bits.renew(&mut draft.clauses)?;
    add_edge(
        alloc,
        graph,
        step.edge,
        &step.kept,
        &mut draft.clauses,
        &mut draft.bits,
        &mut draft.draws,
    )?;
    let cut = cut_of(alloc, &draft.bits, &step.behind)?;
    push_cut(&mut draft.cuts, cut)
}

/// The clauses of a path, whose satisfying assignments are the path's runs. It fails where the literals would pass the
/// limit, which it tells with the literals up to the first clause that passes it, or for want of memory or variables. It takes time in proportion to the operations of the path and to the cells
/// that are needed at its cuts, times a logarithm.
pub fn path_clauses(alloc: Global, graph: &Graph, path: &[EdgeId]) -> Result<PathQuery, BlastFail>
    ensures query { IfOk result (IsQuery (widths_of graph.now.cells) (length path.now)) }
    ensures question { IfOk result (λ q. q ≡ question_of graph.now path.now) }
    ensures cut { IfErr result (IsCutOff (question_of graph.now path.now).clauses) }
{
    let mut needed = BTreeSet::new(alloc);
    let mut steps = match steps_of(alloc, graph, path, &mut needed) {
        Ok(steps) => steps,
        Err(_) => return Err(BlastFail::Memory),
    };
    let mut draft = begin(alloc, graph, &needed)?;
    while let Some(step) = steps.pop() {
        match take_step(alloc, graph, &step, &mut draft) {
            Ok(()) => {}
            Err(end) => {
                let _literals = draft.clauses.literals();
                return Err(end);
            }
        }
    }
    Ok(finished(graph, draft))
}

/// The question that was made.
fn finished(graph: &Graph, draft: Draft) -> PathQuery
    requires { IsDraft graph.now.terms draft }
    ensures query { IsQuery (widths_of graph.now.cells) (length draft.starts.items) result }
    ensures question { result ≡ question_in draft }
{
    let _terms = graph.terms();
    let Draft {
        clauses,
        bits,
        starts,
        draws,
        cuts,
    } = draft;
    drop(bits);
    PathQuery {
        clauses,
        starts: Starts::new(starts),
        draws: Bundles::new(draws),
        cuts: Cuts::new(cuts),
    }
}
