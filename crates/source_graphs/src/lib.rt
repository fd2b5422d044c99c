//! From a source to the graph of its blocks, for programs that measure or try what is done with such graphs.
#![tactic(auto)]

ghost use Rattle.std.specs.Prelude.{◌≡◌, IfErr, IfOk};
ghost use Rattle.c_typed.specs.Parts.{tree_of};
ghost use Rattle.program_graphs.specs.Standing.{ErrorsFollow, StandsFor};
ghost use Rattle.program_graphs.specs.Returning.{ErrorsComeBack};
ghost use Rattle.cfg_build.specs.Graphs.{program_setting};
ghost use Rattle.program_visits.specs.Visiting.{VisitsFollow};
ghost use Rattle.block_join.specs.Living.{live_at};
ghost use Rattle.witness_visit_laws.specs.Visited.{CellsStand, VisitsMarked};
ghost use Rattle.source_graphs.specs.Refusals.{IsTooBig, IsWithinLimits, LimitsAreExact, LimitsAreOfTrees, LimitsAreOne};
ghost use Rattle.source_graphs.specs.Visits.{VisitsInBlocks};
ghost use Rattle.source_graphs.specs.Whole.{BlocksAreOfTrees, GraphsAreOfTrees, joined_of, whole_of};

use block_join::{Joined, join_blocks_live};
use c_graph::Graph;
use c_rules::Examined;
use call_inline::inline;
use cfg_build::build;
use code_fit_laws::typed_code_passes;
use edge_count_laws::built_is_sparse;
use elaboration_laws::sources_read;
use function_graph_laws::following_makes_flows;
use lv_base::{Memory, Model, SourceFail};
use run_replay::orders_agree;
use source_graph_laws::joined_graphs_stand;
use source_visit_laws::inlined_visits_follow;
use std::alloc::Global;
use witness_visit_laws::inlined_cells_stand;

/// The typed tree of a source that breaks no rule.
pub fn examined(alloc: Global, source: &[u8], model: Model) -> Result<Examined, SourceFail> {
    sources_read();
    let tokens = c_tokens::tokens_of(alloc, source)?;
    let unit = c_parser::parse(alloc, &tokens)?;
    source_checks::accepted(alloc, &unit, model)
}

/// The graph of a program with each call a copy, a node for each instruction, which is one function of its typed tree: each run of the
/// program that ends in an error has a run of the graph to that error, and each run of the graph to an error is one of the program. Each visit of a listed loop has a run to the
/// loop's node, in a store that shows what the objects hold, in cells that lie as the program's layout says. Fails with `Over` for limit 4
/// or 5.
pub fn whole_graph(alloc: Global, examined: &Examined) -> Result<Graph, SourceFail>
    ensures one { IfOk result (λ g. g ≡ whole_of examined.now.typed) }
    ensures follow { IfOk result (ErrorsFollow (tree_of examined.now.typed)) }
    ensures back { IfOk result (ErrorsComeBack (tree_of examined.now.typed)) }
    ensures visits { IfOk result (VisitsFollow (program_setting examined.now.typed examined.now.order) (tree_of examined.now.typed)) }
    ensures cells { IfOk result (λ g. CellsStand (program_setting examined.now.typed examined.now.order) g.cells) }
    ensures within { IfOk result (λ _. IsWithinLimits examined.now.typed) }
    ensures limits { IfErr result (IsTooBig examined.now.typed) }
{
    orders_agree();
    typed_code_passes();
    following_makes_flows();
    built_is_sparse();
    inlined_visits_follow();
    inlined_cells_stand();
    let typed = examined.typed();
    let _model = typed.model();
    let _order = examined.order();
    let graphs = build(alloc, examined)?;
    let _main = graphs.main();
    inline(alloc, &graphs)
}

/// The graph of a program's blocks, which is one function of its typed tree: each run of the program that ends in an error has a run of the graph to that error, and each run of the
/// graph to an error is one of the program. Each visit of a listed loop has a run to the loop's node, in a store that shows what the objects
/// hold in the cells that are needed there. Fails with `Over` for limit 4 or 5, which the graph of its instructions passes.
pub fn blocks_of(alloc: Global, examined: &Examined) -> Result<Graph, SourceFail>
    ensures one { IfOk result (λ g. g ≡ joined_of examined.now.typed) }
    ensures stands { IfOk result (λ g. StandsFor g (tree_of examined.now.typed)) }
    ensures visits { IfOk result (VisitsInBlocks (program_setting examined.now.typed examined.now.order) (tree_of examined.now.typed)) }
    ensures within { IfOk result (λ _. IsWithinLimits examined.now.typed) }
    ensures limits { IfErr result (IsTooBig examined.now.typed) }
{
    let Joined { graph, live: _ } = joined_blocks(alloc, examined)?;
    Ok(graph)
}

/// The graph of [`blocks_of`], with the cells that show at a loop's node what the objects hold at each visit.
pub fn joined_blocks(alloc: Global, examined: &Examined) -> Result<Joined, SourceFail>
    ensures one { IfOk result (λ j. j.graph ≡ joined_of examined.now.typed) }
    ensures stands { IfOk result (λ j. StandsFor j.graph (tree_of examined.now.typed)) }
    ensures visits { IfOk result (λ j. VisitsInBlocks (program_setting examined.now.typed examined.now.order) (tree_of examined.now.typed) j.graph) }
    ensures marked { IfOk result (λ j. VisitsMarked (program_setting examined.now.typed examined.now.order) (tree_of examined.now.typed) (live_at j.live) j.graph) }
    ensures within { IfOk result (λ _. IsWithinLimits examined.now.typed) }
    ensures limits { IfErr result (IsTooBig examined.now.typed) }
{
    joined_graphs_stand();
    let graph = whole_graph(alloc, examined)?;
    let _entry = graph.entry();
    match join_blocks_live(alloc, graph) {
        Ok(blocks) => Ok(blocks),
        Err(Memory) => Err(SourceFail::Memory),
    }
}

/// The graph of the blocks of a source that breaks no rule.
pub fn source_blocks(alloc: Global, source: &[u8], model: Model) -> Result<Graph, SourceFail> {
    let examined = examined(alloc, source, model)?;
    blocks_of(alloc, &examined)
}

/// The graph of a program is that of its typed tree, wherever that lies in memory, and so are the graph of its blocks and the limits.
pub fn program_graphs_are_of_trees()
    ensures whole { GraphsAreOfTrees }
    ensures blocks { BlocksAreOfTrees }
    ensures limits { LimitsAreOfTrees }
{}

/// A program within the limits is refused for want of memory alone, and one that is not, for one of them.
pub fn limits_are_exact()
    ensures exact { LimitsAreExact }
    ensures one { LimitsAreOne }
{}
