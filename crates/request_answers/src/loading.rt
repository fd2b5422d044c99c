//! From a source's bytes to its typed tree and the graph that is made of it.
ghost use Rattle.std.specs.Prelude.{◌≡◌, ◌≤◌, ◌^◌, length, MatchResult};
ghost use Rattle.c_typed.specs.Parts.{tree_of};
ghost use Rattle.source_reading.specs.Reading.{IsReplay};
ghost use Rattle.cfg_build.specs.Graphs.{program_setting};
ghost use Rattle.block_join.specs.Living.{live_at};
ghost use Rattle.witness_visit_laws.specs.Visited.{VisitsMarked};
ghost use Rattle.request_answers.specs.Answers.{HasGraph, IsRefused, refused_for, limit_for};

use block_join::Joined;
use c_rules::Examined;
use lv_base::{Model, SourceFail, place_of};
use source_graphs::joined_blocks;
use source_reading::examined;
use std::alloc::Global;
use verdicts::Verdict;

/// A typed tree, and the graph of the blocks that was made of it, with the cells that show what objects hold at the nodes of loops.
#[derive(Drop)]
pub(crate) struct Loaded {
    pub examined: Examined,
    pub joined: Joined,
}

/// The typed tree and the graph of a source, or the answer to it where it is refused.
pub(crate) fn load_source(alloc: Global, source: &[u8], model: Model) -> Result<Loaded, Verdict>
    requires small { length source.now ≤ 2 ^ 20 }
    ensures { MatchResult result (λ s. HasGraph model source.now s.examined.typed s.joined.graph × VisitsMarked (program_setting s.examined.typed s.examined.order) (tree_of s.examined.typed) (live_at s.joined.live) s.joined.graph) (λ v. IsRefused model source.now v) }
{
    match examined(alloc, source, model) {
        Ok(examined) => with_graph(alloc, source, model, examined),
        Err(fail) => Err(refuse(source, fail)),
    }
}

fn with_graph(
    alloc: Global,
    _source: &[u8],
    _model: Model,
    examined: Examined,
) -> Result<Loaded, Verdict>
    requires small { length _source.now ≤ 2 ^ 20 }
    requires replay { IsReplay _model _source.now (tree_of examined.typed) }
    ensures { MatchResult result (λ s. HasGraph _model _source.now s.examined.typed s.joined.graph × VisitsMarked (program_setting s.examined.typed s.examined.order) (tree_of s.examined.typed) (live_at s.joined.live) s.joined.graph) (λ v. IsRefused _model _source.now v) }
{
    match joined_blocks(alloc, &examined) {
        Ok(joined) => {
            let _entry = joined.graph.entry();
            Ok(Loaded { examined, joined })
        }
        Err(fail) => Err(limit(fail)),
    }
}

fn refuse(source: &[u8], fail: SourceFail) -> Verdict
    requires small { length source.now ≤ 2 ^ 20 }
    ensures { result ≡ refused_for source.now fail }
{
    match fail {
        SourceFail::Fault(fault, at) => {
            Verdict::Faulty(fault, place_of(source, (at as usize).min(source.len())))
        }
        SourceFail::Over(number, count) => Verdict::Over(number, count),
        SourceFail::Memory => Verdict::NoMemory,
    }
}

// The answer where no graph could be made. What is made into a graph has passed all rules.
fn limit(fail: SourceFail) -> Verdict
    ensures { result ≡ limit_for fail }
{
    match fail {
        SourceFail::Over(number, count) => Verdict::Over(number, count),
        SourceFail::Fault(_, _) | SourceFail::Memory => Verdict::NoMemory,
    }
}
