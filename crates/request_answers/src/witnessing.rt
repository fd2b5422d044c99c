//! The witness of a verdict, where one is asked for.

ghost use Rattle.std.specs.Prelude.{◌≡◌, ◌≤◌, ◌^◌, length, IfOk, Ok, Some, None, false};
ghost use Rattle.std.specs.Option.{option_map};
ghost use Rattle.moment_text.specs.Moments.{IsMoment};
ghost use Rattle.c_tree.specs.Tree.{Items};
ghost use Rattle.c_tree.specs.Denotes.{tree_of};
ghost use Rattle.source_reading.specs.Reading.{source_read};
ghost use Rattle.block_join.specs.Living.{live_at};
ghost use Rattle.request_answers.specs.Witnessed.{has_witness, named_for, safe_witness_of, unsafe_witness_of, offset_witness_of, witness_of, is_reach, IsTextOf};

use block_join::LiveCells;
use c_graph::Graph;
use c_tree::Unit;
use lv_base::{ErrorKind, Memory, Model, Text};
use request_words::Verifying;
use source_reading::tree;
use source_verdicts::Found;
use source_witnesses::{Stamp, safe_witness, unsafe_witness};
use std::alloc::Global;
use verdicts::Verdict;

/// The name of the source, where a witness is asked for.
pub(crate) fn witness_name<'a>(verifying: Verifying<'a>) -> Option<&'a str>
    ensures { option_map (λ s. s.now) result ≡ named_for (option_map (λ s. s.now) verifying.entry.witness) verifying.entry.source.now }
{
    match verifying.witness {
        Some(_) => Some(verifying.source),
        None => None,
    }
}

fn of_safe(
    alloc: Global,
    name: &str,
    source: &[u8],
    unit: &Unit,
    model: Model,
    graph: &Graph,
    live: &LiveCells,
    found: &Found,
    stamp: Stamp,
) -> Result<Option<Text>, Memory>
    requires small { length source.now ≤ 2 ^ 20 }
    requires moment { IsMoment stamp.moment }
    ensures { IfOk result (λ t. t ≡ safe_witness_of name.now source.now (tree_of unit.now) model graph.now (live_at live.now) stamp found.now) }
{
    match found {
        Found::OfMap(map) => {
            let text = safe_witness(alloc, name, source, unit, model, graph, live, map, stamp)?;
            Ok(Some(text))
        }
        Found::Nothing => Ok(None),
        Found::AtOffset(_) => Ok(None),
    }
}

fn of_offset(
    alloc: Global,
    name: &str,
    source: &[u8],
    unit: &Unit,
    model: Model,
    found: &Found,
    stamp: Stamp,
) -> Result<Option<Text>, Memory>
    requires small { length source.now ≤ 2 ^ 20 }
    requires moment { IsMoment stamp.moment }
    ensures { IfOk result (λ t. t ≡ offset_witness_of name.now source.now (tree_of unit.now) model stamp found.now) }
{
    match found {
        Found::AtOffset(at) => {
            let text = unsafe_witness(alloc, name, source, unit, model, *at, stamp)?;
            Ok(Some(text))
        }
        Found::Nothing => Ok(None),
        Found::OfMap(_) => Ok(None),
    }
}

fn of_unsafe(
    alloc: Global,
    name: &str,
    source: &[u8],
    unit: &Unit,
    model: Model,
    kind: ErrorKind,
    found: &Found,
    stamp: Stamp,
) -> Result<Option<Text>, Memory>
    requires small { length source.now ≤ 2 ^ 20 }
    requires moment { IsMoment stamp.moment }
    ensures text { IfOk result (λ t. t ≡ unsafe_witness_of name.now source.now (tree_of unit.now) model stamp kind found.now) }
    ensures silent { is_reach kind ≡ false → IfOk result (λ t. t ≡ None) }
{
    match kind {
        ErrorKind::Reach => of_offset(alloc, name, source, unit, model, found, stamp),
        ErrorKind::Overflow => Ok(None),
        ErrorKind::Zero => Ok(None),
        ErrorKind::Shift => Ok(None),
        ErrorKind::Index => Ok(None),
        ErrorKind::Missing => Ok(None),
    }
}

// The witness of this verdict on a source whose file has this name: of SAFE, and of UNSAFE by a call of `reach_error`.
fn of_verdict(
    alloc: Global,
    name: &str,
    source: &[u8],
    unit: &Unit,
    model: Model,
    graph: &Graph,
    live: &LiveCells,
    verdict: &Verdict,
    found: &Found,
    stamp: Stamp,
) -> Result<Option<Text>, Memory>
    requires small { length source.now ≤ 2 ^ 20 }
    requires moment { IsMoment stamp.moment }
    ensures text { IfOk result (λ t. t ≡ witness_of name.now source.now (tree_of unit.now) model graph.now (live_at live.now) stamp verdict.now found.now) }
    ensures silent { has_witness verdict.now ≡ false → IfOk result (λ t. t ≡ None) }
{
    match verdict {
        Verdict::Safe(_) => of_safe(alloc, name, source, unit, model, graph, live, found, stamp),
        Verdict::Unsafe(kind, _, _, _) => {
            of_unsafe(alloc, name, source, unit, model, *kind, found, stamp)
        }
        Verdict::OutOfUnits(_) => Ok(None),
        Verdict::OutOfLearn(_) => Ok(None),
        Verdict::Accepted => Ok(None),
        Verdict::Rejected(_) => Ok(None),
        Verdict::Faulty(_, _) => Ok(None),
        Verdict::Over(_, _) => Ok(None),
        Verdict::ReadFault => Ok(None),
        Verdict::NoMemory => Ok(None),
    }
}

// The verdict with its witness, by the source's tree. Where memory runs out over the witness, that is the verdict.
fn with_text(
    alloc: Global,
    name: &str,
    source: &[u8],
    unit: &Unit,
    model: Model,
    graph: &Graph,
    live: &LiveCells,
    told: (Verdict, Found),
    stamp: Stamp,
) -> (Verdict, Option<Text>)
    requires small { length source.now ≤ 2 ^ 20 }
    requires moment { IsMoment stamp.moment }
    ensures text { IsTextOf (Some name.now) source.now (tree_of unit.now) model graph.now (live_at live.now) stamp told result }
    ensures silent { has_witness result.0 ≡ false → result.1 ≡ None }
{
    let (verdict, found) = told;
    match of_verdict(
        alloc, name, source, unit, model, graph, live, &verdict, &found, stamp,
    ) {
        Ok(text) => (verdict, text),
        Err(_) => (Verdict::NoMemory, None),
    }
}

/// The verdict with its witness, where one is asked for by the name of the source. The source's tree is read once more for it, so that none
/// is kept where no witness is asked for. Where memory runs out over that or over the witness, that is the verdict.
pub(crate) fn with_witness(
    alloc: Global,
    name: Option<&str>,
    source: &[u8],
    model: Model,
    graph: &Graph,
    live: &LiveCells,
    told: (Verdict, Found),
    stamp: Stamp,
) -> (Verdict, Option<Text>)
    requires small { length source.now ≤ 2 ^ 20 }
    requires moment { IsMoment stamp.moment }
    ensures text { (read : Items) → source_read model source.now ≡ Ok read → IsTextOf (option_map (λ s. s.now) name.entry) source.now read model graph.now (live_at live.now) stamp told result }
    ensures silent { has_witness result.0 ≡ false → result.1 ≡ None }
{
    match name {
        None => {
            let (verdict, _found) = told;
            (verdict, None)
        }
        Some(name) => match tree(alloc, source) {
            Ok(unit) => with_text(alloc, name, source, &unit, model, graph, live, told, stamp),
            Err(_) => (Verdict::NoMemory, None),
        },
    }
}
