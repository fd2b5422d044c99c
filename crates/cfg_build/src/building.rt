//! The graphs of functions, place by place.

ghost use Rattle.std.specs.Prelude.{◌≡◌, ◌==◌, ◌⊎◌, [], length, true, false, slice_get, IfErr, IfOk, IfSome, IsSome, IsTrue, Some};
ghost use Rattle.c_graph.specs.Parts.{error_flows};
ghost use Rattle.c_typed.specs.Parts.{tree_of};
ghost use Rattle.c_terms.specs.Shown.{Grows};
ghost use Rattle.code_moves.specs.Setting.{setting_of, Stands, site_of};
ghost use Rattle.slot_code.specs.declared.flat.Instruction.TheVariants as i;
ghost use Rattle.loop_turns.specs.Turning.{OnlyTurn};
ghost use Rattle.cfg_build.specs.Follows.{plan_of};
ghost use Rattle.cfg_build.specs.Built.{built, first_graphs, graphed};
ghost use Rattle.cfg_build.specs.Graphs as of;
ghost use Rattle.cfg_build.specs.Made as made;
ghost use Rattle.cfg_build.specs.Looped as looped;
ghost use Rattle.cfg_build.specs.Numbers.{first_number};
ghost use Rattle.cfg_build.specs.Passing.{IsPassing, FollowingMakesFlows};
ghost use Rattle.cfg_build.specs.Placed.{AllCanFollow, CanFollow, places_in};
ghost use Rattle.cfg_build.specs.Sizes.{IsWithin, TooMuch};

use crate::draft::Draft;
use crate::fitting::is_fitting;
use crate::looping::loops_in;
use crate::numbering::{exit_of, first_of, numbers_of, owners_of};
use crate::opening::add_opening;
use crate::placing::{Places, Range, Whole, add_places, node_of};
use crate::ranging::{is_placed, main_of, ranges_of};
use crate::sizes::few_nodes;
use bv_term::Terms;
use c_graph::{FnGraph, FnGraphs, LoopAt, NodeId, function_graphs_from};
use c_rules::Examined;
use c_terms::Words;
use c_typed::Typed;
use code_layout::{Layout, widths_of};
use code_moves::Ground;
use loop_turns::TurnGoals;
use lv_base::{Memory, SourceFail};
use slot_code::Instruction;
use slot_compiler::{compiled, slots_in};
use std::alloc::Global;

/// The graphs of a program's functions, by their numbers.
///
/// Fails with `Over` for limit 4, with the number of cells, where these are more than 65,536; else for limit 5, with the number of
/// nodes of all graphs, where these are more than 65,536; else with `Memory`. It takes time in proportion to the code.
pub fn build(alloc: Global, examined: &Examined) -> Result<FnGraphs, SourceFail>
    ensures made { IfOk result (λ p. of.ProgramFollows examined.now.typed examined.now.order p ⊎ (p ≡ error_flows)) }
    ensures whole { FollowingMakesFlows → IsPassing examined.now.typed examined.now.order → IfOk result (λ p. of.ProgramFollows examined.now.typed examined.now.order p) }
    ensures one { FollowingMakesFlows → IsPassing examined.now.typed examined.now.order → IfOk result (λ p. p ≡ built examined.now.typed examined.now.order) }
    ensures within { IfOk result (λ p. IsWithin examined.now.typed examined.now.order) }
    ensures limits { IfErr result (TooMuch examined.now.typed examined.now.order) }
{
    let typed = examined.typed();
    let code = compiled(alloc, typed, examined.order())?;
    let slots = slots_in(&code.instructions)?;
    let (objects, model) = (typed.objects(), typed.model());
    let layout = Layout::new(alloc, objects, model, &code.instructions, slots)?;
    few_nodes(&code.instructions, typed.functions().len())?;
    let ranges = ranges_of(alloc, typed, &code, slots)?;
    let main = main_of(typed);
    let numbers = numbers_of(alloc, &code, main)?;
    let owners = owners_of(alloc, &code)?;
    let widths = widths_of(alloc, layout.cells())?;
    let mut words = Words::new(Terms::new(alloc, widths));
    let whole = Whole {
        code: &code.instructions,
        numbers: &numbers,
        owners: &owners,
        ranges: &ranges,
    };
    let ground = Ground {
        objects,
        model,
        layout: &layout,
    };
    let Graphs { graphs, exits } = graphs_of(alloc, typed, &whole, main, &ground, &mut words)?;
    let graphs = graphs_where(alloc, is_placed(typed, &code, slots, &ranges, main), graphs);
    let passed = is_fitting(alloc, objects, &code)?;
    let graphs = graphs_where(alloc, passed, graphs);
    let cells = layout.into_cells();
    let terms = words.into_terms();
    Ok(function_graphs_from(alloc, graphs, cells, terms, exits, main)?)
}

// Graphs of places that are not those of the code, or of code that is not fit count for nothing: without a graph the parts make none.
fn graphs_where(alloc: Global, passed: bool, graphs: Vec<FnGraph>) -> Vec<FnGraph>
    ensures made { (IsTrue passed × (result.items ≡ graphs.items)) ⊎ (result.items ≡ []) }
    ensures whole { IsTrue passed → result.items ≡ graphs.items }
{
    if passed { graphs } else { Vec::new(alloc) }
}

// The graphs of functions, and the node at which each returns.
#[derive(Drop)]
struct Graphs {
    graphs: Vec<FnGraph>,
    exits: Vec<NodeId>,
}

impl Graphs {
    fn new(alloc: Global) -> Graphs
        ensures { (result.graphs.items ≡ []) × (result.exits.items ≡ []) }
    {
        Graphs {
            graphs: Vec::new(alloc),
            exits: Vec::new(alloc),
        }
    }
}

// The graph of each function. There is none where some place doesn't get its node.
fn graphs_of(
    alloc: Global,
    typed: &Typed,
    whole: &Whole<'_>,
    main: u32,
    ground: &Ground<'_>,
    words: &mut Words,
) -> Result<Graphs, Memory>
    ensures made { Stands (setting_of ground.now) words.old → IfOk result (λ r. (r.graphs.items ≡ []) ⊎ (Grows words.old words.new
        × of.FirstGraphs whole.now.code.now whole.now.numbers.now whole.now.ranges.now main (setting_of ground.now) words.new.terms (length whole.now.ranges.now) r.graphs.items r.exits.items)) }
    ensures whole { Stands (setting_of ground.now) words.old → AllCanFollow whole.now ground.now.layout.now main
        → IfOk result (λ r. length r.graphs.items ≡ length whole.now.ranges.now) }
    ensures value { IfOk result (λ r. (r.graphs.items ≡ []) ⊎ (graphed words.new r.graphs.items r.exits.items
        ≡ first_graphs whole.now.code.now whole.now.numbers.now whole.now.owners.now whole.now.ranges.now (tree_of typed.now).functions main (setting_of ground.now) words.old
        (length whole.now.ranges.now))) }
{
    let mut all = Graphs::new(alloc);
    for number in 0..whole.ranges.len() {
        let Some(range) = range_at(whole.ranges, number) else {
            return Ok(Graphs::new(alloc));
        };
        let places = places_of(whole, range, main)?;
        let Some(graph) = graph_of(alloc, typed, &places, main, ground, words)? else {
            return Ok(Graphs::new(alloc));
        };
        all.graphs.push(graph)?;
        all.exits.push(places.exit)?;
    }
    Ok(all)
}

fn range_at(ranges: &[Range], number: usize) -> Option<Range>
    ensures { result ≡ slice_get ranges.now number }
{
    ranges.get(number).copied()
}

fn graph_of(
    alloc: Global,
    typed: &Typed,
    places: &Places<'_>,
    main: u32,
    ground: &Ground<'_>,
    words: &mut Words,
) -> Result<Option<FnGraph>, Memory>
    ensures made { Stands (setting_of ground.now) words.old → IfOk result (λ o. IfSome o (λ r. Grows words.old words.new
        × of.GraphFollows (places.now.range.function == main) (plan_of places.now) (setting_of ground.now) words.new.terms r)) }
    ensures whole { Stands (setting_of ground.now) words.old → CanFollow places.now ground.now.layout.now (first_number main places.now.range.function) → IfOk result (λ o. IsSome o) }
    ensures value { IfOk result (λ o. IfSome o (λ r. (words.new, r) ≡ made.graph_of (plan_of places.now) places.now.whole.owners.now (site_of (setting_of ground.now)) (made.opened (setting_of ground.now)) (tree_of typed.now).functions main words.old)) }
{
    if places.range.function == main {
        main_graph(alloc, typed, places, main, ground, words)
    } else {
        own_graph(alloc, places, ground, words)
    }
}

// The graph of a function that is not `main`.
fn own_graph(
    alloc: Global,
    places: &Places<'_>,
    ground: &Ground<'_>,
    words: &mut Words,
) -> Result<Option<FnGraph>, Memory>
    ensures made { Stands (setting_of ground.now) words.old → IfOk result (λ o. IfSome o (λ r. Grows words.old words.new
        × of.GraphFollows false (plan_of places.now) (setting_of ground.now) words.new.terms r)) }
    ensures whole { Stands (setting_of ground.now) words.old → CanFollow places.now ground.now.layout.now 0 → IfOk result (λ o. IsSome o) }
    ensures value { IfOk result (λ o. IfSome o (λ r. (words.new, r) ≡ made.own_graph (plan_of places.now) places.now.whole.owners.now (site_of (setting_of ground.now)) words.old)) }
{
    let mut draft = Draft::new(alloc);
    if !add_places(alloc, places, ground, words, &mut draft)? {
        return Ok(None);
    }
    Ok(Some(draft.into_graph(Vec::new(alloc))))
}

fn main_graph(
    alloc: Global,
    typed: &Typed,
    places: &Places<'_>,
    main: u32,
    ground: &Ground<'_>,
    words: &mut Words,
) -> Result<Option<FnGraph>, Memory>
    ensures made { Stands (setting_of ground.now) words.old → IfOk result (λ o. IfSome o (λ r. Grows words.old words.new
        × of.GraphFollows true (plan_of places.now) (setting_of ground.now) words.new.terms r)) }
    ensures whole { Stands (setting_of ground.now) words.old → CanFollow places.now ground.now.layout.now 1 → IfOk result (λ o. IsSome o) }
    ensures value { IfOk result (λ o. IfSome o (λ r. (words.new, r) ≡ made.main_graph (plan_of places.now) places.now.whole.owners.now (site_of (setting_of ground.now)) (made.opened (setting_of ground.now)) (tree_of typed.now).functions main words.old)) }
{
    let mut draft = Draft::new(alloc);
    add_opening(alloc, ground, words, &mut draft)?;
    if !add_places(alloc, places, ground, words, &mut draft)? {
        return Ok(None);
    }
    let offsets = main_loops(alloc, typed, main)?;
    let loops = loops_at(alloc, places, &offsets)?;
    Ok(Some(draft.into_graph(loops)))
}

// The offsets of the loops in the body of `main`.
fn main_loops(alloc: Global, typed: &Typed, main: u32) -> Result<Vec<u32>, Memory>
    ensures { IfOk result (λ r. r.items ≡ looped.main_loops (tree_of typed.now).functions main) }
{
    let mut found = Vec::new(alloc);
    if let Some(function) = typed.functions().get(main as usize) {
        loops_in(&function.body, &mut found)?;
    }
    Ok(found)
}

// The places of a function, with the node behind them.
fn places_of<'a>(whole: &Whole<'a>, range: Range, main: u32) -> Result<Places<'a>, Memory>
    ensures { IfOk result (λ p. p ≡ places_in whole.now main range) }
{
    let first = first_of(main, range.function);
    let exit = exit_of(whole.code, first, range.entry, range.end)?;
    Ok(Places {
        whole: *whole,
        range,
        exit,
    })
}

// The place to which the turn at a place goes, if there is one, and it is of the loop at this offset.
fn turn_at(places: &Places<'_>, place: usize, offset: u32) -> Option<usize>
    ensures turns { IfSome result (λ goal. slice_get places.now.whole.code.now place ≡ Some (i.Turn offset goal)) }
    ensures value { result ≡ looped.turn_at (plan_of places.now) place offset }
{
    match places.whole.code.get(place).copied() {
        Some(Instruction::Turn(at, goal)) => { if at == offset { Some(goal) } else { None } }
        _ => None,
    }
}

// The place to which all turns of a loop go, if one of them stands at this place.
fn loop_goal(places: &Places<'_>, goals: &TurnGoals<'_>, place: usize, offset: u32) -> Option<usize>
    ensures turns { IfSome result (λ goal. slice_get places.now.whole.code.now place ≡ Some (i.Turn offset goal)) }
    ensures only { IfSome result (λ goal. OnlyTurn goals.now offset goal) }
    ensures value { result ≡ looped.loop_goal (plan_of places.now) goals.now place offset }
{
    let goal = turn_at(places, place, offset)?;
    let only = goals.only(offset)?;
    if goal == only { Some(goal) } else { None }
}

// The node at which each visit of each loop stands: the one to which the turns of its keyword go.
fn loops_at(alloc: Global, places: &Places<'_>, loops: &[u32]) -> Result<Vec<LoopAt>, Memory>
    ensures loops { IfOk result (λ r. of.AreLoops (plan_of places.now) r.items) }
    ensures made { IfOk result (λ r. r.items ≡ looped.loops_at (plan_of places.now) loops.now) }
{
    let goals = TurnGoals::new(alloc, places.whole.code)?;
    let mut found = Vec::new(alloc);
    let mut number = 0;
    for place in places.range.entry..places.range.end {
        if number >= loops.len() {
            return Ok(found);
        }
        let at = loops[number];
        if let Some(goal) = loop_goal(places, &goals, place, at) {
            let node = node_of(places, goal);
            found.push(LoopAt { at, node })?;
            number += 1;
        }
    }
    Ok(found)
}
