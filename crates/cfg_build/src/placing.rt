//! The nodes and edges of a function's places.

ghost use Rattle.std.specs.Prelude.{◌≡◌, ◌↔◌, ℕ, IfOk, IfSome, IsTrue, Some, slice_get};
ghost use Rattle.c_terms.specs.Shown.{Grows};
ghost use Rattle.c_terms.specs.declared.words.Words.{Words};
ghost use Rattle.code_moves.specs.Setting.{setting_of, Stands, site_of};
ghost use Rattle.slot_code.specs.declared.flat.Instruction.{Instruction};
ghost use Rattle.cfg_build.specs.Steps.{Built, next_of, node_id};
ghost use Rattle.cfg_build.specs.Placed.{CanCall, CanFollow, CanStand, IsCalled};
ghost use Rattle.cfg_build.specs.Follows as of;
ghost use Rattle.cfg_build.specs.Made as made;
ghost use Rattle.cfg_build.specs.Made.{drawn_of};
ghost use Rattle.cfg_build.specs.Follows.{plan_of, Begins, LiesBelow, Exit, Follows, PlacesFollow, StandsAt};

use crate::draft::Draft;
use crate::keeping::keeps;
use crate::steps::{add_moves, add_skip_equal, add_skip_zero, add_way};
use c_graph::{Node, NodeId};
use c_terms::Words;
use code_layout::behind;
use code_moves::Ground;
use lv_base::Memory;
use slot_code::Instruction;
use std::alloc::Global;

/// The code of one function, the places from its first on up to its end, and its slots.
#[derive(Clone, Copy)]
pub(crate) struct Range {
    pub(crate) function: u32,
    pub(crate) entry: usize,
    pub(crate) end: usize,
    /// The slot that holds the place to return to; its other slots stand behind it, below a bound.
    pub(crate) slot: usize,
    pub(crate) bound: usize,
}

/// The code of a whole program, and where everything in it stands.
#[derive(Clone, Copy)]
pub(crate) struct Whole<'a> {
    pub(crate) code: &'a [Instruction],
    /// The number of each place's node in the graph of its function.
    pub(crate) numbers: &'a [u32],
    /// The function whose code has a place.
    pub(crate) owners: &'a [u32],
    pub(crate) ranges: &'a [Range],
}

/// One function in it, and the node behind all its places.
#[derive(Clone, Copy)]
pub(crate) struct Places<'a> {
    pub(crate) whole: Whole<'a>,
    pub(crate) range: Range,
    pub(crate) exit: NodeId,
}

// The node of a place of this function, or its exit.
pub(crate) fn node_of(places: &Places<'_>, place: usize) -> NodeId
    ensures { result ≡ of.node_of (plan_of places.now) place }
{
    if place < places.range.entry {
        return places.exit;
    }
    if place >= places.range.end {
        return places.exit;
    }
    match places.whole.numbers.get(place) {
        None => places.exit,
        Some(number) => NodeId(*number),
    }
}

// The function whose code has a place.
fn owner_of(places: &Places<'_>, place: usize) -> Option<u32>
    ensures { result ≡ slice_get places.now.whole.owners.now place }
{
    places.whole.owners.get(place).copied()
}

// The function that begins at a place and returns by a slot, if its code and slots lie below those of the function that is looked at.
fn called(places: &Places<'_>, place: usize, slot: usize) -> Option<u32>
    ensures begins { IfSome result (λ f. Begins places.now.whole.ranges.now places.now.range f place slot) }
    ensures whole { (f : ℕ) → Begins places.now.whole.ranges.now places.now.range f place slot → slice_get places.now.whole.owners.now place ≡ Some f → result ≡ Some f }
    ensures made { IfSome result (λ f. f ≡ made.called places.now.whole.owners.now place) }
{
    let Some(function) = owner_of(places, place) else {
        return None;
    };
    let Some(range) = places.whole.ranges.get(function as usize) else {
        return None;
    };
    if is_called(range, &places.range, place, slot) {
        Some(function)
    } else {
        None
    }
}

fn is_called(range: &Range, caller: &Range, place: usize, slot: usize) -> bool
    ensures { IsTrue result ↔ ((range.now.entry ≡ place) × (range.now.slot ≡ slot) × LiesBelow range.now caller.now) }
{
    let is_there = range.entry == place && range.slot == slot;
    is_there && lies_below(range, caller)
}

fn lies_below(range: &Range, other: &Range) -> bool
    ensures { IsTrue result ↔ LiesBelow range.now other.now }
{
    let is_code = range.entry < range.end && range.end <= other.entry;
    is_code && range.slot < range.bound && range.bound <= other.slot
}

// The node of a call, if a function begins there and returns by the slot, which no instruction reads.
fn add_call(
    places: &Places<'_>,
    goal: usize,
    slot: usize,
    next: NodeId,
    ground: &Ground<'_>,
    draft: &mut Draft,
) -> Result<bool, Memory>
    ensures built { IfOk result (λ b. IsTrue b → Built draft.old draft.new (of.Calls (plan_of places.now) (setting_of ground.now) goal slot next)) }
    ensures whole { IsCalled places.now.whole ground.now.layout.now places.now.range goal slot → IfOk result (λ b. IsTrue b) }
    ensures made { (w : Words) → IfOk result (λ b. IsTrue b → drawn_of w draft.new ≡ made.add_call places.now.whole.owners.now (drawn_of w draft.old) goal next) }
{
    let Some(function) = called(places, goal, slot) else {
        return Ok(false);
    };
    if ground.layout.slot(slot).is_some() {
        return Ok(false);
    }
    draft.node(Node::Call(function, next))?;
    Ok(true)
}

// The node of a place at which a run ends.
fn add_last(node: Node, draft: &mut Draft) -> Result<bool, Memory>
    ensures built { IfOk result (λ b. Built draft.old draft.new (of.Last node)) }
    ensures whole { IfOk result (λ b. IsTrue b) }
    ensures made { (w : Words) → IfOk result (λ b. drawn_of w draft.new ≡ made.add_node (drawn_of w draft.old) node) }
{
    draft.node(node)?;
    Ok(true)
}

// The nodes and edges of the instruction at a place. It answers false, and they count for nothing, where a call is of no function.
fn add_place(
    alloc: Global,
    places: &Places<'_>,
    place: usize,
    instruction: Instruction,
    ground: &Ground<'_>,
    words: &mut Words,
    draft: &mut Draft,
) -> Result<bool, Memory>
    ensures built { Stands (setting_of ground.now) words.old
        → IfOk result (λ b. IsTrue b → Grows words.old words.new × Built draft.old draft.new (Follows (plan_of places.now) (setting_of ground.now) words.new.terms place instruction)) }
    ensures whole { CanCall places.now.whole ground.now.layout.now places.now.range instruction → IfOk result (λ b. IsTrue b) }
    ensures made { IfOk result (λ b. IsTrue b → drawn_of words.new draft.new ≡ made.add_place (plan_of places.now) places.now.whole.owners.now (site_of (setting_of ground.now)) (drawn_of words.old draft.old) place instruction) }
{
    let following = behind(place, 1)?;
    let next = node_of(places, following);
    match instruction {
        Instruction::Fail(kind, at) => add_last(Node::Error(kind, at), draft),
        Instruction::Stop => add_last(Node::End, draft),
        Instruction::Call(_, goal, slot) => add_call(places, goal, slot, next, ground, draft),
        Instruction::Return(_) => {
            add_way(draft, places.exit)?;
            Ok(true)
        }
        Instruction::Jump(skip) => {
            add_way(draft, node_of(places, behind(following, skip as usize)?))?;
            Ok(true)
        }
        Instruction::Turn(_, goal) => {
            add_way(draft, node_of(places, goal))?;
            Ok(true)
        }
        Instruction::SkipZero(slot, skip) => {
            let to = node_of(places, behind(following, skip as usize)?);
            add_skip_zero(slot, next, to, ground, words, draft)?;
            Ok(true)
        }
        Instruction::SkipEqual(slot, value, skip) => {
            let to = node_of(places, behind(following, skip as usize)?);
            add_skip_equal(slot, value, next, to, ground, words, draft)?;
            Ok(true)
        }
        _ => {
            add_moves(alloc, instruction, next, ground, words, draft)?;
            Ok(true)
        }
    }
}

fn is_number_of(places: &Places<'_>, place: usize, node: NodeId) -> bool
    ensures { IsTrue result ↔ (slice_get places.now.whole.numbers.now place ≡ Some node.0) }
{
    match places.whole.numbers.get(place) {
        None => false,
        Some(number) => *number == node.0,
    }
}

// A place more, whose node has its number. It answers false where it has not.
fn add_next(
    alloc: Global,
    places: &Places<'_>,
    place: usize,
    ground: &Ground<'_>,
    words: &mut Words,
    draft: &mut Draft,
) -> Result<bool, Memory>
    ensures built { Stands (setting_of ground.now) words.old
        → IfOk result (λ b. IsTrue b → Grows words.old words.new × Built draft.old draft.new (StandsAt (plan_of places.now) (setting_of ground.now) words.new.terms place)) }
    ensures whole { (x : Instruction) → CanStand places.now ground.now.layout.now place (next_of draft.old) x → IfOk result (λ b. IsTrue b) }
    ensures made { IfOk result (λ b. IsTrue b → drawn_of words.new draft.new ≡ made.add_next (plan_of places.now) places.now.whole.owners.now (site_of (setting_of ground.now)) (drawn_of words.old draft.old) place) }
{
    let Some(instruction) = places.whole.code.get(place).copied() else {
        return Ok(false);
    };
    let number = draft.next()?;
    if !is_number_of(places, place, number) {
        return Ok(false);
    }
    if !keeps(&places.range, place, instruction)? {
        return Ok(false);
    }
    add_place(alloc, places, place, instruction, ground, words, draft)
}

// The exit, which has its number. It answers false where it has not.
fn add_exit(places: &Places<'_>, draft: &mut Draft) -> Result<bool, Memory>
    ensures built { IfOk result (λ b. IsTrue b → Built draft.old draft.new (Exit (plan_of places.now))) }
    ensures whole { places.now.exit ≡ node_id (next_of draft.old) → IfOk result (λ b. IsTrue b) }
    ensures made { (w : Words) → IfOk result (λ b. IsTrue b → drawn_of w draft.new ≡ made.add_exit (drawn_of w draft.old)) }
{
    let number = draft.next()?;
    if number.0 != places.exit.0 {
        return Ok(false);
    }
    draft.node(Node::End)?;
    Ok(true)
}

/// The nodes and edges of a function's places, and its exit. It answers false, and they count for nothing, where nodes have other
/// numbers, a call is of no function, or an instruction leads out of its function's code or fills a slot of another: in the code of a
/// program none of that is so.
pub(crate) fn add_places(
    alloc: Global,
    places: &Places<'_>,
    ground: &Ground<'_>,
    words: &mut Words,
    draft: &mut Draft,
) -> Result<bool, Memory>
    ensures built { Stands (setting_of ground.now) words.old
        → IfOk result (λ b. IsTrue b → Grows words.old words.new × Built draft.old draft.new (PlacesFollow (plan_of places.now) (setting_of ground.now) words.new.terms)) }
    ensures whole { Stands (setting_of ground.now) words.old → CanFollow places.now ground.now.layout.now (next_of draft.old) → IfOk result (λ b. IsTrue b) }
    ensures made { IfOk result (λ b. IsTrue b → drawn_of words.new draft.new ≡ made.add_places (plan_of places.now) places.now.whole.owners.now (site_of (setting_of ground.now)) (drawn_of words.old draft.old)) }
{
    let count = places.range.end.saturating_sub(places.range.entry);
    for number in 0..count {
        let place = behind(places.range.entry, number)?;
        if !add_next(alloc, places, place, ground, words, draft)? {
            return Ok(false);
        }
    }
    add_exit(places, draft)
}
