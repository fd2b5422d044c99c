//! The steps of a join. What is open stands on a stack of frames, so that no call nests.

ghost use Rattle.std.specs.Prelude.{◌≡◌, ◌+◌, ◌<◌, ◌⊎◌, length, IfSome, IfNone, IfOk, IsErrOf};
ghost use Rattle.formula_diagrams.specs.Shape.{Arena, Grown};
ghost use Rattle.formula_diagrams.specs.declared.pairs.Pair.{Pair};
ghost use Rattle.formula_diagrams.specs.Joins.{AllRight, IsPairIn, IsSplit, Means, sum_of};
ghost use Rattle.formula_diagrams.specs.Steps.{IsStep, IsTurn, Waits, left_of, weights, work};

use crate::arena::Diagrams;
use crate::fails::DiagramFail;
use crate::items::NodeId;
use crate::pairs::{Join, Pair, Split, at_once, halves_of};
use crate::recall::{Known, Recall};
use std::alloc::Global;

/// What waits for the answer of a half.
#[derive(Clone, Copy)]
pub enum Frame {
    /// The low half is asked for.
    Low(Split),
    /// The low half has this number; the high half is asked for.
    High(Split, NodeId),
}

/// What comes next.
#[derive(Clone, Copy)]
pub enum Turn {
    /// A pair is to be joined.
    Asked(Pair),
    /// The pair that was asked for has this number.
    Answered(NodeId),
}

/// What a step leads to.
#[derive(Clone, Copy)]
pub enum Step {
    Next(Turn),
    /// The first pair has this number.
    Done(NodeId),
}

// The number of a joined pair that needs no step.
fn known(recall: &Recall, how: Join, pair: Pair) -> Option<NodeId>
    ensures means { (a : Arena) → AllRight a recall.now → IsPairIn a pair → IfSome result (λ n. Means a how pair n) }
    ensures inner { IfNone result ((1 < pair.left.0) ⊎ (1 < pair.right.0)) }
{
    match at_once(how, pair) {
        Some(node) => Some(node),
        None => recall.find(how, pair),
    }
}

// Answers a pair, or asks for its low half.
fn ask(
    nodes: &Diagrams,
    recall: &Recall,
    how: Join,
    frames: &mut Vec<Frame>,
    pair: Pair,
) -> Result<Turn, DiagramFail>
    requires right { AllRight nodes.now recall.now }
    requires there { IsPairIn nodes.now pair }
    ensures turn { (p : Pair) → Waits nodes.now how p frames.old.items pair → IfOk result (λ t. IsTurn nodes.now how p frames.new.items t) }
    ensures fewer { IfOk result (λ t. left_of frames.new.items t < weights frames.old.items + work (sum_of pair)) }
    ensures large { IsErrOf result DiagramFail.TooLarge → ⊥ }
{
    if let Some(node) = known(recall, how, pair) {
        return Ok(Turn::Answered(node));
    }
    let halves = halves_of(nodes, pair);
    frames.push(Frame::Low(halves))?;
    Ok(Turn::Asked(halves.low))
}

// Both halves have their numbers: makes the choice between them, and writes the pair down.
fn close(
    nodes: &mut Diagrams,
    recall: &mut Recall,
    how: Join,
    halves: Split,
    low: NodeId,
    high: NodeId,
) -> Result<NodeId, DiagramFail>
    requires right { AllRight nodes.old recall.old }
    requires split { IsSplit nodes.old halves }
    requires low { Means nodes.old how halves.low low }
    requires high { Means nodes.old how halves.high high }
    ensures grown { Grown nodes.old nodes.new }
    ensures right { AllRight nodes.new recall.new }
    ensures means { IfOk result (λ n. Means nodes.new how halves.asked n) }
    ensures large { IsErrOf result DiagramFail.TooLarge → length nodes.new.nodes ≡ nodes.new.most }
{
    let node = nodes.make(halves.top, low, high)?;
    let pair = halves.asked;
    recall.add(Known { how, pair, node })?;
    Ok(node)
}

// The number of what was asked for goes to the frame that waits for it.
fn answer(
    nodes: &mut Diagrams,
    recall: &mut Recall,
    how: Join,
    frames: &mut Vec<Frame>,
    node: NodeId,
) -> Result<Step, DiagramFail>
    requires right { AllRight nodes.old recall.old }
    requires turn { (p : Pair) × IsTurn nodes.old how p frames.old.items (Turn.Answered node) }
    ensures grown { Grown nodes.old nodes.new }
    ensures right { AllRight nodes.new recall.new }
    ensures step { (p : Pair) → IsTurn nodes.old how p frames.old.items (Turn.Answered node) → IfOk result (IsStep nodes.new how p frames.new.items (left_of frames.old.items (Turn.Answered node))) }
    ensures large { IsErrOf result DiagramFail.TooLarge → length nodes.new.nodes ≡ nodes.new.most }
{
    let Some(frame) = frames.pop() else {
        return Ok(Step::Done(node));
    };
    match frame {
        Frame::Low(halves) => {
            frames.push(Frame::High(halves, node))?;
            Ok(Step::Next(Turn::Asked(halves.high)))
        }
        Frame::High(halves, low) => {
            let made = close(nodes, recall, how, halves, low, node)?;
            Ok(Step::Next(Turn::Answered(made)))
        }
    }
}

// One step.
fn take_step(
    nodes: &mut Diagrams,
    recall: &mut Recall,
    how: Join,
    frames: &mut Vec<Frame>,
    turn: Turn,
) -> Result<Step, DiagramFail>
    requires right { AllRight nodes.old recall.old }
    requires turn { (p : Pair) × IsTurn nodes.old how p frames.old.items turn }
    ensures grown { Grown nodes.old nodes.new }
    ensures right { AllRight nodes.new recall.new }
    ensures step { (p : Pair) → IsTurn nodes.old how p frames.old.items turn → IfOk result (IsStep nodes.new how p frames.new.items (left_of frames.old.items turn)) }
    ensures large { IsErrOf result DiagramFail.TooLarge → length nodes.new.nodes ≡ nodes.new.most }
{
    match turn {
        Turn::Asked(pair) => {
            let next = ask(nodes, recall, how, frames, pair)?;
            Ok(Step::Next(next))
        }
        Turn::Answered(node) => answer(nodes, recall, how, frames, node),
    }
}

/// The number of a joined pair. A pair of numbers is joined once at most, so that there are at most three steps for each
/// pair of a node below the left one and a node below the right one.
pub fn join(
    alloc: Global,
    nodes: &mut Diagrams,
    how: Join,
    pair: Pair,
) -> Result<NodeId, DiagramFail>
    requires { IsPairIn nodes.old pair }
    ensures grown { Grown nodes.old nodes.new }
    ensures means { IfOk result (λ n. Means nodes.new how pair n) }
    ensures large { IsErrOf result DiagramFail.TooLarge → length nodes.new.nodes ≡ nodes.new.most }
{
    let mut recall = Recall::new(alloc);
    let mut frames = Vec::new(alloc);
    let mut turn = Turn::Asked(pair);
    loop {
        let next = take_step(nodes, &mut recall, how, &mut frames, turn)?;
        match next {
            Step::Done(node) => return Ok(node),
            Step::Next(then) => turn = then,
        }
    }
}
