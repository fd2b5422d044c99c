//! The nodes and edges of one instruction.

ghost use Rattle.std.specs.Prelude.{◌≡◌, ◌==◌, ◌∷◌, [], List, ℕ, IfOk};
ghost use Rattle.c_graph.specs.declared.graph.Node.TheVariants as Node;
ghost use Rattle.lv_base.specs.Integers.{residue};
ghost use Rattle.bv_term.specs.Numbers.{truth};
ghost use Rattle.c_terms.specs.Numbers.{nonzero};
ghost use Rattle.c_terms.specs.Shown.{Grows};
ghost use Rattle.c_terms.specs.declared.words.Words.{Words};
ghost use Rattle.c_terms.specs.declared.failing.Tests.TheVariants as Tests;
ghost use Rattle.c_graph.specs.declared.graph.Operation.TheVariants as Operation;
ghost use Rattle.code_moves.specs.Setting.{setting_of, Stands, site_of};
ghost use Rattle.code_moves.specs.Values.{slot_value};
ghost use Rattle.code_moves.specs.Deeds.{Tells};
ghost use Rattle.cfg_build.specs.Steps as s;
ghost use Rattle.cfg_build.specs.Made as made;
ghost use Rattle.cfg_build.specs.Made.{drawn_of};
ghost use Rattle.cfg_build.specs.Steps.{Adds, Behind, Built, Checked, Fork, Goes, IsTurned, Way, edge, node_id, next_of};

use crate::draft::Draft;
use bv_term::TermId;
use c_graph::{Node, NodeId, Operation};
use c_terms::{Fails, Tests, Words};
use code_moves::Ground;
use lv_base::Memory;
use slot_code::Instruction;
use std::alloc::Global;

// The offset at which the checks of an instruction fail.
fn offset_of(instruction: Instruction) -> u32
    ensures { result ≡ s.offset_of instruction }
{
    match instruction {
        Instruction::Element(_, at, _, _) => at,
        Instruction::Locate(_, at, _, _) => at,
        Instruction::Negate(_, _, at) => at,
        Instruction::Binary(_, _, _, at) => at,
        Instruction::Update(_, _, _, _, at, _) => at,
        Instruction::Change(_, _, _, _, at, _) => at,
        Instruction::Take(_, at, _, _) => at,
        Instruction::Constant(_, _) | Instruction::Read(_, _) | Instruction::Load(_, _) => 0,
        Instruction::Store(_, _) | Instruction::Convert(_, _) => 0,
        Instruction::Complement(_, _, _) | Instruction::Not(_) | Instruction::Truth(_) => 0,
        Instruction::Draw(_, _) | Instruction::Fill(_, _, _) => 0,
        Instruction::Begin(_, _, _, _) | Instruction::Bind(_, _) | Instruction::Jump(_) => 0,
        Instruction::Turn(_, _) | Instruction::SkipZero(_, _) => 0,
        Instruction::SkipEqual(_, _, _) | Instruction::Call(_, _, _) => 0,
        Instruction::Return(_) | Instruction::Fail(_, _) | Instruction::Stop => 0,
    }
}

/// A node from which one edge leads on.
pub(crate) fn add_way(draft: &mut Draft, to: NodeId) -> Result<(), Memory>
    ensures built { IfOk result (λ u. Built draft.old draft.new (Way to)) }
    ensures made { (w : Words) → IfOk result (λ u. drawn_of w draft.new ≡ made.add_way (drawn_of w draft.old) to) }
{
    let from = draft.node(Node::Plain)?;
    draft.plain_edge(from, to)?;
    Ok(())
}

// A node from which two edges lead on: where the term is 1, and where it is not.
fn add_branch(
    words: &mut Words,
    draft: &mut Draft,
    test: TermId,
    to: NodeId,
    other: NodeId,
) -> Result<(), Memory>
    ensures built { (f : List ℕ → ℕ) → Tells words.old.terms test 1 f
        → IfOk result (λ u. Grows words.old words.new × Built draft.old draft.new (Fork words.new.terms f to other)) }
    ensures made { IfOk result (λ u. drawn_of words.new draft.new ≡ made.add_branch (drawn_of words.old draft.old) test to other) }
{
    let from = draft.node(Node::Plain)?;
    draft.edge_if(from, to, Operation::Assume(test))?;
    let not = words.not(test)?;
    draft.edge_if(from, other, Operation::Assume(not))?;
    Ok(())
}

/// The node of a skip where a slot's value is 0.
pub(crate) fn add_skip_zero(
    slot: usize,
    next: NodeId,
    to: NodeId,
    ground: &Ground<'_>,
    words: &mut Words,
    draft: &mut Draft,
) -> Result<(), Memory>
    ensures built { Stands (setting_of ground.now) words.old
        → IfOk result (λ u. Grows words.old words.new × Built draft.old draft.new (Fork words.new.terms (λ store. nonzero (slot_value (setting_of ground.now) store slot)) next to)) }
    ensures made { IfOk result (λ u. drawn_of words.new draft.new ≡ made.add_skip_zero (site_of (setting_of ground.now)) (drawn_of words.old draft.old) slot next to) }
{
    let value = ground.slot(words, slot)?;
    let is_zero = words.is_zero(value)?;
    let is_true = words.not(is_zero)?;
    add_branch(words, draft, is_true, next, to)
}

/// The node of a skip where a slot has a value.
pub(crate) fn add_skip_equal(
    slot: usize,
    value: i128,
    next: NodeId,
    to: NodeId,
    ground: &Ground<'_>,
    words: &mut Words,
    draft: &mut Draft,
) -> Result<(), Memory>
    ensures built { Stands (setting_of ground.now) words.old
        → IfOk result (λ u. Grows words.old words.new × Built draft.old draft.new (Fork words.new.terms (λ store. truth (slot_value (setting_of ground.now) store slot == residue 64 value)) to next)) }
    ensures made { IfOk result (λ u. drawn_of words.new draft.new ≡ made.add_skip_equal (site_of (setting_of ground.now)) (drawn_of words.old draft.old) slot value next to) }
{
    let held = ground.slot(words, slot)?;
    let wanted = words.constant(value)?;
    let is_equal = words.equal(held, wanted)?;
    add_branch(words, draft, is_equal, to, next)
}

// The error of a check, to which an edge leads from a node; answers the term that is 1 where the check passes.
fn add_check(
    words: &mut Words,
    draft: &mut Draft,
    from: NodeId,
    fails: Fails,
    at: u32,
) -> Result<TermId, Memory>
    ensures passes { (f : List ℕ → ℕ) → Tells words.old.terms fails.when 1 f
        → IfOk result (λ t. Grows words.old words.new × IsTurned words.new.terms t fails.when) }
    ensures adds { IfOk result (λ t. Adds draft.old draft.new (Node.Error fails.kind at ∷ []) (edge from (node_id (next_of draft.old)) (Operation.Assume fails.when ∷ []) ∷ [])) }
    ensures made { IfOk result (λ t. (drawn_of words.new draft.new, t) ≡ made.add_check (drawn_of words.old draft.old) from fails at) }
{
    draft.error(from, Operation::Assume(fails.when), fails.kind, at)?;
    let passed = words.not(fails.when)?;
    Ok(passed)
}

// The edge of an instruction from its last node on: what it does, behind these operations.
fn add_last(
    alloc: Global,
    instruction: Instruction,
    from: NodeId,
    next: NodeId,
    ground: &Ground<'_>,
    words: &mut Words,
    draft: &mut Draft,
    first: Vec<Operation>,
) -> Result<(), Memory>
    ensures goes { Stands (setting_of ground.now) words.old
        → IfOk result (λ u. Grows words.old words.new × Goes (setting_of ground.now) words.new.terms draft.old draft.new instruction from next first.items) }
    ensures made { IfOk result (λ u. drawn_of words.new draft.new ≡ made.add_last (site_of (setting_of ground.now)) (drawn_of words.old draft.old) instruction from next first.items) }
{
    let mut moves = Vec::new(alloc);
    ground.moves(words, instruction, &mut moves)?;
    let mut ops = first;
    ops.extend_from_slice(&moves)?;
    draft.edge(from, next, ops)?;
    Ok(())
}

// One check, and then what the instruction does.
fn checked_once(
    alloc: Global,
    instruction: Instruction,
    next: NodeId,
    fails: Fails,
    ground: &Ground<'_>,
    words: &mut Words,
    draft: &mut Draft,
) -> Result<(), Memory>
    ensures built { (f : List ℕ → ℕ) → Stands (setting_of ground.now) words.old → Tells words.old.terms fails.when 1 f
        → IfOk result (λ u. Grows words.old words.new × Built draft.old draft.new (Behind (setting_of ground.now) words.new.terms instruction next (Tests.One fails))) }
    ensures made { IfOk result (λ u. drawn_of words.new draft.new ≡ made.checked_once (site_of (setting_of ground.now)) (drawn_of words.old draft.old) instruction next fails) }
{
    let from = draft.node(Node::Plain)?;
    let passed = add_check(words, draft, from, fails, offset_of(instruction))?;
    let mut ops = Vec::new(alloc);
    ops.push(Operation::Assume(passed))?;
    add_last(alloc, instruction, from, next, ground, words, draft, ops)?;
    Ok(())
}

// Two checks one after the other, and then what the instruction does.
fn checked_twice(
    alloc: Global,
    instruction: Instruction,
    next: NodeId,
    first: Fails,
    second: Fails,
    ground: &Ground<'_>,
    words: &mut Words,
    draft: &mut Draft,
) -> Result<(), Memory>
    ensures built { (f h : List ℕ → ℕ) → Stands (setting_of ground.now) words.old → Tells words.old.terms first.when 1 f → Tells words.old.terms second.when 1 h
        → IfOk result (λ u. Grows words.old words.new × Built draft.old draft.new (Behind (setting_of ground.now) words.new.terms instruction next (Tests.Two first second))) }
    ensures made { IfOk result (λ u. drawn_of words.new draft.new ≡ made.checked_twice (site_of (setting_of ground.now)) (drawn_of words.old draft.old) instruction next first second) }
{
    let at = offset_of(instruction);
    let from = draft.node(Node::Plain)?;
    let passed = add_check(words, draft, from, first, at)?;
    let between = draft.node(Node::Plain)?;
    draft.edge_if(from, between, Operation::Assume(passed))?;
    let last = add_check(words, draft, between, second, at)?;
    let mut ops = Vec::new(alloc);
    ops.push(Operation::Assume(last))?;
    add_last(alloc, instruction, between, next, ground, words, draft, ops)?;
    Ok(())
}

/// The node of an instruction that goes on behind itself, with its checks.
pub(crate) fn add_moves(
    alloc: Global,
    instruction: Instruction,
    next: NodeId,
    ground: &Ground<'_>,
    words: &mut Words,
    draft: &mut Draft,
) -> Result<(), Memory>
    ensures built { Stands (setting_of ground.now) words.old
        → IfOk result (λ u. Grows words.old words.new × Built draft.old draft.new (Checked (setting_of ground.now) words.new.terms instruction next)) }
    ensures made { IfOk result (λ u. drawn_of words.new draft.new ≡ made.add_moves (site_of (setting_of ground.now)) (drawn_of words.old draft.old) instruction next) }
{
    let tests = ground.checks(words, instruction)?;
    match tests {
        Tests::None => {
            let from = draft.node(Node::Plain)?;
            let ops = Vec::new(alloc);
            add_last(alloc, instruction, from, next, ground, words, draft, ops)
        }
        Tests::One(fails) => checked_once(alloc, instruction, next, fails, ground, words, draft),
        Tests::Two(first, second) => {
            checked_twice(
                alloc,
                instruction,
                next,
                first,
                second,
                ground,
                words,
                draft,
            )
        }
    }
}
