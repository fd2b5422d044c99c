//! The `while` and `for` loops of `main`.

ghost use Rattle.std.specs.Prelude.{◌≡◌, ◌++◌, ◌∷◌, [], IfOk, OnOk};
ghost use Rattle.c_tree.specs.View as v;
ghost use Rattle.witness_places.specs.Loops as l;

use c_tree::{Body, Expr, ForHead, Function, Head, Item, Statement, Unit};
use lv_base::Memory;
use std::alloc::Global;
use tree_places::first_of;

/// A loop, by the offsets of its keyword and of the token at which its condition begins. A `for` without a condition has that of its
/// second `;` in its place.
#[derive(Clone, Copy)]
pub struct LoopPlace {
    pub keyword: u32,
    pub condition: u32,
}

fn while_place(head: &Head) -> LoopPlace
    ensures { result ≡ l.while_place (v.head_of head.now) }
{
    LoopPlace {
        keyword: head.at,
        condition: first_of(&head.condition),
    }
}

fn test_place(test: &Option<Box<Expr>>, semicolon: u32) -> u32
    ensures { result ≡ l.test_place (v.option_expr test.now) semicolon }
{
    match test {
        Some(test) => first_of(test),
        None => semicolon,
    }
}

fn for_place(head: &ForHead) -> LoopPlace
    ensures { result ≡ l.for_place (v.for_head_of head.now) }
{
    LoopPlace {
        keyword: head.at,
        condition: test_place(&head.test, head.semicolon),
    }
}

fn put(found: &mut Vec<LoopPlace>, place: LoopPlace) -> Result<(), Memory>
    ensures { OnOk result (found.new.items ≡ found.old.items ++ (place ∷ [])) }
{
    found.push(place)?;
    Ok(())
}

#[cycle(loop_walk)]
fn put_loop(
    found: &mut Vec<LoopPlace>,
    place: LoopPlace,
    inner: &Box<Statement>,
) -> Result<(), Memory>
    ensures { OnOk result (found.new.items ≡ l.loops_behind (found.old.items ++ (place ∷ [])) (v.statement inner.now.value)) }
{
    put(found, place)?;
    put_loops(found, inner)
}

#[cycle(loop_walk)]
fn put_block(found: &mut Vec<LoopPlace>, statements: &Vec<Statement>) -> Result<(), Memory>
    ensures { OnOk result (found.new.items ≡ l.all_behind found.old.items (v.statements_of statements.now.items)) }
{
    put_all(found, statements)
}

#[cycle(loop_walk)]
fn put_loops(found: &mut Vec<LoopPlace>, statement: &Statement) -> Result<(), Memory>
    ensures { OnOk result (found.new.items ≡ l.loops_behind found.old.items (v.statement statement.now)) }
{
    match statement {
        Statement::Block(_, statements, _) => put_block(found, statements),
        Statement::If(_, inner) => put_loops(found, inner),
        Statement::IfElse(_, first, _, second) => {
            put_loops(found, first)?;
            put_loops(found, second)
        }
        Statement::While(head, inner) => put_loop(found, while_place(head), inner),
        Statement::For(head, inner) => put_loop(found, for_place(head), inner),
        Statement::Switch(_, inner) => put_loops(found, inner),
        Statement::Do(_, inner, _, _) => put_loops(found, inner),
        Statement::Case(_, _, _, inner) => put_loops(found, inner),
        Statement::Default(_, _, inner) => put_loops(found, inner),
        Statement::Label(_, _, _, _, inner) => put_loops(found, inner),
        Statement::Declaration(_) => Ok(()),
        Statement::Empty(_) => Ok(()),
        Statement::Expr(_, _) => Ok(()),
        Statement::Goto(_, _, _, _) => Ok(()),
        Statement::Break(_, _) => Ok(()),
        Statement::Continue(_, _) => Ok(()),
        Statement::Return(_, _, _) => Ok(()),
    }
}

#[cycle(loop_walk)]
#[tactic(auto, using(crate::proofs::Rows::statements_more, std::proofs::lemmas::List::take_all))]
fn put_all(found: &mut Vec<LoopPlace>, statements: &[Statement]) -> Result<(), Memory>
    ensures { OnOk result (found.new.items ≡ l.all_behind found.old.items (v.statements_of statements.now)) }
{
    for statement in statements {
        put_loops(found, statement)?;
    }
    Ok(())
}

fn put_body(found: &mut Vec<LoopPlace>, function: &Function) -> Result<(), Memory>
    ensures { OnOk result (found.new.items ≡ l.body_behind found.old.items function.now.name.text (v.body_of function.now.body)) }
{
    match &function.body {
        Body::Block(_, statements, _) => {
            if function.name.text.as_bytes() == b"main".as_slice() {
                put_all(found, statements)
            } else {
                Ok(())
            }
        }
        Body::Skipped(_, _, _) => Ok(()),
    }
}

fn put_item(found: &mut Vec<LoopPlace>, item: &Item) -> Result<(), Memory>
    ensures { OnOk result (found.new.items ≡ l.item_behind found.old.items (v.item_of item.now)) }
{
    match item {
        Item::Function(function) => put_body(found, function),
        Item::Skipped(_, _, _, _) => Ok(()),
        Item::Declaration(_) => Ok(()),
        Item::Empty(_) => Ok(()),
    }
}

/// The `while` and `for` loops in the body of `main`, also those that stand in other statements, in the order of their offsets.
///
/// Fails with `Memory` where memory runs out. It calls itself once for a level of the tree.
#[tactic(auto, using(crate::proofs::Rows::items_more, std::proofs::lemmas::List::take_all))]
pub fn main_loops(alloc: Global, unit: &Unit) -> Result<Vec<LoopPlace>, Memory>
    ensures { IfOk result (λ found. found.items ≡ l.main_loops (v.items_of unit.now.items.items)) }
{
    let mut found = Vec::new(alloc);
    for item in &unit.items {
        put_item(&mut found, item)?;
    }
    Ok(found)
}
