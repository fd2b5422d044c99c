ghost use Rattle.std.specs.Prelude.{◌≡◌, [], ◌∷◌, ◌++◌, IfOk};
ghost use Rattle.c_tree.specs.View as v;
ghost use Rattle.typed_programs.specs.Parts as part;

use c_tree::{Body, Function, Item};
use lv_base::{Memory, Text};
use std::alloc::Global;

fn add_name(alloc: Global, names: &mut Vec<Text>, name: &[u8]) -> Result<(), Memory>
    ensures { IfOk result (λ _. names.new.items ≡ names.old.items ++ name.now ∷ []) }
{
    let name = Text::copy_of(alloc, name)?;
    names.push(name)?;
    Ok(())
}

fn add_function_name(
    alloc: Global,
    names: &mut Vec<Text>,
    function: &Function,
) -> Result<(), Memory>
    ensures { IfOk result (λ _. names.new.items ≡ names.old.items ++ part.name_in (v.name_of function.now.name) (v.body_of function.now.body)) }
{
    match &function.body {
        Body::Skipped(_, _, _) => Ok(()),
        Body::Block(_, _, _) => add_name(alloc, names, function.name.text.as_bytes()),
    }
}

fn add_item_name(alloc: Global, names: &mut Vec<Text>, item: &Item) -> Result<(), Memory>
    ensures { IfOk result (λ _. names.new.items ≡ names.old.items ++ part.names_in (v.item_of item.now)) }
{
    match item {
        Item::Skipped(_, _, _, _) => Ok(()),
        Item::Function(function) => add_function_name(alloc, names, function),
        Item::Declaration(_) => Ok(()),
        Item::Empty(_) => Ok(()),
    }
}

/// The names of the functions with a body, by number.
///
/// Fails with `Memory`.
#[tactic(auto, using(crate::proofs::Rows::names_more, std::proofs::lemmas::List::take_all))]
pub fn names_of(alloc: Global, items: &[Item]) -> Result<Vec<Text>, Memory>
    ensures { IfOk result (λ r. r.items ≡ part.names_of (v.items_of items.now)) }
{
    let mut names = Vec::new(alloc);
    for item in items {
        add_item_name(alloc, &mut names, item)?;
    }
    Ok(names)
}
