ghost use Rattle.std.specs.Prelude.{◌≡◌, IfOk};
ghost use Rattle.c_tree.specs.Tree as t;
ghost use Rattle.c_tree.specs.View as v;
ghost use Rattle.first_broken.specs.Seen as lines;
ghost use Rattle.type_scopes.specs.Seen as seen;
ghost use Rattle.source_rules.specs.Summed as a;

use crate::declarations::{declaration_found, parameters_found, specs_found};
use crate::statements::statements_found;
use c_tree::{Body, Function, Item};
use first_broken::{Found, both, none};
use lv_base::{Kind, Memory, Model, Text};
use std::alloc::Global;
use type_kinds::kind_in;
use type_scopes::{Env, words_type};
use typing_rules::Offsets;

fn body_found(
    alloc: Global,
    env: &Env<'_>,
    model: Model,
    bodies: &[Text],
    again: &Offsets,
    kind: Option<Kind>,
    body: &Body,
) -> Result<Found, Memory>
    ensures { IfOk result (λ r. lines.found_of r ≡ a.body_all (seen.env_of env.now) model bodies.now again.now kind (v.body_of body.now)) }
{
    match body {
        Body::Block(_, list, _) => statements_found(alloc, env, model, bodies, again, kind, list),
        Body::Skipped(_, _, _) => Ok(none()),
    }
}

fn function_found(
    alloc: Global,
    env: &Env<'_>,
    model: Model,
    bodies: &[Text],
    again: &Offsets,
    function: &Function,
) -> Result<Found, Memory>
    ensures { IfOk result (λ r. lines.found_of r ≡ a.function_all (seen.env_of env.now) model bodies.now again.now (v.words_of function.now.specs) (v.parameters_of function.now.parameters) (v.body_of function.now.body)) }
{
    let kind = kind_in(words_type(env, &function.specs));
    let inner = body_found(alloc, env, model, bodies, again, kind, &function.body)?;
    let spoken = specs_found(env, model, bodies, again, &function.specs);
    let named = parameters_found(env, model, bodies, again, &function.parameters);
    Ok(both(both(spoken, named), inner))
}

fn item_found(
    alloc: Global,
    env: &Env<'_>,
    model: Model,
    bodies: &[Text],
    again: &Offsets,
    item: &Item,
) -> Result<Found, Memory>
    ensures { IfOk result (λ r. lines.found_of r ≡ a.item_all (seen.env_of env.now) model bodies.now again.now (v.item_of item.now)) }
{
    match item {
        Item::Skipped(_, _, _, _) => Ok(none()),
        Item::Function(function) => function_found(alloc, env, model, bodies, again, function),
        Item::Declaration(declaration) => {
            Ok(declaration_found(env, model, bodies, again, true, declaration))
        }
        Item::Empty(_) => Ok(none()),
    }
}

/// The rules of names, types, calls, constants and cases that the items of a source break, but for names that are declared
/// twice and for `main`. `bodies` are the names of the functions that have a body, `again` the offsets of the names that are
/// declared a second time in their scopes.
///
/// Fails with `Memory` where there is no more memory for the cases of a switch.
#[tactic(auto, using(crate::proofs::Rows::items_more, std::proofs::lemmas::List::take_all))]
pub fn items_found(
    alloc: Global,
    env: &Env<'_>,
    model: Model,
    bodies: &[Text],
    again: &Offsets,
    items: &[Item],
) -> Result<Found, Memory>
    ensures { IfOk result (λ r. lines.found_of r ≡ a.items_all (seen.env_of env.now) model bodies.now again.now (v.items_of items.now)) }
{
    let mut all = none();
    for item in items {
        let own = item_found(alloc, env, model, bodies, again, item)?;
        all = both(all, own);
    }
    Ok(all)
}
