ghost use Rattle.std.specs.Prelude.{◌≡◌, IfOk};
ghost use Rattle.c_tree.specs.View as v;
ghost use Rattle.first_broken.specs.Seen as told;
ghost use Rattle.type_scopes.specs.Seen as seen;
ghost use Rattle.declaration_rules.specs.Mains as m;

use crate::agreement::same_result;
use c_tree::{Body, Function, Item, Parameters, Specs};
use first_broken::{Found, both, line, none};
use lv_base::{Kind, Memory, SourceFault};
use std::alloc::Global;
use type_kinds::kind_in;
use type_scopes::{Env, parameter_kinds, words_type};

fn is_wrong_main(
    alloc: Global,
    env: &Env<'_>,
    specs: &Specs,
    parameters: &Parameters,
) -> Result<bool, Memory>
    ensures { IfOk result (λ r. r ≡ m.is_wrong_main (seen.env_of env.now) (v.words_of specs.now) (v.parameters_of parameters.now)) }
{
    let kinds = parameter_kinds(alloc, env, parameters)?;
    let of = kind_in(words_type(env, specs));
    Ok(!(same_result(of, Some(Kind::Int)) && kinds.len() == 0))
}

fn or_nothing(all: Option<Found>) -> Found
    ensures { told.found_of result ≡ m.or_nothing (m.some_found all) }
{
    match all {
        None => none(),
        Some(found) => found,
    }
}

// One more `main`.
fn with_main(
    alloc: Global,
    env: &Env<'_>,
    all: Option<Found>,
    function: &Function,
) -> Result<Option<Found>, Memory>
    ensures { IfOk result (λ r. m.some_found r ≡ m.with_main (seen.env_of env.now) (m.some_found all) (v.words_of function.now.specs) function.now.name.at (v.parameters_of function.now.parameters)) }
{
    let wrong = is_wrong_main(alloc, env, &function.specs, &function.parameters)?;
    let own = line(wrong, SourceFault::NoMain, function.name.at);
    Ok(Some(both(or_nothing(all), own)))
}

fn is_main(function: &Function) -> bool
    ensures { result ≡ m.is_main (v.name_of function.now.name) }
{
    function.name.text.as_bytes() == b"main".as_slice()
}

fn with_function(
    alloc: Global,
    env: &Env<'_>,
    all: Option<Found>,
    function: &Function,
) -> Result<Option<Found>, Memory>
    ensures { IfOk result (λ r. m.some_found r ≡ m.with_function (seen.env_of env.now) (m.some_found all) (v.words_of function.now.specs) (v.name_of function.now.name) (v.parameters_of function.now.parameters) (v.body_of function.now.body)) }
{
    match &function.body {
        Body::Skipped(_, _, _) => Ok(all),
        Body::Block(_, _, _) => {
            if is_main(function) {
                with_main(alloc, env, all, function)
            } else {
                Ok(all)
            }
        }
    }
}

fn with_item(
    alloc: Global,
    env: &Env<'_>,
    all: Option<Found>,
    item: &Item,
) -> Result<Option<Found>, Memory>
    ensures { IfOk result (λ r. m.some_found r ≡ m.with_item (seen.env_of env.now) (m.some_found all) (v.item_of item.now)) }
{
    match item {
        Item::Skipped(_, _, _, _) => Ok(all),
        Item::Function(function) => with_function(alloc, env, all, function),
        Item::Declaration(_) => Ok(all),
        Item::Empty(_) => Ok(all),
    }
}

#[tactic(auto, using(crate::proofs::Rows::mains_more, std::proofs::lemmas::List::take_all))]
fn mains_in(alloc: Global, env: &Env<'_>, items: &[Item]) -> Result<Option<Found>, Memory>
    ensures { IfOk result (λ r. m.some_found r ≡ m.mains_in (seen.env_of env.now) (v.items_of items.now)) }
{
    let mut all: Option<Found> = None;
    for item in items {
        all = with_item(alloc, env, all, item)?;
    }
    Ok(all)
}

fn main_of(all: Option<Found>) -> Found
    ensures { told.found_of result ≡ m.main_of (m.some_found all) }
{
    match all {
        None => line(true, SourceFault::NoMain, 0),
        Some(found) => found,
    }
}

/// What is wrong with `main` (C11 5.1.2.2.1): it has a body, no parameters, and the result `int`. Where there is none, that is
/// told at offset 0.
///
/// Fails with `Memory`.
pub fn main_found(alloc: Global, env: &Env<'_>, items: &[Item]) -> Result<Found, Memory>
    ensures { IfOk result (λ r. told.found_of r ≡ m.main_found (seen.env_of env.now) (v.items_of items.now)) }
{
    let all = mains_in(alloc, env, items)?;
    Ok(main_of(all))
}
