ghost use Rattle.std.specs.Prelude.{◌≡◌, ◌⊎◌, None, Some, map, IfOk, MatchResult};
ghost use Rattle.c_tree.specs.View as v;
ghost use Rattle.first_broken.specs.Found.{summary};
ghost use Rattle.first_broken.specs.Seen as told;
ghost use Rattle.type_scopes.specs.Seen as seen;
ghost use Rattle.source_refusals.specs.Refusals as re;

use crate::cells::{Passed, limit_passed};
use c_tree::Unit;
use declaration_rules::{main_found, main_told, offsets, redeclared, summed, twice_told};
use first_broken::{Broken, Found, both, joined};
use lv_base::{Memory, Model, SourceFail};
use source_rules::{items_found, items_summed};
use std::alloc::Global;
use type_scopes::Env;
use typed_programs::names_of;
use typing_rules::Offsets;

/// All rules of names, types, calls, constants and cases that a source breaks, summed up.
///
/// Fails with `Memory`.
pub fn all_found(alloc: Global, env: &Env<'_>, model: Model, unit: &Unit) -> Result<Found, Memory>
    ensures { IfOk result (λ r. told.found_of r ≡ summary (re.faults_in (seen.env_of env.now) model (v.items_of unit.now.items.items))) }
{
    twice_told();
    main_told();
    items_summed();
    let bodies = names_of(alloc, &unit.items)?;
    let lines = redeclared(alloc, env, model)?;
    let again = Offsets::of(alloc, offsets(alloc, &lines)?)?;
    let items = items_found(alloc, env, model, &bodies, &again, &unit.items)?;
    let main = main_found(alloc, env, &unit.items)?;
    let twice = summed(&lines);
    Ok(both(both(items, twice), main))
}

fn over(passed: Passed) -> SourceFail
    ensures { result ≡ SourceFail.Over 4 passed.count }
{
    SourceFail::Over(4, passed.count)
}

fn fault(broken: Broken) -> SourceFail
    ensures { result ≡ SourceFail.Fault broken.fault broken.at }
{
    SourceFail::Fault(broken.fault, broken.at)
}

// The fault goes before the limit at one token.
fn first_of(broken: Broken, passed: Passed) -> SourceFail
    ensures { Some result ≡ re.refused (Some (told.broken_of broken)) (Some passed) }
{
    if broken.at <= passed.at {
        fault(broken)
    } else {
        over(passed)
    }
}

fn refused(broken: Option<Broken>, passed: Option<Passed>) -> Option<SourceFail>
    ensures { result ≡ re.refused (told.option_of broken) passed }
{
    match broken {
        None => match passed {
            None => None,
            Some(passed) => Some(over(passed)),
        },
        Some(broken) => match passed {
            None => Some(fault(broken)),
            Some(passed) => Some(first_of(broken, passed)),
        },
    }
}

/// Answers where a source, whose names stand for this, is not refused.
///
/// Fails with the first, by offset, of the rules of names, types, calls, constants and cases that it breaks, and of the limit
/// on cells; or with `Memory`.
pub fn decide(alloc: Global, env: &Env<'_>, model: Model, unit: &Unit) -> Result<(), SourceFail>
    ensures { MatchResult result
        (λ _. re.refusal_in (seen.env_of env.now) model (v.items_of unit.now.items.items) ≡ None)
        (λ fail. (fail ≡ SourceFail.Memory) ⊎ (re.refusal_in (seen.env_of env.now) model (v.items_of unit.now.items.items) ≡ Some fail)) }
{
    let found = all_found(alloc, env, model, unit)?;
    match refused(found.least, limit_passed(env)) {
        None => Ok(()),
        Some(fail) => Err(fail),
    }
}
