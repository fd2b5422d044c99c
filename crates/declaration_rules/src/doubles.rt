ghost use Rattle.std.specs.Prelude.{◌≡◌, ◌++◌, [], Some, length, map, slice_get, take, IfOk};
ghost use Rattle.c_run.specs.Breaking as br;
ghost use Rattle.c_meaning.specs.Bindings as b;
ghost use Rattle.c_meaning.specs.Scope as s;
ghost use Rattle.first_broken.specs.Found.{summary};
ghost use Rattle.first_broken.specs.Seen as told;
ghost use Rattle.type_scopes.specs.Seen as seen;
ghost use Rattle.typed_values.specs.Made as made;
ghost use Rattle.declaration_rules.specs.Earlier as p;
ghost use Rattle.declaration_rules.specs.Twice as t;

use crate::earlier::{Past, clashes_before, pasts_of};
use first_broken::{Broken, Found, both, line, none};
use lv_base::{Kind, Memory, Model, SourceFault};
use std::alloc::Global;
use type_kinds::kind_in;
use type_scopes::{Entry, Env, What, parameter_kinds, words_type};
use typed_values::{Known, known_of};

fn is_known_right(known: Known, of: Option<Kind>) -> bool
    ensures { result ≡ t.is_known_right (made.means known) of }
{
    match known {
        Known::Reaches => of.is_none(),
        Known::Aborts => of.is_none(),
        Known::Draws(_) => of.is_some(),
    }
}

fn may_have_body(known: Known) -> bool
    ensures { result ≡ t.may_have_body (made.means known) }
{
    match known {
        Known::Reaches => true,
        Known::Aborts => false,
        Known::Draws(_) => false,
    }
}

// What means something without a body is declared otherwise.
fn is_known_wrong(known: Option<Known>, of: Option<Kind>, count: usize, has_body: bool) -> bool
    ensures { result ≡ t.is_known_wrong (made.some_known known) of count has_body }
{
    match known {
        None => false,
        Some(known) => {
            !(is_known_right(known, of) && count == 0 && (may_have_body(known) || !has_body))
        }
    }
}

fn is_declared_wrong(
    alloc: Global,
    env: &Env<'_>,
    name: &[u8],
    what: &What<'_>,
) -> Result<bool, Memory>
    ensures { IfOk result (λ r. r ≡ t.is_named_wrong (seen.env_of env.now) name.now (seen.what_of what.now)) }
{
    match what {
        What::Function(specs, parameters, body) => {
            let kinds = parameter_kinds(alloc, env, parameters)?;
            let of = kind_in(words_type(env, specs));
            Ok(is_known_wrong(known_of(name), of, kinds.len(), *body))
        }
        What::Object(_, _, _) => Ok(false),
        What::Parameter(_) => Ok(false),
        What::Typedef(_) => Ok(false),
        What::Constant(_) => Ok(false),
        What::Tag(_) => Ok(false),
        What::Name(_) => Ok(false),
    }
}

#[tactic(auto, using(crate::proofs::Rows::lines_push))]
fn add_line(lines: &mut Vec<Broken>, test: bool, at: u32) -> Result<(), Memory>
    ensures { IfOk result (λ _. map told.broken_of lines.new.items ≡ map told.broken_of lines.old.items ++ t.again test at) }
{
    if test {
        lines.push(Broken {
            fault: SourceFault::Redeclared,
            at,
        })?;
    }
    Ok(())
}

fn add_lines(
    alloc: Global,
    env: &Env<'_>,
    model: Model,
    place: usize,
    entry: &Entry<'_>,
    pasts: &[Past],
    lines: &mut Vec<Broken>,
) -> Result<(), Memory>
    requires at { slice_get env.now.entries place ≡ Some entry.now }
    requires known { p.ArePasts (seen.env_of env.now) model (length env.now.entries) pasts.now }
    ensures { IfOk result (λ _. map told.broken_of lines.new.items ≡ map told.broken_of lines.old.items ++ t.lines_of (seen.env_of env.now) model (take place (seen.env_of env.now).entries) (seen.entry_of entry.now)) }
{
    let test = clashes_before(env, model, place, entry, pasts);
    add_line(lines, test, entry.at)?;
    let wrong = is_declared_wrong(alloc, env, entry.name, &entry.what)?;
    add_line(lines, wrong, entry.at)
}

fn add_lines_at(
    alloc: Global,
    env: &Env<'_>,
    model: Model,
    place: usize,
    pasts: &[Past],
    lines: &mut Vec<Broken>,
) -> Result<(), Memory>
    requires { p.ArePasts (seen.env_of env.now) model (length env.now.entries) pasts.now }
    ensures { IfOk result (λ _. map told.broken_of lines.new.items ≡ map told.broken_of lines.old.items ++ t.lines_at (seen.env_of env.now) model (take place (seen.env_of env.now).entries) (slice_get (seen.env_of env.now).entries place)) }
{
    match env.entries.get(place) {
        None => Ok(()),
        Some(entry) => add_lines(alloc, env, model, place, entry, pasts, lines),
    }
}

/// The names that are declared a second time in their scopes where that is not allowed, and the functions that mean something
/// without a body and are declared otherwise, in the order of the declarations.
///
/// Fails with `Memory`.
#[tactic(auto, using(crate::proofs::Twins::twice_more))]
pub fn redeclared(alloc: Global, env: &Env<'_>, model: Model) -> Result<Vec<Broken>, Memory>
    ensures { IfOk result (λ r. map told.broken_of r.items ≡ t.twice (seen.env_of env.now) model [] (seen.env_of env.now).entries) }
{
    let pasts = pasts_of(alloc, env, model)?;
    let mut found = Vec::new(alloc);
    for place in 0..env.entries.len() {
        add_lines_at(alloc, env, model, place, &pasts, &mut found)?;
    }
    Ok(found)
}

/// The sum of some lines.
#[tactic(auto, using(crate::proofs::Rows::summed_more, std::proofs::lemmas::List::take_all))]
pub fn summed(lines: &[Broken]) -> Found
    ensures { told.found_of result ≡ summary (map told.broken_of lines.now) }
{
    let mut all = none();
    for broken in lines {
        all = both(all, line(true, broken.fault, broken.at));
    }
    all
}

/// Where some lines are broken.
///
/// Fails with `Memory`.
#[tactic(auto, using(crate::proofs::Rows::offsets_more, std::proofs::lemmas::List::take_all))]
pub fn offsets(alloc: Global, lines: &[Broken]) -> Result<Vec<u32>, Memory>
    ensures { IfOk result (λ r. r.items ≡ map (λ (b : br.Broken). b.at) (map told.broken_of lines.now)) }
{
    let mut list = Vec::new(alloc);
    for broken in lines {
        list.push(broken.at)?;
    }
    Ok(list)
}
