ghost use Rattle.std.specs.Prelude.{◌≡◌, [], ◌∷◌, ◌-◌, length, pos, replicate, IfOk};
ghost use Rattle.std.specs.Option.{option_copied, option_map};
ghost use Rattle.lv_base.specs.Integers as int;
ghost use Rattle.c_tree.specs.View as v;
ghost use Rattle.c_run.specs.Run as run;
ghost use Rattle.c_meaning.specs.Constants as c;
ghost use Rattle.c_meaning.specs.Program as program;
ghost use Rattle.type_scopes.specs.Seen as seen;
ghost use Rattle.typed_programs.specs.Parts as part;

use c_tree::{Expr, Initial, Listed};
use lv_base::{Kind, Memory, Model, convert};
use std::alloc::Global;
use type_constants::constant;
use type_scopes::Env;

fn or_zero(value: Option<i128>) -> i128
    ensures { result ≡ c.or_zero value }
{
    match value {
        None => 0,
        Some(value) => value,
    }
}

// The value of a constant expression, converted to a kind.
fn constant_as(env: &Env<'_>, model: Model, kind: Kind, e: &Box<Expr>) -> i128
    ensures { result ≡ int.converted kind model (c.or_zero (c.constant_of (seen.env_of env.now) model (v.expr e.now.value))) }
{
    convert(or_zero(constant(env, model, e)), kind, model)
}

#[tactic(auto, using(std::proofs::lemmas::List::take_all))]
fn constants(
    alloc: Global,
    env: &Env<'_>,
    model: Model,
    kind: Kind,
    parts: &[Listed],
) -> Result<Vec<i128>, Memory>
    ensures { IfOk result (λ r. r.items ≡ program.constants (seen.env_of env.now) model kind (v.parts_of parts.now)) }
{
    let mut values = Vec::new(alloc);
    for part in parts {
        values.push(constant_as(env, model, kind, &part.value))?;
    }
    Ok(values)
}

fn zeros(alloc: Global, count: usize) -> Result<Vec<i128>, Memory>
    ensures { IfOk result (λ r. r.items ≡ replicate count (pos 0)) }
{
    let values = vec![in alloc; 0i128; count]?;
    Ok(values)
}

// How many are missing to so many.
fn missing(count: u32, length: usize) -> usize
    ensures { result ≡ count - length }
{
    if length < count as usize {
        count as usize - length
    } else {
        0
    }
}

// Values with zeros behind, up to so many.
fn padded(alloc: Global, values: Vec<i128>, count: u32) -> Result<Vec<i128>, Memory>
    ensures { IfOk result (λ r. r.items ≡ run.padded count values.items) }
{
    let mut values = values;
    let zeros = zeros(alloc, missing(count, values.len()))?;
    values.extend_from_slice(&zeros)?;
    Ok(values)
}

fn one_constant(
    alloc: Global,
    env: &Env<'_>,
    model: Model,
    kind: Kind,
    e: &Box<Expr>,
) -> Result<Vec<i128>, Memory>
    ensures { IfOk result (λ r. r.items ≡ int.converted kind model (c.or_zero (c.constant_of (seen.env_of env.now) model (v.expr e.now.value))) ∷ []) }
{
    let mut values = Vec::new(alloc);
    values.push(constant_as(env, model, kind, e))?;
    Ok(values)
}

/// The values that a static object of this kind and so many elements begins with (C11 6.7.9).
///
/// Fails with `Memory`.
pub fn initial_values(
    alloc: Global,
    env: &Env<'_>,
    model: Model,
    kind: Kind,
    count: u32,
    initial: &Initial,
) -> Result<Vec<i128>, Memory>
    ensures { IfOk result (λ r. r.items ≡ program.initial_values (seen.env_of env.now) model kind count (v.initial_of initial.now)) }
{
    match initial {
        Initial::Nothing => zeros(alloc, count as usize),
        Initial::Value(_, e) => one_constant(alloc, env, model, kind, e),
        Initial::List(_, _, parts, _, _) => {
            let values = constants(alloc, env, model, kind, parts)?;
            padded(alloc, values, count)
        }
    }
}

// Whether this is the object of this number.
/// The one initial value among the declarations of an object.
#[tactic(auto, using(crate::proofs::Rows::initial_is))]
pub fn initial_of<'a>(env: &Env<'a>, number: u32) -> Option<&'a Initial>
    ensures { part.or_nothing (option_map v.initial_of (option_copied result)) ≡ program.initial_of number (seen.env_of env.now).entries }
{
    env.entries.initial_of(number as usize)
}
