//! Which objects have a name at a loop, by the declarations of its source.
#![tactic(auto)]

ghost use Rattle.std.specs.Prelude.{◌≡◌, IfOk};
ghost use Rattle.type_scopes.specs.Seen as seen;
ghost use Rattle.loop_names.specs.Spellings.{means, spelled, spelling_of, spellings_of};

use lv_base::{Memory, Text};
use std::alloc::Global;
use type_scopes::{Env, Object, named_entity, object_number};
use witness_expressions::Spelling;

fn means(env: &Env<'_>, at: u32, name: &[u8], number: usize) -> bool
    ensures { result ≡ means (seen.env_of env.now) at name.now number }
{
    match object_number(named_entity(env, name, at)) {
        Some(found) => found as usize == number,
        None => false,
    }
}

fn by_name(alloc: Global, name: &[u8], length: Option<u64>) -> Result<Spelling, Memory>
    ensures { IfOk result (λ s. s ≡ spelled name.now length) }
{
    let name = Text::copy_of(alloc, name)?;
    match length {
        Some(_) => Ok(Spelling::Array(name)),
        None => Ok(Spelling::Scalar(name)),
    }
}

fn spelling(
    alloc: Global,
    env: &Env<'_>,
    keyword: u32,
    condition: u32,
    number: usize,
    object: &Object<'_>,
) -> Result<Spelling, Memory>
    ensures { IfOk result (λ s. s ≡ spelling_of (seen.env_of env.now) keyword condition number (seen.object_of object.now)) }
{
    if means(env, keyword, object.name, number) && means(env, condition, object.name, number) {
        by_name(alloc, object.name, object.length)
    } else {
        Ok(Spelling::Hidden)
    }
}

/// How the objects of a source are written at a loop, by number: by their names where these mean them both at the loop's keyword and where
/// its condition begins. A `for` without a condition has the offset of its second `;` in its place.
///
/// Fails with `Memory` where memory runs out.
pub fn spellings(
    alloc: Global,
    env: &Env<'_>,
    keyword: u32,
    condition: u32,
) -> Result<Vec<Spelling>, Memory>
    ensures { IfOk result (λ v. v.items ≡ spellings_of (seen.env_of env.now) keyword condition) }
{
    let mut spellings = Vec::new(alloc);
    for (number, object) in env.objects.iter().enumerate() {
        spellings.push(spelling(alloc, env, keyword, condition, number, object)?)?;
    }
    Ok(spellings)
}
