ghost use Rattle.std.specs.Prelude.{◌≡◌, IfOk, string_bytes};
ghost use Rattle.trace_texts.specs.Lines as lines;

use lv_base::{Memory, Place};
use std::alloc::Global;

/// What stands in front of a line: its place, or a question mark where that is not known.
pub fn front(alloc: Global, place: Option<Place>) -> Result<String, Memory>
    ensures { IfOk result (λ s. string_bytes s ≡ lines.front place) }
{
    match place {
        Some(place) => {
            let (line, column) = (place.line, place.column);
            Ok(format!(in alloc; "{line}:{column}: ")?)
        }
        None => Ok(String::from_str(alloc, "?: ")?),
    }
}

/// A scalar's name, or that of an array with an index.
pub fn element_text(alloc: Global, name: &str, index: Option<u128>) -> Result<String, Memory>
    ensures { IfOk result (λ s. string_bytes s ≡ lines.element_text name.now index) }
{
    match index {
        None => Ok(String::from_str(alloc, name)?),
        Some(index) => Ok(format!(in alloc; "{name}[{index}]")?),
    }
}

/// A call drew a value.
pub fn drawn(alloc: Global, at: &str, name: &str, value: i128) -> Result<String, Memory>
    ensures { IfOk result (λ s. string_bytes s ≡ lines.drawn at.now name.now value) }
{
    Ok(format!(in alloc; "{at}{name}() gives {value}\n")?)
}

/// A local object without an initial value: its kind and its name.
pub fn valueless_text(alloc: Global, kind: &str, object: &str) -> Result<String, Memory>
    ensures { IfOk result (λ s. string_bytes s ≡ lines.valueless_text kind.now object.now) }
{
    Ok(format!(in alloc; "{kind} {object} has no value")?)
}

/// What has no value drew one.
pub fn valued(alloc: Global, at: &str, valueless: &str, value: i128) -> Result<String, Memory>
    ensures { IfOk result (λ s. string_bytes s ≡ lines.valued at.now valueless.now value) }
{
    Ok(format!(in alloc; "{at}{valueless}: {value}\n")?)
}

/// An object got a value.
pub fn assigned(alloc: Global, at: &str, object: &str, value: i128) -> Result<String, Memory>
    ensures { IfOk result (λ s. string_bytes s ≡ lines.assigned at.now object.now value) }
{
    Ok(format!(in alloc; "{at}{object} = {value}\n")?)
}

/// A parameter got the value of its argument.
pub fn bound(alloc: Global, at: &str, name: &str, value: i128) -> Result<String, Memory>
    ensures { IfOk result (λ s. string_bytes s ≡ lines.bound at.now name.now value) }
{
    Ok(format!(in alloc; "{at}parameter {name} = {value}\n")?)
}

/// A condition was decided.
pub fn decided(alloc: Global, at: &str, condition: &str, holds: bool) -> Result<String, Memory>
    ensures { IfOk result (λ s. string_bytes s ≡ lines.decided at.now condition.now holds) }
{
    let truth = if holds { " is true" } else { " is false" };
    Ok(format!(in alloc; "{at}{condition}{truth}\n")?)
}

/// A loop without a condition goes on.
pub fn undecided(alloc: Global, at: &str) -> Result<String, Memory>
    ensures { IfOk result (λ s. string_bytes s ≡ lines.undecided at.now) }
{
    Ok(format!(in alloc; "{at}the loop has no condition\n")?)
}

/// The value of a `switch` is that of a case.
pub fn met(alloc: Global, at: &str, value: i128) -> Result<String, Memory>
    ensures { IfOk result (λ s. string_bytes s ≡ lines.met at.now value) }
{
    Ok(format!(in alloc; "{at}case {value}\n")?)
}

/// A function was called.
pub fn called(alloc: Global, at: &str, name: &str) -> Result<String, Memory>
    ensures { IfOk result (λ s. string_bytes s ≡ lines.called at.now name.now) }
{
    Ok(format!(in alloc; "{at}call of {name}\n")?)
}

/// A function returned, with a value or without one.
pub fn returned(alloc: Global, at: &str, name: &str, value: Option<i128>) -> Result<String, Memory>
    ensures { IfOk result (λ s. string_bytes s ≡ lines.returned at.now name.now value) }
{
    match value {
        Some(value) => Ok(format!(in alloc; "{at}{name} returns {value}\n")?),
        None => Ok(format!(in alloc; "{at}{name} returns\n")?),
    }
}

/// Events were left out.
pub fn left_out(alloc: Global, count: u64) -> Result<String, Memory>
    ensures { IfOk result (λ s. string_bytes s ≡ lines.left_out count) }
{
    Ok(format!(in alloc; "{count} events before these are left out\n")?)
}
