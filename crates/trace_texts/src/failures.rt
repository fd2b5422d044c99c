ghost use Rattle.std.specs.Prelude.{◌≡◌, IfOk, string_bytes};
ghost use Rattle.trace_texts.specs.Failures as failures;

use crate::names::{crement_text, operator_text};
use c_tree::{BinaryOp, Crement};
use lv_base::{ErrorKind, Memory};
use std::alloc::Global;

/// The operation that failed, with its operands.
pub fn operated(alloc: Global, left: i128, op: BinaryOp, right: i128) -> Result<String, Memory>
    ensures { IfOk result (λ s. string_bytes s ≡ failures.operated left op right) }
{
    let op = operator_text(op);
    Ok(format!(in alloc; "{left} {op} {right}")?)
}

/// The `++` or `--` that failed, with the value before it.
pub fn changed(alloc: Global, by: Crement, value: i128) -> Result<String, Memory>
    ensures { IfOk result (λ s. string_bytes s ≡ failures.changed by value) }
{
    let by = crement_text(by);
    Ok(format!(in alloc; "{by} of {value}")?)
}

/// An index outside its array.
pub fn no_element(alloc: Global, name: &str, index: i128, count: usize) -> Result<String, Memory>
    ensures { IfOk result (λ s. string_bytes s ≡ failures.no_element name.now index count) }
{
    Ok(format!(in alloc; "{name}[{index}], of {count} elements")?)
}

/// A value that a function did not return.
pub fn absent(alloc: Global, name: &str) -> Result<String, Memory>
    ensures { IfOk result (λ s. string_bytes s ≡ failures.absent name.now) }
{
    Ok(format!(in alloc; "{name} returned no value")?)
}

/// The minus that failed, with its operand.
pub fn negated(alloc: Global, value: i128) -> Result<String, Memory>
    ensures { IfOk result (λ s. string_bytes s ≡ failures.negated value) }
{
    Ok(format!(in alloc; "-({value})")?)
}

/// A value that is none of a kind.
pub fn unfit(alloc: Global, value: i128, kind: &str) -> Result<String, Memory>
    ensures { IfOk result (λ s. string_bytes s ≡ failures.unfit value kind.now) }
{
    Ok(format!(in alloc; "{value} is no {kind}")?)
}

/// What the run asks for that is not given.
pub fn wanting(alloc: Global, at: &str, what: &str) -> Result<String, Memory>
    ensures { IfOk result (λ s. string_bytes s ≡ failures.wanting at.now what.now) }
{
    Ok(format!(in alloc; "{at}{what}\n")?)
}

/// An error, with what failed.
pub fn broken(alloc: Global, at: &str, kind: ErrorKind, what: &str) -> Result<String, Memory>
    ensures { IfOk result (λ s. string_bytes s ≡ failures.broken at.now kind what.now) }
{
    let kind = kind.name();
    Ok(format!(in alloc; "{at}{kind}: {what}\n")?)
}

/// A mark behind so many columns.
pub fn caret(alloc: Global, columns: usize) -> Result<String, Memory>
    ensures { IfOk result (λ s. string_bytes s ≡ failures.caret columns) }
{
    let mut text = String::new(alloc);
    for _ in 0..columns {
        text.push_str(" ")?;
    }
    text.push_str("^\n")?;
    Ok(text)
}
