ghost use Rattle.std.specs.Prelude.{◌≡◌, ◌++◌, ◌<◌, ◌≤◌, length, map, IfOk, IfErr, OnErr, List};
ghost use Rattle.c_typed.specs.Parts.{tree_of};
ghost use Rattle.c_typed.specs.Rules as r;
ghost use Rattle.c_typed.specs.View as v;
ghost use Rattle.call_order.specs.Layers.{IsBounded};
ghost use Rattle.jump_rules.specs.Seen as jumps;
ghost use Rattle.first_broken.specs.Seen as lines;
ghost use Rattle.c_rules.specs.Examined as e;
ghost use Rattle.c_rules.specs.Gathered as g;
ghost use Rattle.c_rules.specs.Refusals.{IsRefused};
ghost use Rattle.c_rules.specs.Seen as seen;

use crate::examined::Examined;
use crate::label::LabelAt;
use c_typed::{Function, Typed, Value};
use call_order::{CallAt, calls_of, order_of, recursion_found};
use effect_rules::effects_found;
use first_broken::{Found, both, none};
use jump_rules::{Jump, jumps_found, walk_body};
use lv_base::{Memory, SourceFail, Text};
use std::alloc::Global;
use step_values::values_in_all;

// What the functions so far break, their labels, and the calls that each makes.
#[derive(Drop)]
struct Gathered {
    found: Found,
    labels: Vec<LabelAt>,
    calls: Vec<Vec<CallAt>>,
}

// What the values of a function break, and the calls in them.
#[derive(Drop)]
struct Checked {
    found: Found,
    calls: Vec<CallAt>,
}

fn nothing(alloc: Global) -> Gathered
    ensures { seen.gathering_of result ≡ g.nothing }
{
    Gathered {
        found: none(),
        labels: Vec::new(alloc),
        calls: Vec::new(alloc),
    }
}

// A number of a function. No memory holds as many as make it too great.
fn number_of(number: usize) -> Result<u32, Memory>
    ensures same { IfOk result (λ n. n ≡ number) }
    ensures cause { OnErr result (4294967296 ≤ number) }
{
    if number > u32::MAX as usize {
        return Err(Memory);
    }
    Ok(number as u32)
}

// The labels of a function.
fn add_labels(
    alloc: Global,
    all: &mut Vec<LabelAt>,
    function: u32,
    labels: &[Jump],
) -> Result<(), Memory>
    ensures { IfOk result (λ _. all.new.items ≡ all.old.items ++ e.labels_at function (jumps.jumps labels.now)) }
{
    for label in labels {
        let name = Text::copy_of(alloc, label.name.as_bytes())?;
        let at = label.named_at;
        all.push(LabelAt { function, name, at })?;
    }
    Ok(())
}

fn values_checked(alloc: Global, function: &Function) -> Result<Checked, Memory>
    ensures { IfOk result (λ x. seen.checked_of x ≡ g.values_checked (v.function_of function.now)) }
{
    let mut values: Vec<&Value> = Vec::new(alloc);
    values_in_all(&function.body, &mut values)?;
    let found = effects_found(alloc, &values)?;
    let calls = calls_of(alloc, &values)?;
    Ok(Checked { found, calls })
}

fn add_function(
    alloc: Global,
    gathered: &mut Gathered,
    number: usize,
    function: &Function,
) -> Result<(), Memory>
    ensures { IfOk result (λ _. seen.gathering_of gathered.new ≡ g.with_function (seen.gathering_of gathered.old) number (v.function_of function.now)) }
{
    let walk = walk_body(alloc, function.result, &function.body)?;
    let checked = values_checked(alloc, function)?;
    let jumps = jumps_found(alloc, &walk.labels, &walk.gotos)?;
    let own = both(both(jumps, walk.found), checked.found);
    let function = number_of(number)?;
    add_labels(alloc, &mut gathered.labels, function, &walk.labels)?;
    gathered.calls.push(checked.calls)?;
    gathered.found = both(gathered.found, own);
    Ok(())
}

fn gather(alloc: Global, functions: &[Function]) -> Result<Gathered, Memory>
    ensures { IfOk result (λ x. seen.gathering_of x ≡ g.gathering (map v.function_of functions.now)) }
{
    let mut gathered = nothing(alloc);
    for (i, function) in functions.iter().enumerate() {
        add_function(alloc, &mut gathered, i, function)?;
    }
    Ok(gathered)
}

// Together with the calls on cycles.
fn check(alloc: Global, functions: &[Function]) -> Result<Gathered, Memory>
    ensures { IfOk result (λ x. IsBounded (g.callees (map v.function_of functions.now)) → seen.gathering_of x ≡ g.checked (map v.function_of functions.now)) }
{
    let mut gathered = gather(alloc, functions)?;
    let cycles = recursion_found(alloc, &gathered.calls)?;
    gathered.found = both(gathered.found, cycles);
    Ok(gathered)
}

/// The first of the rules of faults 11 to 14 and 19 that these functions break, whose calls are all of functions among them.
///
/// Fails with `Memory` where there is no more memory.
pub fn faults_found(alloc: Global, functions: &[Function]) -> Result<Found, Memory>
    ensures { IfOk result (λ x. IsBounded (g.callees (map v.function_of functions.now)) → lines.found_of x ≡ (g.checked (map v.function_of functions.now)).found) }
{
    let checked = check(alloc, functions)?;
    Ok(checked.found)
}

/// The same tree, with its labels and an order of its functions in which each stands behind those that it calls.
///
/// Fails with `Fault` where a rule of faults 11 to 14 or 19 is broken: the first by offset, then by number. A label that is
/// missing or stands twice, a jump into the scope of a declaration, two effects that are not sequenced, a call on a cycle of
/// calls, or a `break`, `continue`, `case`, `default` or `return` out of its place. Fails with `Memory` where there is no more
/// memory, and never with `Over`. On a refusal the typed tree is dropped.
pub fn examine(alloc: Global, typed: Typed) -> Result<Examined, SourceFail>
    ensures ok { IfOk result (λ x. x.typed ≡ typed) }
    ensures refused { IfErr result (IsRefused (tree_of typed)) }
{
    let gathered = check(alloc, typed.functions())?;
    match gathered.found.least {
        Some(broken) => Err(SourceFail::Fault(broken.fault, broken.at)),
        None => {
            let order = order_of(alloc, &gathered.calls)?;
            Ok(Examined::new(typed, gathered.labels, order))
        }
    }
}
