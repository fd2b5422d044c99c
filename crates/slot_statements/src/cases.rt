ghost use Rattle.std.specs.Prelude.{◌≡◌, ◌++◌, IfOk, length};
ghost use Rattle.slot_code.specs.Statements as c;
ghost use Rattle.slot_statements.specs.Casing as casing;
ghost use Rattle.slot_statements.specs.Seen as seen;

use crate::marks::{Mark, Name};
use lv_base::{Kind, Memory, Model, convert};
use slot_code::Instruction;
use slot_values::{add, after, distance};
use std::alloc::Global;

// One instruction for a `case`, none for another place.
fn case_count(mark: Mark<'_>) -> usize
    ensures { result ≡ casing.case_count (seen.mark_of mark.entry) }
{
    match mark.name {
        Name::Label(_) => 0,
        Name::Case(_) => 1,
        Name::Default => 0,
    }
}

/// How many cases there are.
pub(crate) fn cases_count(marks: &[Mark<'_>]) -> Result<usize, Memory>
    ensures { IfOk result (λ n. n ≡ casing.cases_count (seen.marks_of marks.now)) }
{
    let mut count = 0;
    for mark in marks {
        count = after(count, case_count(*mark))?;
    }
    Ok(count)
}

// Tries a case, before so many others.
fn add_case(
    model: Model,
    slot: usize,
    kind: Kind,
    left: usize,
    mark: Mark<'_>,
    code: &mut Vec<Instruction>,
) -> Result<(), Memory>
    ensures { IfOk result (λ _. code.new.items ≡ code.old.items ++ casing.case_code model slot kind left (seen.mark_of mark.entry)) }
{
    match mark.name {
        Name::Label(_) => Ok(()),
        Name::Case(value) => {
            let skip = distance(after(after(left, 1)?, mark.place)?)?;
            let value = convert(value, kind, model);
            add(code, Instruction::SkipEqual(slot, value, skip))
        }
        Name::Default => Ok(()),
    }
}

/// Tries the cases in their order; behind the tries and one more jump stands the body.
pub(crate) fn cases_code(
    alloc: Global,
    model: Model,
    slot: usize,
    kind: Kind,
    marks: &[Mark<'_>],
) -> Result<Vec<Instruction>, Memory>
    ensures { IfOk result (λ r. r.items ≡ c.cases_code model slot kind (seen.marks_of marks.now)) }
{
    let mut code = Vec::new(alloc);
    let mut left = cases_count(marks)?;
    for mark in marks {
        left = left.saturating_sub(case_count(*mark));
        add_case(model, slot, kind, left, *mark, &mut code)?;
    }
    Ok(code)
}
