//! Clauses, in which a 0 stands behind each, and assignments, which are given by the variables that are true.
//! `clauses CLAUSES = COUNT LITERALS`: they are reached by their numbers.
//! `resolve VARIABLE ; CLAUSE ; CLAUSE = LITERALS`, or `= none`.
//! `assignment VARIABLES ; VARIABLES ; LITERALS`: the variables in their order, and literals that are true, their negations
//! false.
//! `meets VARIABLES ; CLAUSES = yes ; ..`, or `= no`. `contains LITERALS ; LITERALS ; LITERALS`: those that a clause has, and
//! those that it lacks.
//! `limit BLOCK TIMES ; SIZE = LITERALS ; ..`: a clause of the size is refused with so many literals, or taken, `= ok`, behind
//! so many blocks.

use prop::{Assignment, BlastFail, Clauses, Lit, contains, resolve_on};
use row_text::{
    RowFail, Table, clauses_in, fields, half, halves, literal_rows, lits_in, number, numbers,
};
use std::alloc::Global;

// Whether each clause is the row of its number.
fn are_rows(clauses: &Clauses, rows: &[Vec<Lit>]) -> bool {
    let mut number = 0u32;
    for row in rows {
        if number >= clauses.len() || clauses.clause(number) != row.as_slice() {
            return false;
        }
        number = number.saturating_add(1);
    }
    number == clauses.len()
}

// Tries the row of a count.
fn has_counts(alloc: Global, rest: &str) -> Result<bool, RowFail> {
    let (text, counts) = halves(rest)?;
    let counts = numbers(alloc, counts)?;
    let clauses = clauses_in(alloc, text)?;
    let _ = clauses.allocator();
    Ok(
        counts.len() == 2
            && counts[0] == clauses.len()
            && u64::from(counts[1]) == clauses.literals()
            && clauses.is_empty() == (counts[0] == 0)
            && are_rows(&clauses, &literal_rows(alloc, text)?),
    )
}

// Tries the row of a step.
fn resolves(alloc: Global, rest: &str) -> Result<bool, RowFail> {
    let (words, wanted) = halves(rest)?;
    let mut parts = words.split(';');
    let var = number(Some(half(parts.next())?))?;
    let c = lits_in(alloc, half(parts.next())?)?;
    let d = lits_in(alloc, half(parts.next())?)?;
    match resolve_on(alloc, var, &c, &d)? {
        None => Ok(wanted == "none"),
        Some(found) => Ok(
            wanted != "none" && found.as_slice() == lits_in(alloc, wanted)?.as_slice(),
        ),
    }
}

// Whether these literals are true, and their negations false.
fn are_true(assignment: &Assignment, lits: &[Lit]) -> bool {
    for l in lits {
        if assignment.value(l.var) != l.positive
            || !assignment.literal(*l)
            || assignment.literal(l.negate())
        {
            return false;
        }
    }
    true
}

// Tries the row of an assignment.
fn assigns(alloc: Global, rest: &str) -> Result<bool, RowFail> {
    let mut parts = rest.split(';');
    let assignment = Assignment::from_trues(numbers(alloc, half(parts.next())?)?);
    let order = numbers(alloc, half(parts.next())?)?;
    let lits = lits_in(alloc, half(parts.next())?)?;
    Ok(assignment.trues() == order.as_slice() && are_true(&assignment, &lits))
}

// Whether an assignment meets a set as is stated; one clause alone is asked for too.
fn is_met(alloc: Global, assignment: &Assignment, part: &str) -> Result<bool, RowFail> {
    let (text, wanted) = halves(part)?;
    let clauses = clauses_in(alloc, text)?;
    let wanted = wanted == "yes";
    if clauses.len() == 1 && assignment.clause(clauses.clause(0)) != wanted {
        return Ok(false);
    }
    Ok(assignment.satisfies(&clauses) == wanted)
}

// Tries the row of sets that an assignment meets.
fn meets(alloc: Global, rest: &str) -> Result<bool, RowFail> {
    let Some((trues, sets)) = rest.split_once(';') else {
        return Err(RowFail::Bad);
    };
    let trues = numbers(alloc, trues)?;
    let assignment = if trues.is_empty() {
        Assignment::new(alloc)
    } else {
        Assignment::from_trues(trues)
    };
    for set in sets.split(';') {
        if !is_met(alloc, &assignment, set)? {
            return Ok(false);
        }
    }
    Ok(true)
}

// Tries the row of literals of a clause.
fn has_literals(alloc: Global, rest: &str) -> Result<bool, RowFail> {
    let mut parts = rest.split(';');
    let clause = lits_in(alloc, half(parts.next())?)?;
    let there = lits_in(alloc, half(parts.next())?)?;
    let lacking = lits_in(alloc, half(parts.next())?)?;
    Ok(
        there.iter().all(|l| contains(&clause, *l))
            && !lacking.iter().any(|l| contains(&clause, *l)),
    )
}

// A clause of so many literals.
fn block(alloc: Global, size: u32) -> Result<Vec<Lit>, RowFail> {
    let mut lits = Vec::new(alloc);
    for _ in 0..size {
        lits.push(Lit {
            var: 1,
            positive: true,
        })?;
    }
    Ok(lits)
}

// So many blocks.
fn blocks(alloc: Global, size: u32, times: u32) -> Result<Clauses, RowFail> {
    let lits = block(alloc, size)?;
    let mut clauses = Clauses::new(alloc);
    for _ in 0..times {
        clauses.push(&lits)?;
    }
    Ok(clauses)
}

// Whether one more clause is taken, or refused, as is stated.
fn is_pushed(alloc: Global, clauses: &mut Clauses, part: &str) -> Result<bool, RowFail> {
    let (size, wanted) = halves(part)?;
    let lits = block(alloc, number(Some(size))?)?;
    let before = clauses.len();
    match clauses.push(&lits) {
        Ok(()) => Ok(wanted == "ok" && before.checked_add(1) == Some(clauses.len())),
        Err(BlastFail::Over(count)) => {
            Ok(clauses.len() == before && count == u64::from(number(Some(wanted))?))
        }
        Err(BlastFail::Memory) => Err(RowFail::Memory),
    }
}

// Tries the row of the limit.
fn is_limit(alloc: Global, rest: &str) -> Result<bool, RowFail> {
    let Some((head, cases)) = rest.split_once(';') else {
        return Err(RowFail::Bad);
    };
    let (size, times) = fields(head);
    let mut clauses = blocks(alloc, number(Some(size))?, number(Some(times))?)?;
    for case in cases.split(';') {
        if !is_pushed(alloc, &mut clauses, case)? {
            return Ok(false);
        }
    }
    Ok(true)
}

/// Rows of clauses and assignments.
#[derive(Drop)]
pub(crate) struct ClauseRows;

impl Table for ClauseRows {
    fn is_so(&mut self, alloc: Global, row: &str) -> Result<bool, RowFail> {
        let (kind, rest) = fields(row);
        match kind {
            "clauses" => has_counts(alloc, rest),
            "resolve" => resolves(alloc, rest),
            "assignment" => assigns(alloc, rest),
            "meets" => meets(alloc, rest),
            "contains" => has_literals(alloc, rest),
            "limit" => is_limit(alloc, rest),
            _ => Err(RowFail::Bad),
        }
    }
}
