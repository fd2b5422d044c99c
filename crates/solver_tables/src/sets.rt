//! `set CLAUSES ; QUESTION = ANSWER ; ..`, where a 0 stands behind each clause. A question names a solver, `cdcl` or `plain`,
//! how many clauses it may learn, and the number of pairs that its log may not reach; the answer is `sat`, `unsat`, `spent`
//! with the number of chains, or `over`. An assignment is evaluated, and a log is checked.
//! `both LEARN = ANSWER`: both solvers answer so, the first one with at most twice the pairs of the second one.
//! `first LEARN LIMIT = CLAUSE PIVOT CLAUSE ..`: the only chain of what the first solver learned.

use clause_learning::{Answer, MOST_PAIRS, SolveFail};
use prop::Clauses;
use resolution_log::{Log, LogFail, check_log};
use row_text::{RowFail, Table, clauses_in, fields, halves, number, numbers};
use std::alloc::Global;

#[derive(Clone, Copy, Debug, PartialEq)]
enum Said {
    Sat,
    Unsat,
    Spent(u32),
    OverLog,
}

fn said_in(text: &str) -> Result<Said, RowFail> {
    let (word, rest) = fields(text);
    match word {
        "sat" => Ok(Said::Sat),
        "unsat" => Ok(Said::Unsat),
        "over" => Ok(Said::OverLog),
        "spent" => Ok(Said::Spent(number(Some(rest))?)),
        _ => Err(RowFail::Bad),
    }
}

// Whether all chains are valid, and none of them refutes the clauses.
fn is_open(alloc: Global, clauses: &Clauses, log: &Log) -> bool {
    matches!(check_log(alloc, clauses, log), Err(LogFail::NoEmpty))
}

// What an answer says, where it is right.
fn said_of(alloc: Global, clauses: &Clauses, answer: &Result<Answer, SolveFail>) -> Option<Said> {
    match answer {
        Ok(Answer::Sat(a)) if a.satisfies(clauses) => Some(Said::Sat),
        Ok(Answer::Unsat(log)) if check_log(alloc, clauses, log).is_ok() => Some(Said::Unsat),
        Ok(Answer::Spent(log)) if is_open(alloc, clauses, log) => Some(Said::Spent(log.len())),
        Err(SolveFail::OverLog(log)) if is_open(alloc, clauses, log) => Some(Said::OverLog),
        _ => None,
    }
}

// How many pairs a refutation has.
fn pairs_of(answer: &Result<Answer, SolveFail>) -> u64 {
    let mut count = 0u64;
    if let Ok(Answer::Unsat(log)) = answer {
        for chain in log.chains() {
            count = count.saturating_add(chain.pairs.len() as u64);
        }
    }
    count
}

// How many clauses may be learned, and the limit on the pairs.
fn limits_in(alloc: Global, text: &str) -> Result<(u64, u64), RowFail> {
    let found = numbers(alloc, text)?;
    if found.len() != 2 {
        return Err(RowFail::Bad);
    }
    Ok((u64::from(found[0]), u64::from(found[1])))
}

// The answer of the first solver.
fn fast(
    alloc: Global,
    clauses: &Clauses,
    rest: &str,
) -> Result<Result<Answer, SolveFail>, RowFail> {
    let (learn, limit) = limits_in(alloc, rest)?;
    if learn == 0 || limit == 0 || limit > MOST_PAIRS {
        return Err(RowFail::Bad);
    }
    Ok(cdcl_solver::solve_within(alloc, clauses, learn, limit))
}

// The answer of the second solver.
fn plain(
    alloc: Global,
    clauses: &Clauses,
    rest: &str,
) -> Result<Result<Answer, SolveFail>, RowFail> {
    let (learn, limit) = limits_in(alloc, rest)?;
    if learn == 0 || limit == 0 || limit > MOST_PAIRS {
        return Err(RowFail::Bad);
    }
    Ok(plain_solver::solve_within(alloc, clauses, learn, limit))
}

// Whether both solvers answer so, the first with at most twice the pairs of the second.
fn both(alloc: Global, clauses: &Clauses, rest: &str, wanted: &str) -> Result<bool, RowFail> {
    let learn = u64::from(number(Some(rest))?);
    if learn == 0 {
        return Err(RowFail::Bad);
    }
    let first = cdcl_solver::solve(alloc, clauses, learn);
    let second = plain_solver::solve(alloc, clauses, learn);
    let said = Some(said_in(wanted)?);
    Ok(
        said_of(alloc, clauses, &first) == said
            && said_of(alloc, clauses, &second) == said
            && pairs_of(&first) <= pairs_of(&second).saturating_mul(2),
    )
}

// Whether an answer is a log of one chain, of this clause and these pairs.
fn is_chain(answer: &Result<Answer, SolveFail>, wanted: &[u32]) -> bool {
    let Ok(Answer::Spent(log)) = answer else {
        return false;
    };
    let chains = log.chains();
    if chains.len() != 1 || wanted.is_empty() {
        return false;
    }
    chains[0].first == wanted[0] && are_pairs(chains[0].pairs.as_slice(), &wanted[1..])
}

// Whether the pairs are these numbers, two of them each.
fn are_pairs(pairs: &[(u32, u32)], wanted: &[u32]) -> bool {
    let mut rest = wanted.iter();
    for (pivot, clause) in pairs {
        if rest.next() != Some(pivot) || rest.next() != Some(clause) {
            return false;
        }
    }
    rest.next().is_none()
}

// Whether a question about the clauses has this answer.
fn has_answer(
    alloc: Global,
    clauses: &Clauses,
    question: &str,
    wanted: &str,
) -> Result<bool, RowFail> {
    let (word, rest) = fields(question);
    match word {
        "cdcl" => {
            let answer = fast(alloc, clauses, rest)?;
            Ok(said_of(alloc, clauses, &answer) == Some(said_in(wanted)?))
        }
        "plain" => {
            let answer = plain(alloc, clauses, rest)?;
            Ok(said_of(alloc, clauses, &answer) == Some(said_in(wanted)?))
        }
        "first" => {
            let answer = fast(alloc, clauses, rest)?;
            Ok(is_chain(&answer, &numbers(alloc, wanted)?))
        }
        "both" => both(alloc, clauses, rest, wanted),
        _ => Err(RowFail::Bad),
    }
}

// Tries the row.
fn has_answers(alloc: Global, rest: &str) -> Result<bool, RowFail> {
    let Some((set, questions)) = rest.split_once(';') else {
        return Err(RowFail::Bad);
    };
    let clauses = clauses_in(alloc, set)?;
    for part in questions.split(';') {
        let (question, wanted) = halves(part)?;
        if !has_answer(alloc, &clauses, question, wanted)? {
            return Ok(false);
        }
    }
    Ok(true)
}

/// Rows of sets of clauses.
#[derive(Drop)]
pub(crate) struct SetRows;

impl Table for SetRows {
    fn is_so(&mut self, alloc: Global, row: &str) -> Result<bool, RowFail> {
        let (kind, rest) = fields(row);
        match kind {
            "set" => has_answers(alloc, rest),
            _ => Err(RowFail::Bad),
        }
    }
}
