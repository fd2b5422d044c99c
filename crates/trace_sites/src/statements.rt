ghost use Rattle.std.specs.Prelude.{◌≡◌, IfOk, OnOk};
ghost use Rattle.c_tree.specs.View as v;
ghost use Rattle.trace_sites.specs.Statements as sites;

use crate::expressions::{expression_sites, option_sites, part_sites};
use crate::site::{Part, Site, add};
use c_tree::{Body, Declaration, Declarator, ForHead, ForStart, Head, Initial, Statement};
use lv_base::Memory;

fn initial_sites(declarator: &Declarator, found: &mut Vec<Site>) -> Result<(), Memory>
    ensures { OnOk result (found.new.items ≡ sites.initial_behind found.old.items (v.initial_of declarator.now.initial)) }
{
    match &declarator.initial {
        Initial::Nothing => Ok(()),
        Initial::Value(_, e) => expression_sites(e, found),
        Initial::List(_, _, parts, _, _) => part_sites(parts, found),
    }
}

#[tactic(auto, using(crate::proofs::Lists::declarators_more, std::proofs::lemmas::List::take_all))]
fn declaration_sites(declaration: &Declaration, found: &mut Vec<Site>) -> Result<(), Memory>
    ensures { OnOk result (found.new.items ≡ sites.declaration_behind found.old.items (v.declaration_of declaration.now)) }
{
    for declarator in &declaration.declarators {
        initial_sites(declarator, found)?;
    }
    Ok(())
}

// A condition between brackets, which is decided.
fn head_sites(head: &Head, found: &mut Vec<Site>) -> Result<(), Memory>
    ensures { OnOk result (found.new.items ≡ sites.head_behind found.old.items (v.head_of head.now)) }
{
    expression_sites(&head.condition, found)?;
    add(found, Part::Decision, behind(head.open), head.close)
}

// The offset behind this one.
fn behind(at: u32) -> u32
    ensures { result ≡ sites.behind at }
{
    at.saturating_add(1)
}

// What begins a `for`; and the offset of the `;` behind it.
fn start_sites(start: &ForStart, found: &mut Vec<Site>) -> Result<u32, Memory>
    ensures found { OnOk result (found.new.items ≡ sites.start_behind found.old.items (v.for_start_of start.now)) }
    ensures end { IfOk result (λ at. at ≡ sites.start_end (v.for_start_of start.now)) }
{
    match start {
        ForStart::Declaration(declaration) => {
            declaration_sites(declaration, found)?;
            Ok(declaration.semicolon)
        }
        ForStart::Expr(e, at) => {
            option_sites(e, found)?;
            Ok(*at)
        }
    }
}

// How a `for` begins, and its condition. Where there is none it is decided all the same, and its bytes are none.
fn for_sites(head: &ForHead, found: &mut Vec<Site>) -> Result<(), Memory>
    ensures { OnOk result (found.new.items ≡ sites.for_behind found.old.items (v.for_head_of head.now)) }
{
    let semicolon = start_sites(&head.start, found)?;
    option_sites(&head.test, found)?;
    add(found, Part::Decision, behind(semicolon), head.semicolon)
}

/// The cases of the innermost `switch` around a statement, in their order.
///
/// Fails with `Memory`.
#[cycle(cases)]
fn case_sites(statement: &Statement, found: &mut Vec<Site>) -> Result<(), Memory>
    ensures { OnOk result (found.new.items ≡ sites.cases_behind found.old.items (v.statement statement.now)) }
{
    match statement {
        Statement::Block(_, statements, _) => all_case_sites(statements, found),
        Statement::If(_, s) | Statement::While(_, s) | Statement::For(_, s) => case_sites(s, found),
        Statement::IfElse(_, first, _, second) => {
            case_sites(first, found)?;
            case_sites(second, found)
        }
        Statement::Do(_, s, _, _) => case_sites(s, found),
        Statement::Case(at, _, _, s) => {
            add(found, Part::Case, *at, *at)?;
            case_sites(s, found)
        }
        Statement::Default(_, _, s) | Statement::Label(_, _, _, _, s) => case_sites(s, found),
        _ => Ok(()),
    }
}

#[cycle(cases)]
#[tactic(auto, using(crate::proofs::Lists::cases_more, std::proofs::lemmas::List::take_all))]
fn all_case_sites(statements: &[Statement], found: &mut Vec<Site>) -> Result<(), Memory>
    ensures { OnOk result (found.new.items ≡ sites.all_cases_behind found.old.items (v.statements_of statements.now)) }
{
    for statement in statements {
        case_sites(statement, found)?;
    }
    Ok(())
}

/// The sites in a statement, behind those that were found. The condition of a `do` stands before its body, and the third part of a
/// `for` behind it.
///
/// Fails with `Memory`.
#[cycle(statements)]
pub fn statement_sites(statement: &Statement, found: &mut Vec<Site>) -> Result<(), Memory>
    ensures { OnOk result (found.new.items ≡ sites.statement_behind found.old.items (v.statement statement.now)) }
{
    match statement {
        Statement::Declaration(declaration) => declaration_sites(declaration, found),
        Statement::Block(_, statements, _) => all_sites(statements, found),
        Statement::Expr(e, _) => expression_sites(e, found),
        Statement::If(head, s) | Statement::While(head, s) | Statement::Do(_, s, head, _) => {
            head_sites(head, found)?;
            statement_sites(s, found)
        }
        Statement::IfElse(head, first, _, second) => {
            head_sites(head, found)?;
            statement_sites(first, found)?;
            statement_sites(second, found)
        }
        Statement::Switch(head, s) => {
            expression_sites(&head.condition, found)?;
            case_sites(s, found)?;
            statement_sites(s, found)
        }
        Statement::For(head, s) => {
            for_sites(head, found)?;
            statement_sites(s, found)?;
            option_sites(&head.step, found)
        }
        Statement::Case(_, _, _, s) | Statement::Default(_, _, s) => statement_sites(s, found),
        Statement::Label(_, _, _, _, s) => statement_sites(s, found),
        Statement::Return(_, e, _) => option_sites(e, found),
        Statement::Empty(_) | Statement::Goto(_, _, _, _) => Ok(()),
        Statement::Break(_, _) | Statement::Continue(_, _) => Ok(()),
    }
}

#[cycle(statements)]
#[tactic(auto, using(crate::proofs::Lists::statements_more, std::proofs::lemmas::List::take_all))]
fn all_sites(statements: &[Statement], found: &mut Vec<Site>) -> Result<(), Memory>
    ensures { OnOk result (found.new.items ≡ sites.all_behind found.old.items (v.statements_of statements.now)) }
{
    for statement in statements {
        statement_sites(statement, found)?;
    }
    Ok(())
}

/// The sites in a function's body; one that is kept as its tokens has none.
///
/// Fails with `Memory`.
pub fn body_sites(body: &Body, found: &mut Vec<Site>) -> Result<(), Memory>
    ensures { OnOk result (found.new.items ≡ sites.body_behind found.old.items (v.body_of body.now)) }
{
    match body {
        Body::Block(_, statements, _) => all_sites(statements, found),
        Body::Skipped(_, _, _) => Ok(()),
    }
}
