ghost use Rattle.std.specs.Prelude.{◌≡◌, OnOk};
ghost use Rattle.c_meaning.specs.Known as known;
ghost use Rattle.c_tree.specs.View as v;
ghost use Rattle.trace_sites.specs.Expressions as sites;

use crate::site::{Part, Site, add};
use c_tree::{AssignOp, BinaryOp, Expr, Listed, PrefixOp};
use lv_base::Memory;
use tree_places::first_of;
use typed_values::{Known, known_of};

// Whether a function of this name draws a value.
fn is_draw(name: &[u8]) -> bool
    ensures { result ≡ sites.is_draw (known.known_of name.now) }
{
    match known_of(name) {
        Some(Known::Draws(_)) => true,
        Some(Known::Reaches) => false,
        Some(Known::Aborts) => false,
        None => false,
    }
}

// A called name, where it draws a value.
fn add_drawn(name: &[u8], at: u32, found: &mut Vec<Site>) -> Result<(), Memory>
    ensures { OnOk result (found.new.items ≡ sites.drawn_behind found.old.items (sites.is_draw (known.known_of name.now)) at) }
{
    if is_draw(name) {
        add(found, Part::Draw, at, at)
    } else {
        Ok(())
    }
}

// A called function that draws a value.
fn add_draw(called: &Expr, found: &mut Vec<Site>) -> Result<(), Memory>
    ensures { OnOk result (found.new.items ≡ sites.draw_behind found.old.items (v.expr called.now)) }
{
    match called {
        Expr::Name(name, at) => add_drawn(name.as_bytes(), *at, found),
        _ => Ok(()),
    }
}

// A left operand that decides whether the right one is evaluated.
fn add_left(left: &Expr, op: BinaryOp, at: u32, found: &mut Vec<Site>) -> Result<(), Memory>
    ensures { OnOk result (found.new.items ≡ sites.left_behind found.old.items (v.expr left.now) op at) }
{
    match op {
        BinaryOp::AndAlso | BinaryOp::OrElse => add(found, Part::Decision, first_of(left), at),
        _ => Ok(()),
    }
}

fn add_assignment(op: AssignOp, at: u32, found: &mut Vec<Site>) -> Result<(), Memory>
    ensures { OnOk result (found.new.items ≡ sites.assignment_behind found.old.items op at) }
{
    match op {
        AssignOp::Plain => add(found, Part::Assignment, at, at),
        _ => Ok(()),
    }
}

/// The sites in the expressions of a list, one after the other.
///
/// Fails with `Memory`.
#[cycle(sites)]
#[tactic(auto, using(crate::proofs::Lists::parts_more, std::proofs::lemmas::List::take_all))]
pub(crate) fn part_sites(parts: &[Listed], found: &mut Vec<Site>) -> Result<(), Memory>
    ensures { OnOk result (found.new.items ≡ sites.parts_behind found.old.items (v.parts_of parts.now)) }
{
    for part in parts {
        expression_sites(&part.value, found)?;
    }
    Ok(())
}

/// The sites in an expression, behind those that were found. The operand of `sizeof` is not evaluated and has none (C11
/// 6.5.3.4).
///
/// Fails with `Memory`.
#[cycle(sites)]
pub(crate) fn expression_sites(e: &Expr, found: &mut Vec<Site>) -> Result<(), Memory>
    ensures { OnOk result (found.new.items ≡ sites.expression_behind found.old.items (v.expr e.now)) }
{
    match e {
        Expr::Name(_, _) | Expr::Number(_, _, _) | Expr::Letter(_, _) => Ok(()),
        Expr::Paren(_, e, _) => expression_sites(e, found),
        Expr::Call(called, _, parts, _) => {
            part_sites(parts, found)?;
            add_draw(called, found)
        }
        Expr::Index(_, _, index, _) => expression_sites(index, found),
        Expr::Postfix(e, _, _) => expression_sites(e, found),
        Expr::Prefix(PrefixOp::Sizeof, _, _) | Expr::SizeofType(_, _, _, _) => Ok(()),
        Expr::Prefix(_, _, e) => expression_sites(e, found),
        Expr::Cast(_, _, _, e) => expression_sites(e, found),
        Expr::Binary(left, op, at, right) => {
            expression_sites(left, found)?;
            add_left(left, *op, *at, found)?;
            expression_sites(right, found)
        }
        Expr::Cond(test, at, first, _, second) => {
            expression_sites(test, found)?;
            add(found, Part::Decision, first_of(test), *at)?;
            expression_sites(first, found)?;
            expression_sites(second, found)
        }
        Expr::Assign(target, op, at, value) => {
            expression_sites(target, found)?;
            expression_sites(value, found)?;
            add_assignment(*op, *at, found)
        }
        Expr::Comma(parts) => part_sites(parts, found),
    }
}

/// The sites in an expression that may be left out.
///
/// Fails with `Memory`.
pub(crate) fn option_sites(e: &Option<Box<Expr>>, found: &mut Vec<Site>) -> Result<(), Memory>
    ensures { OnOk result (found.new.items ≡ sites.option_behind found.old.items (v.option_expr e.now)) }
{
    match e {
        None => Ok(()),
        Some(e) => expression_sites(e, found),
    }
}
