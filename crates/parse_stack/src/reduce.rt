ghost use Rattle.std.specs.Prelude.{◌≡◌, IfOk};
ghost use Rattle.c_tree.specs.Tree as t;
ghost use Rattle.c_tree.specs.View.{expr, statement, words_of};
ghost use Rattle.c_tree.specs.Spelling as sp;
ghost use Rattle.parse_machine.specs.Making as mk;
ghost use Rattle.parse_stack.specs.View as v;
ghost use Rattle.parse_stack.specs.declared.frames.Bind.TheVariants as bi;

use crate::frames::Bind;
use crate::parts::{Part, PartRow, Spoken};
use crate::places::Wrap;
use crate::rows::add_part;
use c_tree::{BinaryOp, Expr, Statement};
use std::alloc::{AllocError, Global};

/// One node more.
pub fn above(height: u32) -> u32
    ensures { result ≡ mk.above height }
{
    if height <= 200 { height + 1 } else { height }
}

/// How tight an operator binds.
pub fn level(op: BinaryOp) -> u8
    ensures { result ≡ sp.level op }
{
    match op {
        BinaryOp::OrElse => 3,
        BinaryOp::AndAlso => 4,
        BinaryOp::BitOr => 5,
        BinaryOp::BitXor => 6,
        BinaryOp::BitAnd => 7,
        BinaryOp::Equal | BinaryOp::NotEqual => 8,
        BinaryOp::Less | BinaryOp::Greater | BinaryOp::LessEqual | BinaryOp::GreaterEqual => 9,
        BinaryOp::ShiftLeft | BinaryOp::ShiftRight => 10,
        BinaryOp::Add | BinaryOp::Subtract => 11,
        BinaryOp::Multiply | BinaryOp::Divide | BinaryOp::Remainder => 12,
    }
}

/// An expression of this level and height. Above 200 the tree is dropped.
pub fn make_part(alloc: Global, level: u8, height: u32, e: Expr) -> Result<Part, AllocError>
    ensures { IfOk result (λ p. v.part p ≡ mk.part level height (expr e)) }
{
    let node = if height <= 200 {
        Box::new(alloc, e)?
    } else {
        Box::new(alloc, Expr::Letter(0, 0))?
    };
    Ok(Part {
        node,
        level,
        height,
    })
}

/// A comma expression with its last part.
#[tactic(auto, using(crate::proofs::Views::expr_Comma))]
fn make_comma(alloc: Global, row: PartRow, at: u32, e: Part) -> Result<Part, AllocError>
    ensures { IfOk result (λ p. v.part p ≡ mk.bound (v.bind (bi.Comma row at)) (v.part e)) }
{
    let PartRow { parts, height } = add_part(row, Some(at), e)?;
    make_part(alloc, 0, above(height), Expr::Comma(parts))
}

#[tactic(auto, using(crate::proofs::Views::expr_Cast))]
fn cast_node(a: u32, s: Spoken, b: u32, e: Box<Expr>) -> Expr
    ensures { expr result ≡ t.eCast a (words_of s.words) b (expr e.value) }
{
    Expr::Cast(a, s.words, b, e)
}

/// A cast.
fn make_cast(alloc: Global, a: u32, s: Spoken, b: u32, e: Part) -> Result<Part, AllocError>
    ensures { IfOk result (λ p. v.part p ≡ mk.bound (v.bind (bi.Cast a s b)) (v.part e)) }
{
    let height = above(above(s.height).max(e.height));
    make_part(alloc, 13, height, cast_node(a, s, b, e.node))
}

/// An operator with its last operand.
pub fn bound(alloc: Global, b: Bind, e: Part) -> Result<Part, AllocError>
    ensures { IfOk result (λ p. v.part p ≡ mk.bound (v.bind b) (v.part e)) }
{
    match b {
        Bind::Binary(a, op, at) => {
            let height = above(a.height.max(e.height));
            make_part(
                alloc,
                level(op),
                height,
                Expr::Binary(a.node, op, at, e.node),
            )
        }
        Bind::Prefix(op, at) => {
            let height = above(e.height);
            make_part(alloc, 14, height, Expr::Prefix(op, at, e.node))
        }
        Bind::Cast(a, s, b) => make_cast(alloc, a, s, b, e),
        Bind::Assign(a, op, at) => {
            let height = above(a.height.max(e.height));
            make_part(alloc, 1, height, Expr::Assign(a.node, op, at, e.node))
        }
        Bind::Else(c, x, a, y) => {
            let height = above(c.height.max(a.height).max(e.height));
            make_part(alloc, 2, height, Expr::Cond(c.node, x, a.node, y, e.node))
        }
        Bind::Comma(row, at) => make_comma(alloc, row, at, e),
    }
}

/// The level up to which a token makes the operator whole.
pub fn bind_level(b: &Bind) -> u8
    ensures { result ≡ mk.bind_level (v.bind b.now) }
{
    match b {
        Bind::Binary(_, op, _) => level(*op),
        Bind::Prefix(..) | Bind::Cast(..) => 15,
        Bind::Assign(..) | Bind::Else(..) => 1,
        Bind::Comma(..) => 0,
    }
}

/// A statement that ends with this one.
pub fn wrapped(alloc: Global, w: Wrap, s: Box<Statement>) -> Result<Box<Statement>, AllocError>
    ensures { IfOk result (λ r. statement r.value ≡ mk.wrapped (v.wrap w) (statement s.value)) }
{
    let whole = match w {
        Wrap::Then(h) => Statement::If(h, s),
        Wrap::Else(h, a, at) => Statement::IfElse(h, a, at, s),
        Wrap::While(h) => Statement::While(h, s),
        Wrap::Switch(h) => Statement::Switch(h, s),
        Wrap::For(_, h) => Statement::For(Box::into_inner(h), s),
        Wrap::Case(at, e, b) => Statement::Case(at, e, b, s),
        Wrap::Default(at, b) => Statement::Default(at, b, s),
        Wrap::Label(n, at, b, attributes) => Statement::Label(n, at, b, attributes, s),
    };
    Ok(Box::new(alloc, whole)?)
}
