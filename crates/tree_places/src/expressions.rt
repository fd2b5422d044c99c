ghost use Rattle.std.specs.Prelude.{◌≡◌};
ghost use Rattle.c_tree.specs.View as v;
ghost use Rattle.c_meaning.specs.Tokens as tok;

use c_tree::{Expr, Listed, PrefixOp};

#[cycle(first_of)]
#[tactic(auto, using(crate::proofs::Lists::first_part))]
fn first_of_parts(parts: &[Listed]) -> u32
    ensures { result ≡ tok.first_of_parts (v.parts_of parts.now) }
{
    match parts {
        [] => 0,
        [part, ..] => first_of(&part.value),
    }
}

/// The first token of an expression.
#[cycle(first_of)]
#[tactic(auto, using(crate::proofs::Lists::expr_Call, crate::proofs::Lists::expr_Comma, crate::proofs::Lists::expr_Cast, crate::proofs::Lists::expr_SizeofType))]
pub fn first_of(e: &Expr) -> u32
    ensures { result ≡ tok.first_of (v.expr e.now) }
{
    match e {
        Expr::Name(_, at) => *at,
        Expr::Number(_, _, at) => *at,
        Expr::Letter(_, at) => *at,
        Expr::Paren(at, _, _) => *at,
        Expr::Call(f, _, _, _) => first_of(f),
        Expr::Index(a, _, _, _) => first_of(a),
        Expr::Postfix(e, _, _) => first_of(e),
        Expr::Prefix(_, at, _) => *at,
        Expr::SizeofType(at, _, _, _) => *at,
        Expr::Cast(at, _, _, _) => *at,
        Expr::Binary(a, _, _, _) => first_of(a),
        Expr::Cond(c, _, _, _, _) => first_of(c),
        Expr::Assign(a, _, _, _) => first_of(a),
        Expr::Comma(parts) => first_of_parts(parts),
    }
}

#[cycle(last_of)]
#[tactic(auto, using(crate::proofs::Lists::last_part))]
fn last_of_parts(parts: &[Listed]) -> u32
    ensures { result ≡ tok.last_of_parts (v.parts_of parts.now) }
{
    match parts {
        [] => 0,
        [.., part] => last_of(&part.value),
    }
}

/// The last token of an expression.
#[cycle(last_of)]
#[tactic(auto, using(crate::proofs::Lists::expr_Call, crate::proofs::Lists::expr_Comma, crate::proofs::Lists::expr_Cast, crate::proofs::Lists::expr_SizeofType))]
pub fn last_of(e: &Expr) -> u32
    ensures { result ≡ tok.last_of (v.expr e.now) }
{
    match e {
        Expr::Name(_, at) => *at,
        Expr::Number(_, _, at) => *at,
        Expr::Letter(_, at) => *at,
        Expr::Paren(_, _, at) => *at,
        Expr::Call(_, _, _, at) => *at,
        Expr::Index(_, _, _, at) => *at,
        Expr::Postfix(_, _, at) => *at,
        Expr::Prefix(_, _, e) => last_of(e),
        Expr::SizeofType(_, _, _, at) => *at,
        Expr::Cast(_, _, _, e) => last_of(e),
        Expr::Binary(_, _, _, b) => last_of(b),
        Expr::Cond(_, _, _, _, b) => last_of(b),
        Expr::Assign(_, _, _, b) => last_of(b),
        Expr::Comma(parts) => last_of_parts(parts),
    }
}

#[cycle(own_token)]
#[tactic(auto, using(crate::proofs::Lists::own_part))]
fn own_token_of_parts(parts: &[Listed]) -> u32
    ensures { result ≡ tok.own_token_parts (v.parts_of parts.now) }
{
    match parts {
        [] => 0,
        [.., part] => own_token(&part.value),
    }
}

/// The token at which an array, a function or void that stands as a value is refused.
#[cycle(own_token)]
#[tactic(auto, using(crate::proofs::Lists::expr_Call, crate::proofs::Lists::expr_Comma, crate::proofs::Lists::expr_Cast, crate::proofs::Lists::expr_SizeofType))]
pub fn own_token(e: &Expr) -> u32
    ensures { result ≡ tok.own_token (v.expr e.now) }
{
    match e {
        Expr::Name(_, at) => *at,
        Expr::Number(_, _, at) => *at,
        Expr::Letter(_, at) => *at,
        Expr::Paren(_, e, _) => own_token(e),
        Expr::Call(f, _, _, _) => own_token(f),
        Expr::Index(_, at, _, _) => *at,
        Expr::Postfix(_, _, at) => *at,
        Expr::Prefix(op, at, e) => match op {
            PrefixOp::Extension => own_token(e),
            PrefixOp::Increment => *at,
            PrefixOp::Decrement => *at,
            PrefixOp::Plus => *at,
            PrefixOp::Minus => *at,
            PrefixOp::Complement => *at,
            PrefixOp::Not => *at,
            PrefixOp::Sizeof => *at,
        },
        Expr::SizeofType(at, _, _, _) => *at,
        Expr::Cast(at, _, _, _) => *at,
        Expr::Binary(_, _, at, _) => *at,
        Expr::Cond(_, at, _, _, _) => *at,
        Expr::Assign(_, _, at, _) => *at,
        Expr::Comma(parts) => own_token_of_parts(parts),
    }
}

/// How many parts a list has.
#[tactic(auto, using(crate::proofs::Lists::count_is))]
pub fn count_parts(parts: &[Listed]) -> usize
    ensures { result ≡ tok.count_parts (v.parts_of parts.now) }
{
    parts.len()
}
