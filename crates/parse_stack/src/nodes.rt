ghost use Rattle.std.specs.Prelude.{◌≡◌, IfOk, max};
ghost use Rattle.c_tree.specs.View.{expr, word, words_of, parts_of, head_of, enumerators_of};
ghost use Rattle.c_tree.specs.Tree as tr;
ghost use Rattle.parse_machine.specs.Making as mk;
ghost use Rattle.parse_stack.specs.View as v;

use crate::kinds::{EnumHead, Test};
use crate::parts::{EnumRow, Part, PartRow, Spoken};
use crate::places::Wrap;
use crate::reduce::above;
use crate::rows::add_constant;
use c_tree::{Enumerator, Expr, Head, Spec};
use lv_base::Text;
use std::alloc::{AllocError, Global};

/// A call.
#[tactic(auto, using(crate::proofs::Views::expr_Call))]
pub fn call_node(f: Box<Expr>, a: u32, row: PartRow, b: u32) -> Expr
    ensures { expr result ≡ tr.eCall (expr f.value) a (parts_of row.parts.items) b }
{
    Expr::Call(f, a, row.parts, b)
}

/// What a condition stands before.
pub fn tested(test: Test, h: Head) -> Wrap
    ensures { v.wrap result ≡ mk.tested (v.test test) (head_of h) }
{
    match test {
        Test::If => Wrap::Then(h),
        Test::While => Wrap::While(h),
        Test::Switch => Wrap::Switch(h),
    }
}

/// A `sizeof` of a type.
pub fn sizeof_node(x: u32, a: u32, s: Spoken, b: u32) -> Expr
    ensures { expr result ≡ tr.eSizeof x a (words_of s.words) b }
{
    Expr::SizeofType(x, a, s.words, b)
}

/// An enumeration without a tag.
fn bare_node(at: u32, x: u32, row: EnumRow, comma: Option<u32>, close: u32) -> Spec
    ensures { word result ≡ tr.wEnum at x (enumerators_of row.constants.items) comma close }
{
    Spec::Enum(at, x, row.constants, comma, close)
}

/// An enumeration with a tag.
fn tagged_node(
    at: u32,
    name: Text,
    x: u32,
    y: u32,
    row: EnumRow,
    comma: Option<u32>,
    close: u32,
) -> Spec
    ensures { word result ≡ tr.wTagEnum at name x y (enumerators_of row.constants.items) comma close }
{
    Spec::TagEnum(at, name, x, y, row.constants, comma, close)
}

/// An enumeration.
pub fn enumeration(head: EnumHead, row: EnumRow, comma: Option<u32>, close: u32) -> Spec
    ensures { word result ≡ mk.enumeration (v.enum_head head) (enumerators_of row.constants.items) comma close }
{
    match head {
        EnumHead::Bare(at, x) => bare_node(at, x, row, comma, close),
        EnumHead::Tagged(at, name, x, y) => tagged_node(at, name, x, y, row, comma, close),
    }
}

/// The constants with one more, without a value.
pub fn plain_more(
    row: EnumRow,
    comma: Option<u32>,
    name: Text,
    at: u32,
) -> Result<EnumRow, AllocError>
    ensures { IfOk result (λ r. v.enum_row r ≡ mk.tall (tr.plain_and (enumerators_of row.constants.items) comma name at) (max row.height 1)) }
{
    add_constant(row, Enumerator::Plain(comma, name, at), 1)
}

/// The constants with one more, which has a value.
pub fn valued_more(
    row: EnumRow,
    comma: Option<u32>,
    name: Text,
    at: u32,
    assign: u32,
    e: Part,
) -> Result<EnumRow, AllocError>
    ensures { IfOk result (λ r. v.enum_row r ≡ mk.tall (tr.valued_and (enumerators_of row.constants.items) comma name at assign (expr e.node.value)) (max row.height (mk.above e.height))) }
{
    let height = above(e.height);
    add_constant(
        row,
        Enumerator::Valued(comma, name, at, assign, e.node),
        height,
    )
}

/// No parts yet.
pub fn no_parts(alloc: Global) -> PartRow
    ensures { v.part_row result ≡ mk.tall tr.no_parts 0 }
{
    PartRow {
        parts: Vec::new(alloc),
        height: 0,
    }
}
