use crate::kinds::{EnumHead, Test};
use crate::parts::{EnumRow, ParamRow, Part, PartRow, Spoken};
use crate::places::{Declared, Inner, Outer, Place};
use c_tree::{AssignOp, BinaryOp, Expr, ForStart, PrefixOp, Statement};
use lv_base::Text;

/// An operator whose last operand is to come.
#[derive(Drop)]
pub enum Bind {
    Binary(Part, BinaryOp, u32),
    Prefix(PrefixOp, u32),
    Cast(u32, Spoken, u32),
    Assign(Part, AssignOp, u32),
    /// `c ? a :`
    Else(Part, u32, Part, u32),
    /// `a , b ,`
    Comma(PartRow, u32),
}

/// What stands before an expression that a token of its own ends.
#[derive(Drop)]
pub enum Opened {
    /// `(`
    Paren(u32),
    /// `a [`
    Index(Part, u32),
    /// `f ( a ,`
    Argument(Part, u32, PartRow, Option<u32>),
    /// `c ?`
    Then(Part, u32),
}

/// Words in an expression: those of a cast, or of `sizeof`.
#[derive(Clone, Copy, Debug)]
pub enum Nest {
    Cast(u32),
    Sizeof(u32, u32),
}

/// What stands before the value of a constant in an enumeration.
#[derive(Drop)]
pub struct Valuing {
    pub spoken: Spoken,
    pub head: Box<EnumHead>,
    pub before: EnumRow,
    pub comma: Option<u32>,
    pub name: Text,
    pub at: u32,
    pub assign: u32,
}

/// What is open around an expression, inside of another.
#[derive(Drop)]
pub enum Frame {
    Bind(Bind),
    Open(Opened),
    Constant(Nest, Box<Valuing>),
}

/// What is open around an expression, outside of all expressions.
#[derive(Drop)]
pub enum Base {
    Statement(Outer),
    Test(Test, u32, u32, Outer),
    Do(u32, Box<Statement>, u32, u32, Outer),
    Return(u32, Outer),
    Case(u32, Outer),
    Start(usize, u32, u32, Outer),
    More(usize, u32, u32, Box<ForStart>, Outer),
    Step(usize, u32, u32, Box<ForStart>, Option<Box<Expr>>, u32, Outer),
    Length(Box<Declared>, u32),
    Initial(Box<Declared>, u32),
    Part(Box<Declared>, u32, u32, PartRow, Option<u32>),
    ParameterConstant(Box<Declared>, u32, ParamRow, Option<u32>, Box<Valuing>),
    PlaceConstant(Box<Place>, Box<Valuing>),
}

/// The innermost of what is open around an expression, and the rest.
#[derive(Drop)]
pub enum Top {
    Base(Box<Base>),
    Bind(Bind, Inner),
    Open(Opened, Inner),
    Constant(Nest, Box<Valuing>, Inner),
}
