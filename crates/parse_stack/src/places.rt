use crate::frames::{Base, Frame};
use crate::kinds::EnumHead;
use crate::parts::{DeclaratorRow, EnumRow, ParamRow, Spoken, TallForm};
use c_tree::{Attribute, Expr, ForHead, Head, Name, Parameters, Specs, Statement};
use lv_base::Text;

/// What stands before a statement that it ends with. The number of a `for` is how many typedef names were in scope before.
#[derive(Drop)]
pub enum Wrap {
    Then(Head),
    Else(Head, Box<Statement>, u32),
    While(Head),
    Switch(Head),
    For(usize, Box<ForHead>),
    Case(u32, Box<Expr>, u32),
    Default(u32, u32),
    Label(Text, u32, u32, Vec<Attribute>),
}

/// What is open around a statement, inside of a function's block.
#[derive(Drop)]
pub enum OuterFrame {
    /// `{` and the statements so far, with how many typedef names were in scope before.
    Block(usize, u32, Vec<Statement>),
    /// `do`
    Do(u32),
    Wrap(Wrap),
}

/// A function before its block.
#[derive(Drop)]
pub struct FunctionHead {
    pub words: Specs,
    pub name: Name,
    pub parameters: Box<Parameters>,
    pub attributes: Vec<Attribute>,
}

/// The block of a function, with how many typedef names were in scope before.
#[derive(Drop)]
pub struct Opening {
    pub mark: usize,
    pub head: Box<FunctionHead>,
    pub open: u32,
    pub statements: Vec<Statement>,
}

/// What is open around a statement, the innermost last.
#[derive(Drop)]
pub struct Outer {
    pub body: Box<Opening>,
    pub frames: Vec<OuterFrame>,
}

/// Where a declaration stands. A `for` has how many typedef names were in scope before, and its two offsets.
#[derive(Drop)]
pub enum Place {
    File,
    Block(Outer),
    For(usize, u32, u32, Outer),
}

/// A declaration before a declared name or behind one.
#[derive(Drop)]
pub struct Declaring {
    pub place: Box<Place>,
    pub spoken: Spoken,
    pub before: DeclaratorRow,
}

/// A declared name and what stands behind it so far.
#[derive(Drop)]
pub struct Declared {
    pub around: Declaring,
    pub comma: Option<u32>,
    pub name: Text,
    pub at: u32,
    pub form: Box<TallForm>,
    pub attributes: Vec<Attribute>,
}

/// What is open around an expression: what is outside of all expressions, and the frames inside, the innermost last.
#[derive(Drop)]
pub struct Inner {
    pub base: Box<Base>,
    pub frames: Vec<Frame>,
}

/// What is open around words: a cast, `sizeof`, a parameter, or a declaration.
#[derive(Drop)]
pub enum Around {
    Cast(u32, Inner),
    Sizeof(u32, u32, Inner),
    Parameter(Box<Declared>, u32, ParamRow, Option<u32>),
    Place(Box<Place>),
}

/// Behind the `{` or a comma of an enumeration.
#[derive(Drop)]
pub struct Listing {
    pub around: Box<Around>,
    pub spoken: Spoken,
    pub head: Box<EnumHead>,
    pub before: EnumRow,
    pub comma: Option<u32>,
}

/// What has an attribute.
#[derive(Drop)]
pub enum Attributed {
    Words(Spoken, Box<Around>),
    Declared(Box<Declared>),
    Label(Text, u32, u32, Vec<Attribute>, Outer),
}
