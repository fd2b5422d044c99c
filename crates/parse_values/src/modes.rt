ghost use Rattle.std.specs.Prelude.{◌≤◌, vec_len};

use c_tree::{Attribute, AttributeWord, Head, Item, Statement, SymbolAt};
use lv_base::Text;
use parse_stack::{
    Around, Attributed, Declared, Declaring, FunctionHead, Inner, Listing, Outer, ParamRow, Part,
    Spoken, Test,
};

/// Tokens that are kept as they stand, and how many brackets are open behind them.
#[derive(Drop)]
pub struct Skip {
    pub tokens: Vec<SymbolAt>,
    pub depth: usize,
    pub ghost bounded: { depth ≤ vec_len tokens },
}

/// Where words or an expression may come: behind `(`, behind `sizeof (`, where a statement may begin, behind `for (`.
#[derive(Drop)]
pub enum Fork {
    Cast(u32, Inner),
    Sizeof(u32, u32, Inner),
    Block(Outer),
    For(usize, u32, u32, Outer),
}

/// Where one token may come.
#[derive(Drop)]
pub enum Waiting {
    Test(Test, u32, Outer),
    While(u32, Box<Statement>, Outer),
    Do(u32, Box<Statement>, u32, Outer),
    Done(u32, Box<Statement>, Head, Outer),
    For(u32, Outer),
    Default(u32, Outer),
    Goto(u32, Text, u32, Outer),
    Break(u32, Outer),
    Continue(u32, Outer),
    Void(Box<Declared>, u32, u32),
    List(Box<Declared>, u32),
    Attribute(AttributeWord, u32, Box<Attributed>),
}

/// The state between two tokens.
#[derive(Drop)]
pub enum Mode {
    /// The first item is to come, or the end.
    File,
    /// An item is whole; where it is a declaration, with its height.
    Ended(Box<Item>, u32),
    /// A word of a declaration is to come, or what follows them.
    Specifiers(Spoken, Box<Around>),
    /// Behind `enum`.
    Enumeration(u32, Spoken, Box<Around>),
    /// Behind `enum NAME`.
    Tagged(u32, Text, u32, Spoken, Box<Around>),
    /// An enumerator is to come, or behind a comma the end of the list.
    Constant(Listing),
    /// Behind the name of an enumerator.
    Named(Listing, Text, u32),
    /// Among the tokens of an attribute.
    Attribute(AttributeWord, u32, u32, Skip, Box<Attributed>),
    /// A declared name is to come behind a comma.
    Next(Declaring, u32),
    /// Behind a declared name.
    Behind(Box<Declared>),
    /// A declared name is whole: a comma or `;` is to come.
    Listed(Declaring),
    /// Behind the `(` of parameters.
    Parameters(Box<Declared>, u32),
    /// Behind the name of a parameter.
    Parameter(Box<Declared>, u32, ParamRow, Option<u32>, Spoken, Text, u32),
    /// Among the tokens of a block that is skipped.
    Skipped(Box<FunctionHead>, u32, Skip),
    /// A statement is to come, or the end of a block.
    Begin(Outer),
    /// One token is to come.
    Wait(Box<Waiting>),
    /// Words or an expression are to come; these are the offsets of `__extension__` so far.
    Either(Box<Fork>, Vec<u32>),
    /// Behind `goto`.
    Goto(u32, Outer),
    /// An operand is to come.
    Operand(Inner),
    /// An expression is to come that may be left out.
    Maybe(Inner),
    /// Behind `sizeof`.
    Sizeof(u32, Inner),
    /// An operand is whole.
    Value(Part, Inner),
    /// Behind a label and its attributes.
    Label(Text, u32, u32, Vec<Attribute>, Outer),
    /// A statement is whole, and an `else` may follow.
    Whole(Box<Statement>, Outer),
    /// All is whole.
    Finished,
}
