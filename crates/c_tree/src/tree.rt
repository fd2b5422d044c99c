use crate::symbol::{
    AssignOp, AttributeWord, BinaryOp, ConstWord, Crement, StorageWord, SymbolAt, TypeWord,
};
use c_lexer::NumberForm;
use lv_base::Text;

/// The operators before an operand. `Extension` is `__extension__`.
#[derive(Clone, Copy, Debug, PartialEq, Eq)]
pub enum PrefixOp {
    Increment,
    Decrement,
    Plus,
    Minus,
    Complement,
    Not,
    Extension,
    Sizeof,
}

/// A name with its offset.
#[derive(Drop)]
pub struct Name {
    pub text: Text,
    pub at: u32,
}

/// An expression. The numbers are the offsets of the tokens, in their order.
#[cycle(expr)]
#[derive(Drop)]
pub enum Expr {
    Name(Text, u32),
    Number(u64, NumberForm, u32),
    Letter(i32, u32),
    /// `( e )`
    Paren(u32, Box<Expr>, u32),
    /// `f ( e , e )`
    Call(Box<Expr>, u32, Vec<Listed>, u32),
    /// `a [ e ]`
    Index(Box<Expr>, u32, Box<Expr>, u32),
    /// `e ++`
    Postfix(Box<Expr>, Crement, u32),
    /// `- e`, also `sizeof e` and `__extension__ e`
    Prefix(PrefixOp, u32, Box<Expr>),
    /// `sizeof ( int )`
    SizeofType(u32, u32, Specs, u32),
    /// `( int ) e`
    Cast(u32, Specs, u32, Box<Expr>),
    /// `a + b`
    Binary(Box<Expr>, BinaryOp, u32, Box<Expr>),
    /// `c ? a : b`
    Cond(Box<Expr>, u32, Box<Expr>, u32, Box<Expr>),
    /// `a = b`
    Assign(Box<Expr>, AssignOp, u32, Box<Expr>),
    /// `a , b , c`, of at least two parts
    Comma(Vec<Listed>),
}

/// A part of a list, with the offset of the comma before it; the first part has none.
#[cycle(expr)]
#[derive(Drop)]
pub struct Listed {
    pub comma: Option<u32>,
    pub value: Box<Expr>,
}

/// The words before a declared name, in a cast, in `sizeof` or of a parameter, in their order and as spelled.
#[cycle(expr)]
#[derive(Drop)]
pub struct Specs {
    pub words: Vec<Spec>,
}

/// One of these words.
#[cycle(expr)]
#[derive(Drop)]
pub enum Spec {
    Type(TypeWord, u32),
    Storage(StorageWord, u32),
    Const(ConstWord, u32),
    Extension(u32),
    Attribute(Attribute),
    /// A typedef name.
    Typedef(Text, u32),
    /// `enum NAME`
    Tag(u32, Text, u32),
    /// `enum { A , B }`, with the offset of a comma before the closing bracket
    Enum(u32, u32, Vec<Enumerator>, Option<u32>, u32),
    /// `enum NAME { A , B }`
    TagEnum(u32, Text, u32, u32, Vec<Enumerator>, Option<u32>, u32),
}

/// A constant of an enumeration, with the offset of the comma before it.
#[cycle(expr)]
#[derive(Drop)]
pub enum Enumerator {
    Plain(Option<u32>, Text, u32),
    /// `A = e`
    Valued(Option<u32>, Text, u32, u32, Box<Expr>),
}

/// `__attribute__ ( .. )`, whose tokens are kept between the outermost brackets.
#[derive(Drop)]
pub struct Attribute {
    pub word: AttributeWord,
    pub at: u32,
    pub open: u32,
    pub tokens: Vec<SymbolAt>,
    pub close: u32,
}

/// `specs declarator , declarator ;`
#[derive(Drop)]
pub struct Declaration {
    pub specs: Specs,
    pub declarators: Vec<Declarator>,
    pub semicolon: u32,
}

/// A declared name, with the offset of the comma before it.
#[derive(Drop)]
pub struct Declarator {
    pub comma: Option<u32>,
    pub name: Name,
    pub form: Form,
    pub attributes: Vec<Attribute>,
    pub initial: Initial,
}

/// What stands behind a declared name.
#[derive(Drop)]
pub enum Form {
    Plain,
    /// `[ e ]`
    Array(u32, Option<Box<Expr>>, u32),
    Function(Parameters),
}

/// The parameters of a function, with their brackets.
#[derive(Drop)]
pub enum Parameters {
    /// `( )`
    Unknown(u32, u32),
    /// `( void )`
    Void(u32, u32, u32),
    Some(u32, Vec<Parameter>, u32),
}

/// A parameter, with the offset of the comma before it.
#[derive(Drop)]
pub struct Parameter {
    pub comma: Option<u32>,
    pub specs: Specs,
    pub name: Option<Name>,
}

/// The initial value of a declared name.
#[derive(Drop)]
pub enum Initial {
    Nothing,
    /// `= e`
    Value(u32, Box<Expr>),
    /// `= { e , e }`, with the offset of a comma before the closing bracket
    List(u32, u32, Vec<Listed>, Option<u32>, u32),
}

/// `if ( e )`, `while ( e )`, `switch ( e )`: the keyword's offset, the condition and its brackets.
#[derive(Drop)]
pub struct Head {
    pub at: u32,
    pub open: u32,
    pub condition: Box<Expr>,
    pub close: u32,
}

/// How a `for` begins, up to its first `;`.
#[derive(Drop)]
pub enum ForStart {
    Declaration(Declaration),
    Expr(Option<Box<Expr>>, u32),
}

/// `for ( start test ; step )`
#[derive(Drop)]
pub struct ForHead {
    pub at: u32,
    pub open: u32,
    pub start: ForStart,
    pub test: Option<Box<Expr>>,
    pub semicolon: u32,
    pub step: Option<Box<Expr>>,
    pub close: u32,
}

/// A statement, or a declaration in a block.
#[derive(Drop)]
pub enum Statement {
    Declaration(Declaration),
    /// `{ .. }`
    Block(u32, Vec<Statement>, u32),
    /// `;`
    Empty(u32),
    /// `e ;`
    Expr(Box<Expr>, u32),
    If(Head, Box<Statement>),
    /// `if ( e ) s else s`, with the offset of the `else`
    IfElse(Head, Box<Statement>, u32, Box<Statement>),
    While(Head, Box<Statement>),
    Switch(Head, Box<Statement>),
    /// `do s while ( e ) ;`
    Do(u32, Box<Statement>, Head, u32),
    For(ForHead, Box<Statement>),
    /// `case e : s`
    Case(u32, Box<Expr>, u32, Box<Statement>),
    /// `default : s`
    Default(u32, u32, Box<Statement>),
    /// `NAME : s`
    Label(Text, u32, u32, Vec<Attribute>, Box<Statement>),
    /// `goto NAME ;`
    Goto(u32, Text, u32, u32),
    /// `break ;`
    Break(u32, u32),
    /// `continue ;`
    Continue(u32, u32),
    /// `return e ;`
    Return(u32, Option<Box<Expr>>, u32),
}

/// A function's body. That of `reach_error` is kept as its tokens between the outermost brackets.
#[derive(Drop)]
pub enum Body {
    Block(u32, Vec<Statement>, u32),
    Skipped(u32, Vec<SymbolAt>, u32),
}

/// A function with a body.
#[derive(Drop)]
pub struct Function {
    pub specs: Specs,
    pub name: Name,
    pub parameters: Parameters,
    pub attributes: Vec<Attribute>,
    pub body: Body,
}

/// An item of a file.
#[derive(Drop)]
pub enum Item {
    /// `__extension__ extern .. ;`: the offsets of `__extension__` and `extern`, the tokens behind, and the `;`.
    Skipped(Option<u32>, u32, Vec<SymbolAt>, u32),
    Function(Function),
    Declaration(Declaration),
    Empty(u32),
}

/// The tree of a source.
#[derive(Drop)]
pub struct Unit {
    pub items: Vec<Item>,
}
