use c_lexer::NumberForm;
use lv_base::Text;

/// The kinds of brackets.
#[derive(Clone, Copy, Debug, PartialEq, Eq)]
pub enum Bracket {
    Round,
    Square,
    Curly,
}

/// The words of which types are made. `SignedAlternate` is `__signed__`.
#[derive(Clone, Copy, Debug, PartialEq, Eq)]
pub enum TypeWord {
    Void,
    Bool,
    Char,
    Short,
    Int,
    Long,
    Signed,
    SignedAlternate,
    Unsigned,
}

/// Storage classes and function specifiers. `InlineShort` is `__inline`, `InlineLong` is `__inline__`.
#[derive(Clone, Copy, Debug, PartialEq, Eq)]
pub enum StorageWord {
    Auto,
    Extern,
    Register,
    Static,
    Typedef,
    Inline,
    InlineShort,
    InlineLong,
    Noreturn,
}

/// `const` and `__const`.
#[derive(Clone, Copy, Debug, PartialEq, Eq)]
pub enum ConstWord {
    Const,
    ConstAlternate,
}

/// `__attribute__` and `__attribute`.
#[derive(Clone, Copy, Debug, PartialEq, Eq)]
pub enum AttributeWord {
    AttributeLong,
    AttributeShort,
}

/// The words of statements.
#[derive(Clone, Copy, Debug, PartialEq, Eq)]
pub enum StatementWord {
    Break,
    Case,
    Continue,
    Default,
    Do,
    Else,
    For,
    Goto,
    If,
    Return,
    Switch,
    While,
}

/// A word that is no name. `Foreign` is any word of C that the subset leaves out; `Listed` is one of those
/// words that a skipped declaration may be skipped for.
#[derive(Clone, Copy, Debug, PartialEq, Eq)]
pub enum Keyword {
    Type(TypeWord),
    Storage(StorageWord),
    Const(ConstWord),
    Attribute(AttributeWord),
    Statement(StatementWord),
    Enum,
    Extension,
    Sizeof,
    Listed,
    Foreign,
}

/// The binary operators.
#[derive(Clone, Copy, Debug, PartialEq, Eq)]
pub enum BinaryOp {
    OrElse,
    AndAlso,
    BitOr,
    BitXor,
    BitAnd,
    Equal,
    NotEqual,
    Less,
    Greater,
    LessEqual,
    GreaterEqual,
    ShiftLeft,
    ShiftRight,
    Add,
    Subtract,
    Multiply,
    Divide,
    Remainder,
}

/// The assignment operators, `Plain` being `=`.
#[derive(Clone, Copy, Debug, PartialEq, Eq)]
pub enum AssignOp {
    Plain,
    Multiply,
    Divide,
    Remainder,
    Add,
    Subtract,
    ShiftLeft,
    ShiftRight,
    BitAnd,
    BitXor,
    BitOr,
}

/// `++` and `--`.
#[derive(Clone, Copy, Debug, PartialEq, Eq)]
pub enum Crement {
    Increment,
    Decrement,
}

/// A token as the grammar sees it: a word is a keyword, with its spelling, or a name.
#[derive(Debug, Drop)]
pub enum Symbol {
    Name(Text),
    Number(u64, NumberForm),
    Letter(i32),
    Str,
    Type(TypeWord),
    Storage(StorageWord),
    Const(ConstWord),
    Attribute(AttributeWord),
    Statement(StatementWord),
    Enum,
    Extension,
    Sizeof,
    Listed(Text),
    Foreign(Text),
    Open(Bracket),
    Close(Bracket),
    Semicolon,
    Comma,
    Colon,
    Question,
    Binary(BinaryOp),
    Tilde,
    Bang,
    Crement(Crement),
    Assign(AssignOp),
    Dot,
    Arrow,
    Ellipsis,
    End,
}

/// A symbol with the offset of its first byte.
#[derive(Debug, Drop)]
pub struct SymbolAt {
    pub symbol: Symbol,
    pub at: u32,
}
