//! The source tree, what its tokens are, and which trees are shaped.
#![tactic(auto)]

mod known;
mod nodes;
mod symbol;
mod tree;
mod words;

pub use known::{Known, Signedness, Site, Size, Storage, Typing};
pub use nodes::height;
pub use symbol::{
    AssignOp, AttributeWord, BinaryOp, Bracket, ConstWord, Crement, Keyword, StatementWord,
    StorageWord, Symbol, SymbolAt, TypeWord,
};
pub use tree::{
    Attribute, Body, Declaration, Declarator, Enumerator, Expr, ForHead, ForStart, Form, Function,
    Head, Initial, Item, Listed, Name, Parameter, Parameters, PrefixOp, Spec, Specs, Statement,
    Unit,
};
pub use words::KEYWORDS;
