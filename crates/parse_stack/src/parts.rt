use c_tree::{Declarator, Enumerator, Expr, Form, Known, Listed, Parameter, Specs};

/// An expression, how tight it binds, and its height, 201 standing for all above 200. No tree is kept above 200.
#[derive(Drop)]
pub struct Part {
    pub node: Box<Expr>,
    pub level: u8,
    pub height: u32,
}

/// The parts of a list so far, with the greatest height of them.
#[derive(Drop)]
pub struct PartRow {
    pub parts: Vec<Listed>,
    pub height: u32,
}

/// Words of a declaration so far, what they say, and the greatest height of them.
#[derive(Drop)]
pub struct Spoken {
    pub words: Specs,
    pub told: Known,
    pub height: u32,
}

/// Constants of an enumeration so far, with the greatest height of them.
#[derive(Drop)]
pub struct EnumRow {
    pub constants: Vec<Enumerator>,
    pub height: u32,
}

/// Parameters so far, with the greatest height of them.
#[derive(Drop)]
pub struct ParamRow {
    pub params: Vec<Parameter>,
    pub height: u32,
}

/// What stands behind a declared name, with its height.
#[derive(Drop)]
pub struct TallForm {
    pub form: Form,
    pub height: u32,
}

/// Declared names so far, with the greatest height of them.
#[derive(Drop)]
pub struct DeclaratorRow {
    pub declarators: Vec<Declarator>,
    pub height: u32,
}
