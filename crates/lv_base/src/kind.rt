ghost use Rattle.std.specs.Prelude.{◌≡◌};
ghost use Rattle.lv_base.specs.Names.{model_name};

/// An integer type of C by its rank and sign (C11 6.2.5): `UChar` is `unsigned char`, and so on. `Char` is signed.
#[derive(Clone, Copy, Debug, PartialEq, Eq)]
pub enum Kind {
    Bool,
    Char,
    UChar,
    Short,
    UShort,
    Int,
    UInt,
    Long,
    ULong,
    LongLong,
    ULongLong,
}

/// A data model, which says how wide the integer types are. They differ in `long` alone: 32 bits in `Ilp32`, 64 in
/// `Lp64`.
#[derive(Clone, Copy, Debug, PartialEq, Eq)]
pub enum Model {
    Ilp32,
    Lp64,
}

impl Model {
    /// Its name as a command line and a certificate write it: `ilp32` or `lp64`.
    pub fn name(self) -> &'static str
        ensures { result.now ≡ model_name self }
    {
        match self {
            Model::Ilp32 => "ilp32",
            Model::Lp64 => "lp64",
        }
    }
}

/// An operation of two operands (C11 6.5.5 to 6.5.12). `>`, `>=` and `!=` are these with the operands or the result
/// turned.
#[derive(Clone, Copy, Debug, PartialEq, Eq)]
pub enum Op {
    Add,
    Sub,
    Mul,
    Div,
    Rem,
    Shl,
    Shr,
    And,
    Or,
    Xor,
    Less,
    LessEqual,
    Equal,
}
