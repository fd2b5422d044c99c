ghost use Rattle.std.specs.Prelude.{◌≡◌};
ghost use Rattle.lv_base.specs.Names.{error_name, fault_number, fault_name};

/// The errors that a run of a program can reach.
#[derive(Clone, Copy, Debug, PartialEq, Eq)]
pub enum ErrorKind {
    /// A call of `reach_error`.
    Reach,
    /// A signed result that its type does not hold.
    Overflow,
    /// A divisor of 0.
    Zero,
    /// A shift by a negative or too large amount, or a signed left shift that its type does not hold.
    Shift,
    /// An index outside its array.
    Index,
    /// The use of a value that a function did not return.
    Missing,
}

impl ErrorKind {
    /// Its name as the program prints it.
    pub fn name(self) -> &'static str
        ensures { result.now ≡ error_name self }
    {
        match self {
            ErrorKind::Reach => "reach",
            ErrorKind::Overflow => "overflow",
            ErrorKind::Zero => "zero",
            ErrorKind::Shift => "shift",
            ErrorKind::Index => "index",
            ErrorKind::Missing => "missing",
        }
    }
}

/// The faults for which a source is refused, in the order of their numbers. docs/LANGUAGE.md says when each comes.
#[derive(Clone, Copy, Debug, PartialEq, Eq)]
pub enum SourceFault {
    BadByte,
    Unclosed,
    Directive,
    BadNumber,
    Syntax,
    UnknownName,
    Redeclared,
    NotScalar,
    WrongCall,
    NotConstant,
    Label,
    JumpIntoScope,
    Unsequenced,
    Recursion,
    NoMain,
    Unsupported,
    ConstWritten,
    DuplicateCase,
    BadJump,
}

impl SourceFault {
    /// Its number, from 1.
    pub fn number(self) -> u8
        ensures { result ≡ fault_number self }
    {
        match self {
            SourceFault::BadByte => 1,
            SourceFault::Unclosed => 2,
            SourceFault::Directive => 3,
            SourceFault::BadNumber => 4,
            SourceFault::Syntax => 5,
            SourceFault::UnknownName => 6,
            SourceFault::Redeclared => 7,
            SourceFault::NotScalar => 8,
            SourceFault::WrongCall => 9,
            SourceFault::NotConstant => 10,
            SourceFault::Label => 11,
            SourceFault::JumpIntoScope => 12,
            SourceFault::Unsequenced => 13,
            SourceFault::Recursion => 14,
            SourceFault::NoMain => 15,
            SourceFault::Unsupported => 16,
            SourceFault::ConstWritten => 17,
            SourceFault::DuplicateCase => 18,
            SourceFault::BadJump => 19,
        }
    }

    /// Its name as the program prints it.
    pub fn name(self) -> &'static str
        ensures { result.now ≡ fault_name self }
    {
        match self {
            SourceFault::BadByte => "BadByte",
            SourceFault::Unclosed => "Unclosed",
            SourceFault::Directive => "Directive",
            SourceFault::BadNumber => "BadNumber",
            SourceFault::Syntax => "Syntax",
            SourceFault::UnknownName => "UnknownName",
            SourceFault::Redeclared => "Redeclared",
            SourceFault::NotScalar => "NotScalar",
            SourceFault::WrongCall => "WrongCall",
            SourceFault::NotConstant => "NotConstant",
            SourceFault::Label => "Label",
            SourceFault::JumpIntoScope => "JumpIntoScope",
            SourceFault::Unsequenced => "Unsequenced",
            SourceFault::Recursion => "Recursion",
            SourceFault::NoMain => "NoMain",
            SourceFault::Unsupported => "Unsupported",
            SourceFault::ConstWritten => "ConstWritten",
            SourceFault::DuplicateCase => "DuplicateCase",
            SourceFault::BadJump => "BadJump",
        }
    }
}
