//! The letters that the lines of terms begin with.

ghost use Rattle.std.specs.Prelude.{◌≡◌};
ghost use Rattle.cert_text.specs.Letters.{form_of, operands_of, term_of};

use bv_term::{Term, TermId};

/// The form of a term, which its letter tells.
#[derive(Clone, Copy)]
pub enum Form {
    Constant,
    Cell,
    Element,
    Add,
    Subtract,
    Multiply,
    Divide,
    Remainder,
    And,
    Or,
    Xor,
    Not,
    ShiftLeft,
    ShiftRight,
    ShiftSigned,
    Equal,
    Less,
    LessSigned,
    Select,
    ZeroExtend,
    SignExtend,
    Truncate,
    Bit,
}

/// How many numbers stand behind a letter.
#[derive(Clone, Copy)]
pub enum Operands {
    /// A width, and a value of up to 128 bits.
    Wide,
    One,
    Two,
    Three,
}

/// The form that a letter tells, if it is one.
pub fn form_told(byte: u8) -> Option<Form>
    ensures { result ≡ form_of byte }
{
    match byte {
        b'c' => Some(Form::Constant),
        b'x' => Some(Form::Cell),
        b's' => Some(Form::Element),
        b'+' => Some(Form::Add),
        b'-' => Some(Form::Subtract),
        b'*' => Some(Form::Multiply),
        b'/' => Some(Form::Divide),
        b'%' => Some(Form::Remainder),
        b'&' => Some(Form::And),
        b'o' => Some(Form::Or),
        b'^' => Some(Form::Xor),
        b'~' => Some(Form::Not),
        b'l' => Some(Form::ShiftLeft),
        b'r' => Some(Form::ShiftRight),
        b'a' => Some(Form::ShiftSigned),
        b'=' => Some(Form::Equal),
        b'u' => Some(Form::Less),
        b'v' => Some(Form::LessSigned),
        b'?' => Some(Form::Select),
        b'z' => Some(Form::ZeroExtend),
        b'g' => Some(Form::SignExtend),
        b't' => Some(Form::Truncate),
        b'b' => Some(Form::Bit),
        _ => None,
    }
}

impl Form {
    /// The numbers behind its letter.
    pub fn operands(self) -> Operands
        ensures { result ≡ operands_of self }
    {
        match self {
            Form::Constant => Operands::Wide,
            Form::Cell | Form::Not => Operands::One,
            Form::Element | Form::Select => Operands::Three,
            _ => Operands::Two,
        }
    }

    /// The term of these numbers, of which the later ones are left aside where there are fewer.
    pub fn term(self, a: u32, b: u32, c: u32) -> Term
        ensures { result ≡ term_of self a b c }
    {
        let (i, j, k) = (TermId(a), TermId(b), TermId(c));
        match self {
            Form::Constant => Term::Constant(a, b as u128),
            Form::Cell => Term::Cell(a),
            Form::Element => Term::Element(a, b, k),
            Form::Add => Term::Add(i, j),
            Form::Subtract => Term::Subtract(i, j),
            Form::Multiply => Term::Multiply(i, j),
            Form::Divide => Term::Divide(i, j),
            Form::Remainder => Term::Remainder(i, j),
            Form::And => Term::And(i, j),
            Form::Or => Term::Or(i, j),
            Form::Xor => Term::Xor(i, j),
            Form::Not => Term::Not(i),
            Form::ShiftLeft => Term::ShiftLeft(i, j),
            Form::ShiftRight => Term::ShiftRight(i, j),
            Form::ShiftSigned => Term::ShiftSigned(i, j),
            Form::Equal => Term::Equal(i, j),
            Form::Less => Term::Less(i, j),
            Form::LessSigned => Term::LessSigned(i, j),
            Form::Select => Term::Select(i, j, k),
            Form::ZeroExtend => Term::ZeroExtend(a, j),
            Form::SignExtend => Term::SignExtend(a, j),
            Form::Truncate => Term::Truncate(a, j),
            Form::Bit => Term::Bit(a, j),
        }
    }
}
