//! Where reading stands in a certificate.

ghost use Rattle.std.specs.Prelude.{◌≡◌};
ghost use Rattle.cert_text.specs.Places.{fixed_bytes, next_slot, want_of, is_done_at};

use crate::letters::Form;

/// The words that stand in each certificate.
#[derive(Clone, Copy)]
pub enum Fixed {
    Head,
    BeforeModel,
    RestIlp32,
    RestLp64,
    BeforeTerms,
    BeforeNodes,
    BeforeLogs,
    BeforeChains,
    Close,
}

/// What is read next: some words, a byte, or a number. A number's line end or blank belongs to it.
#[derive(Clone, Copy)]
pub enum Slot {
    /// These words.
    Text(Fixed),
    /// The high digit of this byte of the hash.
    High(u8),
    /// The low digit of this byte of the hash, whose high digit has this value.
    Low(u8, u8),
    /// The first letter of the data model.
    Kind,
    /// The layout.
    Layout,
    /// How many terms there are.
    Terms,
    /// The letter of a term.
    Letter,
    /// The blank behind a letter.
    Gap(Form),
    /// The first number of a term.
    First(Form),
    /// The second number of a term, behind its first.
    Second(Form, u32),
    /// The third number of a term, behind the others.
    Third(Form, u32, u32),
    /// The value of a constant of this width.
    Value(u32),
    /// How many nodes there are.
    Nodes,
    /// A node's formula.
    Formula,
    /// How many logs there are.
    Logs,
    /// How many chains a log has.
    Chains,
    /// The first clause of a chain.
    Start,
    /// The pivot of a pair.
    Pivot,
    /// The clause of a pair, behind its pivot.
    Clause(u32),
    /// Nothing more.
    Done,
}

/// What is read next, how many terms, formulas or logs are left with it, and how many chains of its log.
#[derive(Clone, Copy)]
pub struct Place {
    pub slot: Slot,
    pub left: u32,
    pub chains: u32,
}

/// How what is read next is spelled.
#[derive(Clone, Copy)]
pub enum Want {
    /// These words.
    Text(Fixed),
    /// A byte.
    Byte,
    /// A number below 2^32 and the byte behind it.
    Number,
    /// A constant's value below 2^128 and the byte behind it; the constant's width.
    Wide(u32),
}

/// What was read of it.
#[derive(Clone, Copy)]
pub enum Part {
    /// Nothing.
    Fresh,
    /// So many bytes of words.
    Matched(usize),
    /// The digits of a number.
    Digits(u32),
    /// The digits of a constant's value.
    WideDigits(u128),
}

impl Fixed {
    /// Its bytes.
    pub fn bytes(self) -> &'static [u8]
        ensures { result.now ≡ fixed_bytes self }
    {
        match self {
            Fixed::Head => b"lac 1\nsource ",
            Fixed::BeforeModel => b"\nmodel ",
            Fixed::RestIlp32 => b"lp32\nlayout ",
            Fixed::RestLp64 => b"p64\nlayout ",
            Fixed::BeforeTerms => b"terms ",
            Fixed::BeforeNodes => b"map ",
            Fixed::BeforeLogs => b"logs ",
            Fixed::BeforeChains => b"log ",
            Fixed::Close => b"end\n",
        }
    }

    /// What stands behind it.
    pub fn next(self) -> Slot
        ensures { result ≡ next_slot self }
    {
        match self {
            Fixed::Head => Slot::High(0),
            Fixed::BeforeModel => Slot::Kind,
            Fixed::RestIlp32 | Fixed::RestLp64 => Slot::Layout,
            Fixed::BeforeTerms => Slot::Terms,
            Fixed::BeforeNodes => Slot::Nodes,
            Fixed::BeforeLogs => Slot::Logs,
            Fixed::BeforeChains => Slot::Chains,
            Fixed::Close => Slot::Done,
        }
    }
}

impl Slot {
    /// How it is spelled.
    pub fn want(self) -> Want
        ensures { result ≡ want_of self }
    {
        match self {
            Slot::Text(text) => Want::Text(text),
            Slot::Value(width) => Want::Wide(width),
            Slot::High(_)
            | Slot::Low(_, _)
            | Slot::Kind
            | Slot::Letter
            | Slot::Gap(_)
            | Slot::Done => Want::Byte,
            _ => Want::Number,
        }
    }

    /// Whether the certificate is whole.
    pub fn is_done(self) -> bool
        ensures { result ≡ is_done_at self }
    {
        matches!(self, Slot::Done)
    }
}
