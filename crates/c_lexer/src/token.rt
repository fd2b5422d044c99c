ghost use Rattle.std.specs.Prelude.{◌≡◌};
ghost use Rattle.c_lexer.specs.Marks.{mark_text};

use lv_base::Text;

/// A punctuator (C11 6.4.6), without `#` and the digraphs.
#[derive(Clone, Copy, Debug, PartialEq, Eq)]
pub enum Mark {
    /// `[`
    BracketOpen,
    /// `]`
    BracketClose,
    /// `(`
    ParenOpen,
    /// `)`
    ParenClose,
    /// `{`
    BraceOpen,
    /// `}`
    BraceClose,
    /// `.`
    Dot,
    /// `->`
    Arrow,
    /// `++`
    Increment,
    /// `--`
    Decrement,
    /// `&`
    Ampersand,
    /// `*`
    Star,
    /// `+`
    Plus,
    /// `-`
    Minus,
    /// `~`
    Tilde,
    /// `!`
    Bang,
    /// `/`
    Slash,
    /// `%`
    Percent,
    /// `<<`
    ShiftLeft,
    /// `>>`
    ShiftRight,
    /// `<`
    Less,
    /// `>`
    Greater,
    /// `<=`
    LessEqual,
    /// `>=`
    GreaterEqual,
    /// `==`
    Equal,
    /// `!=`
    NotEqual,
    /// `^`
    Caret,
    /// `|`
    Bar,
    /// `&&`
    AndAnd,
    /// `||`
    OrOr,
    /// `?`
    Question,
    /// `:`
    Colon,
    /// `;`
    Semicolon,
    /// `...`
    Ellipsis,
    /// `=`
    Assign,
    /// `*=`
    StarAssign,
    /// `/=`
    SlashAssign,
    /// `%=`
    PercentAssign,
    /// `+=`
    PlusAssign,
    /// `-=`
    MinusAssign,
    /// `<<=`
    ShiftLeftAssign,
    /// `>>=`
    ShiftRightAssign,
    /// `&=`
    AmpersandAssign,
    /// `^=`
    CaretAssign,
    /// `|=`
    BarAssign,
    /// `,`
    Comma,
}

impl Mark {
    /// How it is spelled.
    pub fn text(self) -> &'static str
        ensures { result.now ≡ mark_text self }
    {
        match self {
            Mark::BracketOpen => "[",
            Mark::BracketClose => "]",
            Mark::ParenOpen => "(",
            Mark::ParenClose => ")",
            Mark::BraceOpen => "{",
            Mark::BraceClose => "}",
            Mark::Dot => ".",
            Mark::Arrow => "->",
            Mark::Increment => "++",
            Mark::Decrement => "--",
            Mark::Ampersand => "&",
            Mark::Star => "*",
            Mark::Plus => "+",
            Mark::Minus => "-",
            Mark::Tilde => "~",
            Mark::Bang => "!",
            Mark::Slash => "/",
            Mark::Percent => "%",
            Mark::ShiftLeft => "<<",
            Mark::ShiftRight => ">>",
            Mark::Less => "<",
            Mark::Greater => ">",
            Mark::LessEqual => "<=",
            Mark::GreaterEqual => ">=",
            Mark::Equal => "==",
            Mark::NotEqual => "!=",
            Mark::Caret => "^",
            Mark::Bar => "|",
            Mark::AndAnd => "&&",
            Mark::OrOr => "||",
            Mark::Question => "?",
            Mark::Colon => ":",
            Mark::Semicolon => ";",
            Mark::Ellipsis => "...",
            Mark::Assign => "=",
            Mark::StarAssign => "*=",
            Mark::SlashAssign => "/=",
            Mark::PercentAssign => "%=",
            Mark::PlusAssign => "+=",
            Mark::MinusAssign => "-=",
            Mark::ShiftLeftAssign => "<<=",
            Mark::ShiftRightAssign => ">>=",
            Mark::AmpersandAssign => "&=",
            Mark::CaretAssign => "^=",
            Mark::BarAssign => "|=",
            Mark::Comma => ",",
        }
    }
}

/// How an integer constant is written.
#[derive(Clone, Copy, Debug, PartialEq, Eq)]
pub struct NumberForm {
    /// Not in octal or hexadecimal digits.
    pub decimal: bool,
    /// With a `u` or `U`.
    pub unsigned_suffix: bool,
    /// How many `l` or `L` its suffix has: 0, 1 or 2.
    pub longs: u8,
}

/// What a token is.
#[derive(Debug, Drop)]
pub enum TokenKind {
    /// An identifier or a keyword, by its bytes.
    Word(Text),
    /// An integer constant, by its value.
    Number(u64, NumberForm),
    /// A character constant, by its value.
    Letter(i32),
    /// A string, of whose bytes nothing is kept.
    Str,
    Mark(Mark),
    /// The source's end.
    End,
}

/// A token. `at` is the offset of its first byte and `end` the offset behind its last, both in bytes from 0.
#[derive(Debug, Drop)]
pub struct Token {
    pub kind: TokenKind,
    pub at: u32,
    pub end: u32,
}
