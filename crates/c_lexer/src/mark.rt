ghost use Rattle.std.specs.Prelude.{◌≡◌};
ghost use Rattle.c_lexer.specs.Marks.{mark_of_one, mark_of_two, mark_of_three};

use crate::Mark;

// The mark of one byte.
pub(crate) fn one_byte_mark(a: u8) -> Option<Mark>
    ensures { result ≡ mark_of_one a }
{
    match a {
        b'[' => Some(Mark::BracketOpen),
        b']' => Some(Mark::BracketClose),
        b'(' => Some(Mark::ParenOpen),
        b')' => Some(Mark::ParenClose),
        b'{' => Some(Mark::BraceOpen),
        b'}' => Some(Mark::BraceClose),
        b'.' => Some(Mark::Dot),
        b'&' => Some(Mark::Ampersand),
        b'*' => Some(Mark::Star),
        b'+' => Some(Mark::Plus),
        b'-' => Some(Mark::Minus),
        b'~' => Some(Mark::Tilde),
        b'!' => Some(Mark::Bang),
        b'/' => Some(Mark::Slash),
        b'%' => Some(Mark::Percent),
        b'<' => Some(Mark::Less),
        b'>' => Some(Mark::Greater),
        b'^' => Some(Mark::Caret),
        b'|' => Some(Mark::Bar),
        b'?' => Some(Mark::Question),
        b':' => Some(Mark::Colon),
        b';' => Some(Mark::Semicolon),
        b'=' => Some(Mark::Assign),
        b',' => Some(Mark::Comma),
        _ => None,
    }
}

// The mark of these two bytes.
pub(crate) fn two_byte_mark(a: u8, b: u8) -> Option<Mark>
    ensures { result ≡ mark_of_two a b }
{
    match a {
        b'-' if b == b'>' => Some(Mark::Arrow),
        b'+' if b == b'+' => Some(Mark::Increment),
        b'-' if b == b'-' => Some(Mark::Decrement),
        b'<' if b == b'<' => Some(Mark::ShiftLeft),
        b'>' if b == b'>' => Some(Mark::ShiftRight),
        b'<' if b == b'=' => Some(Mark::LessEqual),
        b'>' if b == b'=' => Some(Mark::GreaterEqual),
        b'=' if b == b'=' => Some(Mark::Equal),
        b'!' if b == b'=' => Some(Mark::NotEqual),
        b'&' if b == b'&' => Some(Mark::AndAnd),
        b'|' if b == b'|' => Some(Mark::OrOr),
        b'*' if b == b'=' => Some(Mark::StarAssign),
        b'/' if b == b'=' => Some(Mark::SlashAssign),
        b'%' if b == b'=' => Some(Mark::PercentAssign),
        b'+' if b == b'=' => Some(Mark::PlusAssign),
        b'-' if b == b'=' => Some(Mark::MinusAssign),
        b'&' if b == b'=' => Some(Mark::AmpersandAssign),
        b'^' if b == b'=' => Some(Mark::CaretAssign),
        b'|' if b == b'=' => Some(Mark::BarAssign),
        _ => None,
    }
}

// The mark of these three bytes.
pub(crate) fn three_byte_mark(a: u8, b: u8, c: u8) -> Option<Mark>
    ensures { result ≡ mark_of_three a b c }
{
    match a {
        b'.' if b == b'.' && c == b'.' => Some(Mark::Ellipsis),
        b'<' if b == b'<' && c == b'=' => Some(Mark::ShiftLeftAssign),
        b'>' if b == b'>' && c == b'=' => Some(Mark::ShiftRightAssign),
        _ => None,
    }
}
