//! Classes of bytes.
ghost use Rattle.std.specs.Prelude.{◌≡◌};
ghost use Rattle.c_lexer.specs.Bytes.{is_blank, is_letter, is_digit, is_word_byte, is_indent, goes_on, is_plain, is_sign, is_exponent};

pub(crate) fn blank(byte: u8) -> bool
    ensures { result ≡ is_blank byte }
{
    byte == b' ' || (9 <= byte && byte <= 13)
}

pub(crate) fn indent(byte: u8) -> bool
    ensures { result ≡ is_indent byte }
{
    byte == b' ' || byte == b'\t'
}

pub(crate) fn letter(byte: u8) -> bool
    ensures { result ≡ is_letter byte }
{
    (b'A' <= byte && byte <= b'Z') || (b'a' <= byte && byte <= b'z') || byte == b'_'
}

pub(crate) fn digit(byte: u8) -> bool
    ensures { result ≡ is_digit byte }
{
    b'0' <= byte && byte <= b'9'
}

pub(crate) fn word_byte(byte: u8) -> bool
    ensures { result ≡ is_word_byte byte }
{
    letter(byte) || digit(byte)
}

fn sign(byte: u8) -> bool
    ensures { result ≡ is_sign byte }
{
    byte == b'+' || byte == b'-'
}

fn exponent(byte: u8) -> bool
    ensures { result ≡ is_exponent byte }
{
    byte == b'e' || byte == b'E' || byte == b'p' || byte == b'P'
}

// Whether a number of the preprocessor goes on with this byte, after that one.
pub(crate) fn number_goes_on(before: u8, byte: u8) -> bool
    ensures { result ≡ goes_on before byte }
{
    word_byte(byte) || byte == b'.' || (exponent(before) && sign(byte))
}

// Whether the byte stands for itself in a character constant.
pub(crate) fn plain(byte: u8) -> bool
    ensures { result ≡ is_plain byte }
{
    32 <= byte && byte <= 126 && byte != b'\'' && byte != b'\\'
}
