ghost use Rattle.std.specs.Prelude.{◌≡◌, IfOk, bytes_eq, map};
ghost use Rattle.std.specs.Option.{option_map};
ghost use Rattle.std.specs.List.{find};
ghost use Rattle.parser_symbols.specs.Keywords.{among, spelled};
ghost use Rattle.parser_symbols.specs.Marks as mk;
ghost use Rattle.c_tree.specs.Symbols as sg;

use c_lexer::{Mark, Token, TokenKind};
use c_tree::{AssignOp, BinaryOp, Bracket, Crement, KEYWORDS, Keyword, Symbol, SymbolAt};
use lv_base::{Memory, Text};
use std::alloc::Global;

/// Whether the word has these bytes.
fn is_spelled(word: &str, text: &[u8]) -> bool
    ensures { result ≡ bytes_eq word.now text.now }
{
    word.as_bytes() == text
}

fn first_word(words: &[(&str, Keyword)], text: &[u8]) -> Option<Keyword>
    ensures { result ≡ option_map (λ k. k.1) (find (λ k. bytes_eq k.0.now text.now) words.now) }
{
    words.iter().find(|k| is_spelled(k.0, text)).map(|k| k.1)
}

/// The first of these words that is spelled so.
fn find_word(words: &[(&str, Keyword)], text: &[u8]) -> Option<Keyword>
    ensures { result ≡ among text.now (map (λ k. spelled k.0.now k.1) words.now) }
{
    first_word(words, text)
}

/// The keyword that is spelled so.
fn keyword_of(text: &[u8]) -> Option<Keyword>
    ensures { result ≡ sg.keyword_of text.now }
{
    find_word(&KEYWORDS, text)
}

/// The assignment that the mark is.
fn assignment(mark: Mark) -> Option<AssignOp>
    ensures { result ≡ mk.assignment_in (sg.mark_symbol mark) }
{
    match mark {
        Mark::Assign => Some(AssignOp::Plain),
        Mark::StarAssign => Some(AssignOp::Multiply),
        Mark::SlashAssign => Some(AssignOp::Divide),
        Mark::PercentAssign => Some(AssignOp::Remainder),
        Mark::PlusAssign => Some(AssignOp::Add),
        Mark::MinusAssign => Some(AssignOp::Subtract),
        Mark::ShiftLeftAssign => Some(AssignOp::ShiftLeft),
        Mark::ShiftRightAssign => Some(AssignOp::ShiftRight),
        Mark::AmpersandAssign => Some(AssignOp::BitAnd),
        Mark::CaretAssign => Some(AssignOp::BitXor),
        Mark::BarAssign => Some(AssignOp::BitOr),
        _ => None,
    }
}

/// The operator of two operands that the mark is.
fn operator(mark: Mark) -> Option<BinaryOp>
    ensures { result ≡ mk.operator_in (sg.mark_symbol mark) }
{
    match mark {
        Mark::Ampersand => Some(BinaryOp::BitAnd),
        Mark::Star => Some(BinaryOp::Multiply),
        Mark::Plus => Some(BinaryOp::Add),
        Mark::Minus => Some(BinaryOp::Subtract),
        Mark::Slash => Some(BinaryOp::Divide),
        Mark::Percent => Some(BinaryOp::Remainder),
        Mark::ShiftLeft => Some(BinaryOp::ShiftLeft),
        Mark::ShiftRight => Some(BinaryOp::ShiftRight),
        Mark::Less => Some(BinaryOp::Less),
        Mark::Greater => Some(BinaryOp::Greater),
        Mark::LessEqual => Some(BinaryOp::LessEqual),
        Mark::GreaterEqual => Some(BinaryOp::GreaterEqual),
        Mark::Equal => Some(BinaryOp::Equal),
        Mark::NotEqual => Some(BinaryOp::NotEqual),
        Mark::Caret => Some(BinaryOp::BitXor),
        Mark::Bar => Some(BinaryOp::BitOr),
        Mark::AndAnd => Some(BinaryOp::AndAlso),
        Mark::OrOr => Some(BinaryOp::OrElse),
        _ => None,
    }
}

/// The mark, where it is neither; the end stands for what is one of them.
fn other_mark(mark: Mark) -> Symbol
    ensures { result ≡ mk.other_in (sg.mark_symbol mark) }
{
    match mark {
        Mark::BracketOpen => Symbol::Open(Bracket::Square),
        Mark::BracketClose => Symbol::Close(Bracket::Square),
        Mark::ParenOpen => Symbol::Open(Bracket::Round),
        Mark::ParenClose => Symbol::Close(Bracket::Round),
        Mark::BraceOpen => Symbol::Open(Bracket::Curly),
        Mark::BraceClose => Symbol::Close(Bracket::Curly),
        Mark::Dot => Symbol::Dot,
        Mark::Arrow => Symbol::Arrow,
        Mark::Increment => Symbol::Crement(Crement::Increment),
        Mark::Decrement => Symbol::Crement(Crement::Decrement),
        Mark::Tilde => Symbol::Tilde,
        Mark::Bang => Symbol::Bang,
        Mark::Question => Symbol::Question,
        Mark::Colon => Symbol::Colon,
        Mark::Semicolon => Symbol::Semicolon,
        Mark::Ellipsis => Symbol::Ellipsis,
        Mark::Comma => Symbol::Comma,
        _ => Symbol::End,
    }
}

fn joined(assignment: Option<AssignOp>, operator: Option<BinaryOp>, other: Symbol) -> Symbol
    ensures { result ≡ mk.joined assignment operator other }
{
    match (assignment, operator) {
        (Some(op), _) => Symbol::Assign(op),
        (None, Some(op)) => Symbol::Binary(op),
        (None, None) => other,
    }
}

fn mark_symbol(mark: Mark) -> Symbol
    ensures { result ≡ sg.mark_symbol mark }
{
    joined(assignment(mark), operator(mark), other_mark(mark))
}

fn word_symbol(alloc: Global, bytes: &[u8]) -> Result<Symbol, Memory>
    ensures { IfOk result (λ s. s ≡ sg.word_symbol bytes.now (sg.keyword_of bytes.now)) }
{
    Ok(match keyword_of(bytes) {
        None => Symbol::Name(Text::copy_of(alloc, bytes)?),
        Some(Keyword::Type(w)) => Symbol::Type(w),
        Some(Keyword::Storage(w)) => Symbol::Storage(w),
        Some(Keyword::Const(w)) => Symbol::Const(w),
        Some(Keyword::Attribute(w)) => Symbol::Attribute(w),
        Some(Keyword::Statement(w)) => Symbol::Statement(w),
        Some(Keyword::Enum) => Symbol::Enum,
        Some(Keyword::Extension) => Symbol::Extension,
        Some(Keyword::Sizeof) => Symbol::Sizeof,
        Some(Keyword::Listed) => Symbol::Listed(Text::copy_of(alloc, bytes)?),
        Some(Keyword::Foreign) => Symbol::Foreign(Text::copy_of(alloc, bytes)?),
    })
}

fn symbol_of(alloc: Global, kind: &TokenKind) -> Result<Symbol, Memory>
    ensures { IfOk result (λ s. s ≡ sg.symbol_of kind.now) }
{
    match kind {
        TokenKind::Word(text) => word_symbol(alloc, text.as_bytes()),
        TokenKind::Number(value, form) => Ok(Symbol::Number(*value, *form)),
        TokenKind::Letter(value) => Ok(Symbol::Letter(*value)),
        TokenKind::Str => Ok(Symbol::Str),
        TokenKind::Mark(m) => Ok(mark_symbol(*m)),
        TokenKind::End => Ok(Symbol::End),
    }
}

/// The token as the grammar sees it.
pub fn sign_of(alloc: Global, token: &Token) -> Result<SymbolAt, Memory>
    ensures { IfOk result (λ s. s ≡ sg.sign_of token.now) }
{
    Ok(SymbolAt {
        symbol: symbol_of(alloc, &token.kind)?,
        at: token.at,
    })
}
