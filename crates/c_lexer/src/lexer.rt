ghost use Rattle.std.specs.Prelude.{◌≡◌, ◌<◌, ◌^◌, ◌⊎◌, length, MatchResult, Ok, Err};
ghost use Rattle.c_lexer.specs.Lexed.{lexed, token_of};

use crate::step::{Step, first_step};
use crate::{Token, TokenKind};
use lv_base::SourceFail;
use std::alloc::Global;

const MOST_BYTES: usize = 1_048_576;

const MOST_TOKENS: usize = 200_000;

/// The tokens of a source, the last of them `End` at its length. A source of more than 1,048,576 bytes passes limit 1,
/// before all else, and the 200,001st token passes limit 2; the faults are those of a source's bytes.
pub fn lex(alloc: Global, source: &[u8]) -> Result<Vec<Token>, SourceFail>
    ensures { MatchResult result
        (λ tokens. lexed source.now ≡ Ok tokens.items)
        (λ fail. (fail ≡ SourceFail.Memory) ⊎ (lexed source.now ≡ Err fail)) }
{
    if source.len() > MOST_BYTES {
        return Err(SourceFail::Over(1, source.len() as u64));
    }
    let mut tokens = Vec::new(alloc);
    let mut at = 0;
    let mut fresh = true;
    while at < source.len() {
        match first_step(alloc, fresh, &source[at..])? {
            Step::Skip(width, next) => {
                at += width;
                fresh = next;
            }
            Step::Token(kind, width) => {
                if tokens.len() >= MOST_TOKENS {
                    return Err(SourceFail::Over(2, 200_001));
                }
                tokens.push(token(kind, at, at + width))?;
                at += width;
                fresh = false;
            }
            Step::Fault(fault) => return Err(SourceFail::Fault(fault, at as u32)),
        }
    }
    tokens.push(token(TokenKind::End, at, at))?;
    Ok(tokens)
}

fn token(kind: TokenKind, at: usize, end: usize) -> Token
    requires at { at < 2 ^ 32 }
    requires end { end < 2 ^ 32 }
    ensures { result ≡ token_of kind at end }
{
    Token {
        kind,
        at: at as u32,
        end: end as u32,
    }
}
