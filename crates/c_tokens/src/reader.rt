ghost use Rattle.std.specs.Prelude.{◌≡◌, ◌⊎◌, List, MatchResult, Result, Ok, Err};
ghost use Rattle.c_tokens.specs.Divisions.{Fits};

use c_lexer::{Token, lex};
use lv_base::SourceFail;
use std::alloc::Global;

/// The token list of a source, or the first of its faults and limits, as `c_lexer::lex` gives it. Want of memory apart,
/// the answer is the one that fits the source.
pub fn tokens_of(alloc: Global, source: &[u8]) -> Result<Vec<Token>, SourceFail>
    ensures fits { MatchResult result
        (λ tokens. Fits source.now (Ok tokens.items))
        (λ fail. (fail ≡ SourceFail.Memory) ⊎ Fits source.now (Err fail)) }
    ensures alone { (answer : Result (List Token) SourceFail) → Fits source.now answer → MatchResult result
        (λ tokens. answer ≡ Ok tokens.items)
        (λ fail. (fail ≡ SourceFail.Memory) ⊎ (answer ≡ Err fail)) }
{
    lex(alloc, source)
}
