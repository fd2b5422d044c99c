//! What a token list and a fault of a source are, each law the contract of a function that does nothing.
ghost use Rattle.c_tokens.specs.Laws.{HasOne, HasNoOther, HasSpans, IsLexed};

/// Every source has a token list or a fault.
pub fn has_one()
    ensures { HasOne }
{}

/// No source has two token lists, two faults, or both.
pub fn has_no_other()
    ensures { HasNoOther }
{}

/// The spans of a token list rise without overlapping, and each is a token's, the longest at its place.
pub fn has_spans()
    ensures { HasSpans }
{}

/// The lexer's definition gives exactly what fits a source: its tokens, or the first of its faults and limits.
pub fn is_lexed()
    ensures { IsLexed }
{}
