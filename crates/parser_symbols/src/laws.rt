ghost use Rattle.parser_symbols.specs.Standard.{WordsAre};

/// Which words are no names, and what each of them is, stands in a table of its own, written from the standard.
pub fn words_are()
    ensures { WordsAre }
{}
