ghost use Rattle.source_rules.specs.Summed.{ItemsSummed};

/// The sum of a source's items is that of the rules of names, types, calls, constants and cases that they break, but for names
/// that are declared twice and for `main` (C11 6.7, 6.8, 6.9).
pub fn items_summed()
    ensures { ItemsSummed }
{}
