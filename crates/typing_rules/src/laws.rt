ghost use Rattle.typing_rules.specs.Summed.{ExpressionsSummed, WordsSummed, ConstantsSummed};

/// The sum of an expression is that of the rules that it breaks (C11 6.5).
pub fn expressions_summed()
    ensures { ExpressionsSummed }
{}

/// The sum of a declaration's words is that of the rules that they break: tags, and the constants of enumerations.
pub fn words_summed()
    ensures { WordsSummed }
{}

/// The sum of a constant expression's own lines is that of the rules.
pub fn constants_summed()
    ensures { ConstantsSummed }
{}
