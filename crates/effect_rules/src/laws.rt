ghost use Rattle.effect_rules.specs.Effects.{EffectsSummed};

/// The effects of an expression are what it writes and what it reads, and the sum of the rules that it breaks (C11 6.5 p2).
pub fn effects_summed()
    ensures { EffectsSummed }
{}
