ghost use Rattle.declaration_rules.specs.Laws.{MainTold, TwiceTold};

/// The names that are found to be declared twice are those of the rules (C11 6.2.2, 6.7 p3, p4, 6.9 p3).
pub fn twice_told()
    ensures { TwiceTold }
{}

/// What is found of `main` is what the rules say (C11 5.1.2.2.1).
pub fn main_told()
    ensures { MainTold }
{}
