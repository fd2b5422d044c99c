ghost use Rattle.jump_rules.specs.Walk.{BodiesWalked};

/// A walk over a body finds its labels and gotos with their scopes, and the sum of the rules of `break`, `continue`, `case`,
/// `default` and `return` that it breaks.
pub fn bodies_walked()
    ensures { BodiesWalked }
{}
