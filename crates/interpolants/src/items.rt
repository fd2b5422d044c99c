use formula_diagrams::BitOf;
use prop::Lit;

/// The number of a formula in its algebra.
#[derive(Clone, Copy)]
pub struct Formula(pub u32);

/// What a clause was found to be in the walk of an epoch.
#[derive(Clone, Copy)]
pub struct Mark {
    pub epoch: u32,
    pub formula: Formula,
}

/// A bit of a cut's cell, and its literal.
#[derive(Clone, Copy)]
pub struct Placed {
    pub bit: BitOf,
    pub lit: Lit,
}

/// Two bits of a cut whose literals have one variable.
#[derive(Clone, Copy)]
pub struct Twins {
    pub one: Placed,
    pub other: Placed,
}
