ghost use Rattle.std.specs.Prelude.{◌≡◌};

use prop::{Clauses, Lit};
use std::marker::Model;

/// Literals, lowest bit first. Contracts see the list of them.
#[derive(Drop)]
pub struct Lits {
    items: Vec<Lit>,
}

impl Model for Lits {
    ghost use Rattle.std.specs.Prelude.{List};
    ghost use Rattle.prop.specs.declared.Lit.{Lit};

    ghost Value = { List Lit };

    ghost view = { λ l. l.items.items };
}

impl Lits {
    /// The literals of a list. It takes no memory.
    pub fn new(items: Vec<Lit>) -> Lits
        ensures { result ≡ items.items }
    {
        Lits { items }
    }

    /// The literals in order.
    pub fn as_slice(&self) -> &[Lit]
        ensures { result.now ≡ self.now }
    {
        &self.items
    }
}

/// A cell with the literals of its bits, as many as the cell is wide.
#[derive(Drop)]
pub struct Bundle {
    /// The cell's number.
    pub cell: u32,
    /// Its bits, lowest first.
    pub bits: Lits,
}

/// Cells with their literals. Contracts see the list of them.
#[derive(Drop)]
pub struct Bundles {
    items: Vec<Bundle>,
}

impl Model for Bundles {
    ghost use Rattle.std.specs.Prelude.{List};
    ghost use Rattle.path_query.specs.declared.query.Bundle.{Bundle};

    ghost Value = { List Bundle };

    ghost view = { λ b. b.items.items };
}

impl Bundles {
    /// The cells of a list. It takes no memory.
    pub fn new(items: Vec<Bundle>) -> Bundles
        ensures { result ≡ items.items }
    {
        Bundles { items }
    }

    /// The cells in order.
    pub fn as_slice(&self) -> &[Bundle]
        ensures { result.now ≡ self.now }
    {
        &self.items
    }
}

/// The cells of each cut. Contracts see the list of lists.
#[derive(Drop)]
pub struct Cuts {
    items: Vec<Bundles>,
}

impl Model for Cuts {
    ghost use Rattle.std.specs.Prelude.{List};
    ghost use Rattle.path_query.specs.declared.query.Bundle.{Bundle};

    ghost Value = { List (List Bundle) };

    ghost view = { λ c. c.items.items };
}

impl Cuts {
    /// The cuts of a list. It takes no memory.
    pub fn new(items: Vec<Bundles>) -> Cuts
        ensures { result ≡ items.items }
    {
        Cuts { items }
    }

    /// The cuts in order.
    pub fn as_slice(&self) -> &[Bundles]
        ensures { result.now ≡ self.now }
    {
        &self.items
    }
}

/// The numbers of clauses at which steps begin. Contracts see the list of them.
#[derive(Drop)]
pub struct Starts {
    items: Vec<u32>,
}

impl Model for Starts {
    ghost use Rattle.std.specs.Prelude.{ℕ, List};

    ghost Value = { List ℕ };

    ghost view = { λ s. s.items.items };
}

impl Starts {
    /// The numbers of a list. It takes no memory.
    pub fn new(items: Vec<u32>) -> Starts
        ensures { result ≡ items.items }
    {
        Starts { items }
    }

    /// The numbers in order.
    pub fn as_slice(&self) -> &[u32]
        ensures { result.now ≡ self.now }
    {
        &self.items
    }
}

/// The clauses of a path, whose satisfying assignments are the path's runs.
#[derive(Drop)]
pub struct PathQuery {
    /// The clauses of all steps, in order.
    pub clauses: Clauses,
    /// The number of each step's first clause.
    pub starts: Starts,
    /// The literals of the drawn values, in the order of the draws, each with the cell that it is drawn into.
    pub draws: Bundles,
    /// At each cut, from that before the first step to that behind the last, the literals of each cell that the steps
    /// behind it read before they set it, by rising cells.
    pub cuts: Cuts,
}
