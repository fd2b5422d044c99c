ghost use Rattle.std.specs.Prelude.{◌≡◌, ◌&&◌, ◌||◌, ◌==◌, nat_lt};

/// A bit of a cell, counted from the lowest, which is bit 0.
#[derive(Clone, Copy, PartialEq, Eq, Hash)]
pub struct BitOf {
    pub cell: u32,
    pub bit: u32,
}

impl BitOf {
    /// Whether this bit is asked for before another: high bits first, then by cells.
    pub fn is_before(self, other: BitOf) -> bool {
        self.bit > other.bit || self.bit == other.bit && self.cell < other.cell
    }
}

/// The number of a formula.
#[derive(Clone, Copy, PartialEq, Eq, Hash)]
pub struct NodeId(pub u32);

/// A choice: where the bit is 1 the formula is `high`, else `low`.
#[derive(Clone, Copy, PartialEq, Eq, Hash)]
pub struct Node {
    pub top: BitOf,
    pub low: NodeId,
    pub high: NodeId,
}
