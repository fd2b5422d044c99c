ghost use Rattle.std.specs.Prelude.{◌≡◌, take, length, ◌≤◌};

use std::marker::Model;

/// The values of a run, which contracts see as their list.
#[derive(Debug, Drop)]
pub struct Values {
    items: Vec<i128>,
}

impl Model for Values {
    ghost use Rattle.std.specs.Prelude.{List, ℤ};

    ghost Value = { List ℤ };

    ghost view = { λ v. v.items.items };
}

impl Values {
    /// The values of a run, which it takes over.
    pub fn new(items: Vec<i128>) -> Values
        ensures { result ≡ items.items }
    {
        Values { items }
    }

    /// The values, in the order in which they are drawn.
    pub fn as_slice(&self) -> &[i128]
        ensures { result.now ≡ self.now }
    {
        &self.items
    }

    /// The first values, so many of them.
    pub fn first(self, count: usize) -> Values
        ensures { result ≡ take count self }
    {
        let Values { mut items } = self;
        items.truncate(count);
        Values { items }
    }
}
