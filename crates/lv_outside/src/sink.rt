ghost use Rattle.std.specs.Prelude.{◌≡◌, ◌≤◌, ℕ, List, ◌++◌, OnOk, OnErr};
ghost use Rattle.lv_outside.specs.Counts.{Rose};
ghost use Rattle.lv_outside.specs.Bytes.{GrewByFront};

/// Text could not be put out.
#[derive(Clone, Copy, Debug, PartialEq, Eq)]
pub struct Failed;

/// Where text is printed. A sink says what was put by `text`, where it `tells` it; one that stops telling never tells
/// again.
pub trait Sink {
    /// Whether it tells its text.
    ghost tells: { Self → Type 0 };

    /// What was put so far.
    ghost text: { Self → List ℕ };

    /// How often a put has failed.
    ghost faults: { Self → ℕ };

    /// Appends these bytes, or where it fails, a first part of them. It takes no memory.
    fn put(&mut self, bytes: &[u8]) -> Result<(), Failed>
        ensures put { tells self.new → OnOk result (text self.new ≡ text self.old ++ bytes.now) }
        ensures failed { tells self.new → OnErr result (GrewByFront (text self.old) (text self.new) bytes.now) }
        ensures tells { tells self.new → tells self.old }
        ensures cause { OnErr result (Rose (faults self.old) (faults self.new)) }
        ensures later { faults self.old ≤ faults self.new };
}
