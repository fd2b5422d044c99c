ghost use Rattle.std.specs.Prelude.{◌≡◌, ◌≢◌, ◌≤◌, ◌⊎◌, ℕ, List, IfOk, OnOk, IsErrOf};
ghost use Rattle.lv_outside.specs.Counts.{Rose};
ghost use Rattle.lv_outside.specs.Got.{IsAtMost, IsRead};
ghost use Rattle.lv_outside.specs.Bytes.{IsFront};

use std::alloc::{AllocError, AllocFailed, Global};
use thiserror::Error;

/// What a read gives.
#[derive(Debug, Drop)]
pub enum Got {
    /// The whole file.
    Bytes(Vec<u8>),
    /// The file has more bytes than were asked for.
    Longer,
}

/// Why a file was not read or written. No clause speaks of its texts.
#[derive(Clone, Copy, Debug, PartialEq, Eq, Error)]
pub enum FileFail {
    /// The outside failed: there is no such file, it may not be read or written, or a device failed.
    #[error("the file could not be read or written")]
    Failed,
    /// Want of memory.
    #[error("out of memory")]
    Memory,
}

impl From<AllocError> for FileFail {
    ghost use Rattle.lv_outside.specs.declared.folder.FileFail.TheVariants.{Memory};

    ghost from_gives = { λ _ e. e ≡ Memory };

    fn from(_: AllocError) -> Self {
        FileFail::Memory
    }
}

impl<T: Drop> From<AllocFailed<T>> for FileFail {
    ghost use Rattle.lv_outside.specs.declared.folder.FileFail.TheVariants.{Memory};

    ghost from_gives = { λ _ e. e ≡ Memory };

    fn from(_: AllocFailed<T>) -> Self {
        FileFail::Memory
    }
}

/// Files under names, and the only way in which lazic reaches files. A type says what its files are by `file`, where it
/// `tells` them; of the host's files nothing is told. A failure is answered only where a count rose in the same call.
pub trait Folder {
    /// Whether it tells its files.
    ghost tells: { Self → Type 0 };

    /// The bytes of the file of each name, none where there is no such file.
    ghost file: { Self → List ℕ → List ℕ };

    /// How often a read has failed.
    ghost read_faults: { Self → ℕ };

    /// How often a write has failed.
    ghost write_faults: { Self → ℕ };

    /// The file of this name, if it has at most `most` bytes.
    fn read(&mut self, alloc: Global, name: &str, most: usize) -> Result<Got, FileFail>
        ensures most { IfOk result (IsAtMost most) }
        ensures bytes { tells self.old → IfOk result (IsRead most (file self.old name.now)) }
        ensures tells { tells self.old → tells self.new }
        ensures files { (n : List ℕ) → file self.new n ≡ file self.old n }
        ensures cause { IsErrOf result FileFail.Failed → Rose (read_faults self.old) (read_faults self.new) }
        ensures reads { read_faults self.old ≤ read_faults self.new }
        ensures writes { write_faults self.new ≡ write_faults self.old };

    /// Puts these bytes in the place of the file of this name. Where it fails the file may hold a first part of them.
    fn write(&mut self, alloc: Global, name: &str, bytes: &[u8]) -> Result<(), FileFail>
        ensures written { tells self.old → OnOk result (file self.new name.now ≡ bytes.now) }
        ensures failed { tells self.old → IsErrOf result FileFail.Failed → (file self.new name.now ≡ file self.old name.now) ⊎ IsFront (file self.new name.now) bytes.now }
        ensures memory { IsErrOf result FileFail.Memory → file self.new name.now ≡ file self.old name.now }
        ensures others { (n : List ℕ) → n ≢ name.now → file self.new n ≡ file self.old n }
        ensures tells { tells self.old → tells self.new }
        ensures cause { IsErrOf result FileFail.Failed → Rose (write_faults self.old) (write_faults self.new) }
        ensures writes { write_faults self.old ≤ write_faults self.new }
        ensures reads { read_faults self.new ≡ read_faults self.old };
}
