ghost use Rattle.std.specs.Prelude.{◌≡◌, ℕ, List, ⊤};
ghost use Rattle.lv_outside.specs.Mem.{file_of, NamesDiffer};

use crate::files::{copy_up_to, file_named, replace};
use crate::{FileFail, Folder, Got};
use lv_base::Text;
use std::alloc::Global;

/// Files in memory that never fail: a name that it does not hold reads as the empty file, and both counts are always 0.
#[derive(Debug, Drop)]
pub struct NoFaultFolder {
    files: Vec<(Text, Vec<u8>)>,
}

impl NoFaultFolder {
    ghost use Rattle.lv_outside.specs.Folders.{no_fault_files};

    /// A folder of these files. `names_differ` is the test of its condition.
    pub fn new(files: Vec<(Text, Vec<u8>)>) -> NoFaultFolder
        requires { NamesDiffer files.items }
        ensures { no_fault_files result ≡ files.items }
    {
        NoFaultFolder { files }
    }

    /// The files with their names.
    pub fn files(&self) -> &[(Text, Vec<u8>)]
        ensures { result.now ≡ no_fault_files self.now }
    {
        &self.files
    }
}

impl Folder for NoFaultFolder {
    ghost tells = { λ f. ⊤ };

    ghost file = { λ f n. file_of f.files.items n };

    ghost read_faults = { λ f. 0 };

    ghost write_faults = { λ f. 0 };

    fn read(&mut self, alloc: Global, name: &str, most: usize) -> Result<Got, FileFail> {
        Ok(copy_up_to(alloc, file_named(&self.files, name.as_bytes()), most)?)
    }

    fn write(&mut self, alloc: Global, name: &str, bytes: &[u8]) -> Result<(), FileFail> {
        replace(alloc, &mut self.files, name.as_bytes(), bytes)
    }
}
