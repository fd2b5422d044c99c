ghost use Rattle.std.specs.Prelude.{◌≡◌, ◌≢◌, ◌≤◌, ◌⊎◌, ◌↔◌, ℕ, List, IfOk, OnOk, IsErrOf, IsTrue, ⊤};
ghost use Rattle.lv_outside.specs.Bytes.{IsFront};
ghost use Rattle.lv_outside.specs.Counts.{Rose, counted, raised};
ghost use Rattle.lv_outside.specs.Got.{IsAtMost, IsRead, is_failed};
ghost use Rattle.lv_outside.specs.Mem.{file_of, NamesDiffer};

use crate::files::{copy_up_to, file_named, holds, names_call, replace};
use crate::{FileFail, Folder, Got};
use lv_base::Text;
use std::alloc::Global;

/// Files in memory, for tests. The calls of the listed numbers fail, reads and writes counted together from 0, and so
/// does a read of a name that it does not hold. A call that fails changes no file.
#[derive(Debug, Drop)]
pub struct MemFolder {
    files: Vec<(Text, Vec<u8>)>,
    fails: Vec<u32>,
    calls: u64,
    read_faults: u64,
    write_faults: u64,
}

impl MemFolder {
    ghost use Rattle.lv_outside.specs.Folders.{folder_files, folder_fails, folder_calls};

    /// A folder of these files, whose calls of these numbers fail. `names_differ` is the test of its condition.
    pub fn new(files: Vec<(Text, Vec<u8>)>, fails: Vec<u32>) -> MemFolder
        requires { NamesDiffer files.items }
        ensures files { folder_files result ≡ files.items }
        ensures fails { folder_fails result ≡ fails.items }
        ensures calls { folder_calls result ≡ 0 }
    {
        MemFolder {
            files,
            fails,
            calls: 0,
            read_faults: 0,
            write_faults: 0,
        }
    }

    /// The files with their names.
    pub fn files(&self) -> &[(Text, Vec<u8>)]
        ensures { result.now ≡ folder_files self.now }
    {
        &self.files
    }

    /// The numbers, from 0, of the calls that fail.
    pub fn fails(&self) -> &[u32]
        ensures { result.now ≡ folder_fails self.now }
    {
        &self.fails
    }

    /// How many calls there were, as far as a count of 64 bits goes.
    pub fn calls(&self) -> u64
        ensures { result ≡ folder_calls self.now }
    {
        self.calls
    }
}

impl Folder for MemFolder {
    ghost use Rattle.lv_outside.specs.Folders.{folder_fails, folder_calls, fails_next, fails_read};

    ghost tells = { λ f. ⊤ };

    ghost file = { λ f n. file_of f.files.items n };

    ghost read_faults = { λ f. f.read_faults };

    ghost write_faults = { λ f. f.write_faults };

    fn read(&mut self, alloc: Global, name: &str, most: usize) -> Result<Got, FileFail>
        ensures fails { is_failed result ≡ fails_read self.old name.now }
        ensures counted { self.new.read_faults ≡ counted (is_failed result) self.old.read_faults }
        ensures calls { self.new.calls ≡ raised self.old.calls }
        ensures listed { folder_fails self.new ≡ folder_fails self.old }
        ensures most { IfOk result (IsAtMost most) }
        ensures bytes { IfOk result (IsRead most (file_of self.old.files.items name.now)) }
        ensures files { self.new.files.items ≡ self.old.files.items }
        ensures cause { IsErrOf result FileFail.Failed → Rose self.old.read_faults self.new.read_faults }
        ensures reads { self.old.read_faults ≤ self.new.read_faults }
        ensures writes { self.new.write_faults ≡ self.old.write_faults }
    {
        let fails = names_call(&self.fails, self.calls) || !holds(&self.files, name.as_bytes());
        self.calls = self.calls.saturating_add(1);
        if fails {
            self.read_faults = self.read_faults.saturating_add(1);
            return Err(FileFail::Failed);
        }
        Ok(copy_up_to(alloc, file_named(&self.files, name.as_bytes()), most)?)
    }

    fn write(&mut self, alloc: Global, name: &str, bytes: &[u8]) -> Result<(), FileFail>
        ensures fails { is_failed result ≡ fails_next self.old }
        ensures counted { self.new.write_faults ≡ counted (is_failed result) self.old.write_faults }
        ensures calls { self.new.calls ≡ raised self.old.calls }
        ensures listed { folder_fails self.new ≡ folder_fails self.old }
        ensures written { OnOk result (file_of self.new.files.items name.now ≡ bytes.now) }
        ensures failed { IsErrOf result FileFail.Failed → file_of self.new.files.items name.now ≡ file_of self.old.files.items name.now }
        ensures memory { IsErrOf result FileFail.Memory → file_of self.new.files.items name.now ≡ file_of self.old.files.items name.now }
        ensures others { (n : List ℕ) → n ≢ name.now → file_of self.new.files.items n ≡ file_of self.old.files.items n }
        ensures cause { IsErrOf result FileFail.Failed → Rose self.old.write_faults self.new.write_faults }
        ensures writes { self.old.write_faults ≤ self.new.write_faults }
        ensures reads { self.new.read_faults ≡ self.old.read_faults }
    {
        let fails = names_call(&self.fails, self.calls);
        self.calls = self.calls.saturating_add(1);
        if fails {
            self.write_faults = self.write_faults.saturating_add(1);
            return Err(FileFail::Failed);
        }
        replace(alloc, &mut self.files, name.as_bytes(), bytes)
    }
}
