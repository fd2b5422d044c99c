//! What both folders in memory do with their entries.
ghost use Rattle.std.specs.Prelude.{◌≡◌, ◌≢◌, ◌↔◌, ℕ, List, IfOk, OnOk, OnErr, IfSome, IfNone, IsTrue, Err};
ghost use Rattle.lv_outside.specs.Mem.{file_of, has_name, is_listed, IsPlaceOf, HasNoName, NamesDiffer};
ghost use Rattle.lv_outside.specs.Got.{IsRead};

use crate::{FileFail, Got};
use lv_base::Text;
use std::alloc::{AllocError, Global};

/// Whether the names of these entries differ, which the folders in memory require.
pub fn names_differ(files: &[(Text, Vec<u8>)]) -> bool
    ensures { IsTrue result ↔ NamesDiffer files.now }
{
    for (i, entry) in files.iter().enumerate() {
        if place_of_name(&files[i + 1..], entry.0.as_bytes()).is_some() {
            return false;
        }
    }
    true
}

// Whether the number of this call is listed.
pub(crate) fn names_call(fails: &[u32], call: u64) -> bool
    ensures { result ≡ is_listed fails.now call }
{
    fails.iter().any(|f| *f as u64 == call)
}

// Whether there is an entry of this name.
pub(crate) fn holds(files: &[(Text, Vec<u8>)], name: &[u8]) -> bool
    ensures { result ≡ has_name files.now name.now }
{
    files.iter().any(|f| f.0.is(name))
}

// The file of this name, or no bytes.
pub(crate) fn file_named<'a>(files: &'a [(Text, Vec<u8>)], name: &[u8]) -> &'a [u8]
    ensures { result.now ≡ file_of files.now name.now }
{
    for entry in files {
        if entry.0.is(name) {
            return &entry.1;
        }
    }
    &[]
}

pub(crate) fn copy_up_to(alloc: Global, bytes: &[u8], most: usize) -> Result<Got, AllocError>
    ensures { IfOk result (IsRead most bytes.now) }
{
    if bytes.len() > most {
        return Ok(Got::Longer);
    }
    Ok(Got::Bytes(bytes.to_vec(alloc)?))
}

// The index of the first entry of this name.
pub(crate) fn place_of_name(files: &[(Text, Vec<u8>)], name: &[u8]) -> Option<usize>
    ensures found { IfSome result (IsPlaceOf name.now files.now) }
    ensures none { IfNone result (HasNoName name.now files.now) }
{
    for (i, entry) in files.iter().enumerate() {
        if entry.0.is(name) {
            return Some(i);
        }
    }
    None
}

// Puts these bytes in the place of the file of this name.
pub(crate) fn replace(
    alloc: Global,
    files: &mut Vec<(Text, Vec<u8>)>,
    name: &[u8],
    bytes: &[u8],
) -> Result<(), FileFail>
    ensures written { OnOk result (file_of files.new.items name.now ≡ bytes.now) }
    ensures others { (n : List ℕ) → n ≢ name.now → file_of files.new.items n ≡ file_of files.old.items n }
    ensures memory { OnErr result (files.new.items ≡ files.old.items) }
    ensures cause { result ≢ Err FileFail.Failed }
{
    let next = bytes.to_vec(alloc)?;
    match place_of_name(files, name) {
        Some(at) => {
            files[at].1 = next;
            Ok(())
        }
        None => {
            let name = name.to_vec(alloc)?;
            files.push((Text::new(name), next))?;
            Ok(())
        }
    }
}
