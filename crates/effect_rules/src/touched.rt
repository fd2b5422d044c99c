ghost use Rattle.std.specs.Prelude.{◌≡◌, ◌||◌, IfOk, []};
ghost use Rattle.c_typed.specs.Rules as r;
ghost use Rattle.effect_rules.specs.Touched.{Gains};

use lv_base::Memory;
use std::alloc::Global;
use std::collections::HashSet;

/// The objects that parts write and those that they read, for look-ups.
#[derive(Drop)]
pub(crate) struct Touched {
    written: HashSet<u32>,
    read: HashSet<u32>,
}

fn add_all(set: &mut HashSet<u32>, objects: &[u32]) -> Result<(), Memory>
    ensures { IfOk result (λ _. Gains set.old.keys objects.now set.new.keys) }
{
    for object in objects {
        set.insert(*object)?;
    }
    Ok(())
}

// Whether one of these objects is in the set.
fn meets(objects: &[u32], set: &HashSet<u32>) -> bool
    ensures { result ≡ r.meets objects.now set.now.keys }
{
    objects.iter().any(|object| set.contains(object))
}

/// No objects.
pub(crate) fn untouched(alloc: Global) -> Touched
    ensures writes { result.written.keys ≡ [] }
    ensures reads { result.read.keys ≡ [] }
{
    Touched {
        written: HashSet::new(alloc),
        read: HashSet::new(alloc),
    }
}

/// With the objects that one more part writes and reads.
pub(crate) fn touch(touched: &mut Touched, writes: &[u32], reads: &[u32]) -> Result<(), Memory>
    ensures writes { IfOk result (λ _. Gains touched.old.written.keys writes.now touched.new.written.keys) }
    ensures reads { IfOk result (λ _. Gains touched.old.read.keys reads.now touched.new.read.keys) }
{
    add_all(&mut touched.written, writes)?;
    add_all(&mut touched.read, reads)
}

fn one_of(first: bool, second: bool, third: bool) -> bool
    ensures { result ≡ ((first || second) || third) }
{
    first || second || third
}

/// Whether a part writes what these read or write, or reads what they write.
pub(crate) fn is_touched(touched: &Touched, writes: &[u32], reads: &[u32]) -> bool
    ensures { result ≡ r.clash writes.now reads.now touched.now.written.keys touched.now.read.keys }
{
    let written = meets(writes, &touched.written);
    let changed = meets(writes, &touched.read);
    let used = meets(reads, &touched.written);
    one_of(written, changed, used)
}
