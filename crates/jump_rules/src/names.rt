ghost use Rattle.std.specs.Prelude.{◌≡◌, ◌++◌, ◌∷◌, [], IfOk, length, cond, is_some, slice_index_or, bytes_eq, Option, None, Some, List, ℕ};
ghost use Rattle.std.specs.HashMap as hash;
ghost use Rattle.jump_rules.specs.Names.{IsLast, AreBefore, names_of};
ghost use Rattle.jump_rules.specs.Seen as seen;

use crate::jumps::Jump;
use lv_base::Memory;
use std::alloc::Global;
use std::collections::HashMap;

/// The labels of a function, for look-ups by name: the place of the last one of each name, and for each label the place of the
/// one before it with its name.
#[derive(Drop)]
pub(crate) struct Named<'a> {
    pub(crate) labels: &'a [Jump],
    last: HashMap<&'a [u8], usize>,
    before: Vec<Option<usize>>,
}

fn unnamed<'a>(alloc: Global, labels: &'a [Jump]) -> Named<'a>
    ensures labels { result.labels.now ≡ labels.now }
    ensures last { hash.IsEmpty result.last }
    ensures before { result.before.items ≡ [] }
{
    Named {
        labels,
        last: HashMap::new(alloc),
        before: Vec::new(alloc),
    }
}

// The label at this place has this name.
fn add_name<'a>(named: &mut Named<'a>, name: &'a [u8], place: usize) -> Result<(), Memory>
    ensures labels { named.new.labels.now ≡ named.old.labels.now }
    ensures last { IfOk result (λ _. (q : List ℕ) → hash.get_by (λ k. bytes_eq q k.now) named.new.last ≡ cond (bytes_eq name.now q) (Some place) (hash.get_by (λ k. bytes_eq q k.now) named.old.last)) }
    ensures before { IfOk result (λ _. named.new.before.items ≡ named.old.before.items ++ hash.get_by (λ k. bytes_eq name.now k.now) named.old.last ∷ []) }
{
    let before = named.last.insert(name, place)?;
    named.before.push(before)?;
    Ok(())
}

/// The labels of a function by their names.
///
/// Fails with `Memory` where there is no more memory for a place for each label.
pub(crate) fn name_all<'a>(alloc: Global, labels: &'a [Jump]) -> Result<Named<'a>, Memory>
    ensures labels { IfOk result (λ x. x.labels.now ≡ labels.now) }
    ensures last { IfOk result (λ x. IsLast (names_of (seen.jumps labels.now)) (length labels.now) x.last) }
    ensures before { IfOk result (λ x. AreBefore (names_of (seen.jumps labels.now)) (length labels.now) x.before.items) }
{
    let mut named = unnamed(alloc, labels);
    for (place, label) in labels.iter().enumerate() {
        add_name(&mut named, label.name.as_bytes(), place)?;
    }
    Ok(named)
}

/// The place of the last label of this name.
pub(crate) fn last_of(named: &Named<'_>, name: &[u8]) -> Option<usize>
    ensures { result ≡ hash.get_by (λ k. bytes_eq name.now k.now) named.now.last }
{
    named.last.get(&name).copied()
}

/// The place of the label of the same name before the label at this place.
pub(crate) fn before_of(named: &Named<'_>, place: usize) -> Option<usize>
    ensures { result ≡ slice_index_or named.now.before.items place None }
{
    match named.before.get(place) {
        None => None,
        Some(before) => *before,
    }
}
