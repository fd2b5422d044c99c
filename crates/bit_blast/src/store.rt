ghost use Rattle.std.specs.Prelude.{◌≡◌, ℕ, ◌+◌, ◌-◌, ◌≤◌, ◌<◌, length, map, take, drop, List, [], ◌∷◌, ◌++◌, IfOk, None, nat_lt, if◌then◌else◌};
ghost use Rattle.bit_gates.specs.Cut.{Grew};
ghost use Rattle.bit_words.specs.Elements.{AllLong};
ghost use Rattle.bit_words.specs.Words.{spelled_of};
ghost use Rattle.bit_blast.specs.Emission.{cell_at};
ghost use Rattle.bit_blast.specs.Held.{placed, replaced, store_open, store_in, known_index};

use crate::cells::{Cells, some_cells};
use bit_gates::{Net, NoRoom};
use bit_words::{fold, put_decoded, put_stored, spelled};
use prop::Lit;
use std::alloc::Global;

// Puts cells in the place of those from the first on, which have as many literals.
fn replace(cells: &mut Cells, first: usize, mut news: Vec<Vec<Lit>>)
    requires there { first + length news.items ≤ length cells.old }
    requires widths { AllLong (length (cell_at cells.old first)) (take (length news.items) (drop first cells.old)) }
    requires news { AllLong (length (cell_at cells.old first)) (map (λ c. c.items) news.items) }
    ensures { cells.new ≡ replaced cells.old first (map (λ c. c.items) news.items) }
{
    let _all = cells.len();
    while let Some(to) = news.pop() {
        cells.set(first + news.len(), &to);
    }
}

// Stores a value at an index that is not known, among the cells from the first on.
fn put_store_open(
    alloc: Global,
    net: &mut Net,
    one: Lit,
    cells: &[Vec<Lit>],
    index: &[Lit],
    value: &[Lit],
) -> Result<Vec<Vec<Lit>>, NoRoom>
    requires some { 1 ≤ length cells.now }
    requires index { length index.now ≤ 128 }
    requires widths { AllLong (length value.now) (map (λ c. c.items) cells.now) }
    ensures start { net.new.start ≡ net.old.start }
    ensures grew { IfOk result (λ r.
        let m = store_open one net.old.next (map (λ c. c.items) cells.now) index.now value.now in
        Grew net.old.next net.old.defs.items net.new.next net.new.defs.items m.defs
        × (map (λ c. c.items) r.items ≡ m.cells)) }
    ensures many { IfOk result (λ r. length r.items ≤ length cells.now) }
{
    let mut made = Net::new(alloc, net.next);
    let raw = put_decoded(alloc, &mut made, one, index, cells.len())?;
    let places = fold(alloc, net, one, &made, &raw)?;
    let news = put_stored(alloc, net, one, &places, cells, value)?;
    Ok(news)
}

// Stores a value at a known place among the cells from the first on.
fn store_known(cells: &mut Cells, first: usize, count: usize, k: u128, value: &[Lit])
    requires there { first + count ≤ length cells.old }
    requires widths { AllLong (length value.now) (take count (drop first cells.old)) }
    ensures { cells.new ≡ (if nat_lt k count then placed cells.old (first + k) value.now else cells.old) }
{
    let _all = cells.len();
    if k < count as u128 {
        cells.set(first + k as usize, value);
    }
}

// Stores a value at a place that is not known among the cells from the first on.
fn store_unknown(
    alloc: Global,
    net: &mut Net,
    one: Lit,
    cells: &mut Cells,
    first: usize,
    count: usize,
    index: &[Lit],
    value: &[Lit],
) -> Result<(), NoRoom>
    requires some { 1 ≤ count }
    requires there { first + count ≤ length cells.old }
    requires index { length index.now ≤ 128 }
    requires widths { AllLong (length value.now) (take count (drop first cells.old)) }
    ensures start { net.new.start ≡ net.old.start }
    ensures grew { IfOk result (λ _.
        let m = store_in one net.old.next cells.old first count index.now value.now None in
        Grew net.old.next net.old.defs.items net.new.next net.new.defs.items m.defs × (cells.new ≡ m.cells)) }
{
    let olds = some_cells(alloc, cells, first, count)?;
    let news = put_store_open(alloc, net, one, &olds, index, value)?;
    replace(cells, first, news);
    Ok(())
}

/// Stores a value at an index among the `count` cells from the first on. A known index costs one cell.
pub fn put_store(
    alloc: Global,
    net: &mut Net,
    one: Lit,
    cells: &mut Cells,
    first: usize,
    count: usize,
    index: &[Lit],
    value: &[Lit],
) -> Result<(), NoRoom>
    requires there { first + count ≤ length cells.old }
    requires index { length index.now ≤ 128 }
    requires widths { AllLong (length value.now) (take count (drop first cells.old)) }
    ensures start { net.new.start ≡ net.old.start }
    ensures grew { IfOk result (λ _.
        let m = store_in one net.old.next cells.old first count index.now value.now (known_index count (spelled_of one index.now)) in
        Grew net.old.next net.old.defs.items net.new.next net.new.defs.items m.defs × (cells.new ≡ m.cells)) }
{
    if count == 0 {
        return Ok(());
    }
    match spelled(one, index) {
        Some(k) => {
            store_known(cells, first, count, k, value);
            Ok(())
        }
        None => store_unknown(alloc, net, one, cells, first, count, index, value),
    }
}
