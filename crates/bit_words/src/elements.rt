ghost use Rattle.std.specs.Prelude.{◌≡◌, ℕ, ◌+◌, ◌-◌, ◌/◌, ◌≤◌, ◌<◌, length, map, All, List, [], ◌∷◌, ◌++◌, IfOk, slice_get, Some};
ghost use Rattle.bit_gates.specs.Cut.{Grew};
ghost use Rattle.bit_words.specs.Elements.{half_of, doubled, decoded, picked, stored, AllLong};

use crate::folding::fold;
use bit_gates::{Def, Net, NoRoom, put_selected};
use prop::Lit;
use std::alloc::Global;

// Half of a number of places, rounded up.
fn half(count: usize) -> usize
    ensures { result ≡ half_of count }
{
    count / 2 + count % 2
}

// Places with one more low bit, up to this count: each of the high places without `b`, and with it.
fn put_doubled(
    alloc: Global,
    net: &mut Net,
    b: Lit,
    count: usize,
    highs: &[Lit],
) -> Result<Vec<Lit>, NoRoom>
    ensures start { net.new.start ≡ net.old.start }
    ensures grew { IfOk result (λ r.
        let m = doubled net.old.next b count highs.now in
        Grew net.old.next net.old.defs.items net.new.next net.new.defs.items m.defs × (r.items ≡ m.outs)) }
{
    let mut outs = Vec::new(alloc);
    for i in 0..highs.len() {
        let h = highs[i];
        let low = net.define(Def::And(h, b.negate()))?;
        outs.push(low)?;
        if outs.len() >= count {
            return Ok(outs);
        }
        let high = net.define(Def::And(h, b))?;
        outs.push(high)?;
    }
    Ok(outs)
}

/// For each place below `count` the literal of `e` and the index naming this place; places that no index of this width
/// can name are left out.
pub fn put_decoded(
    alloc: Global,
    net: &mut Net,
    e: Lit,
    bits: &[Lit],
    count: usize,
) -> Result<Vec<Lit>, NoRoom>
    requires { length bits.now ≤ 128 }
    ensures start { net.new.start ≡ net.old.start }
    ensures grew { IfOk result (λ r.
        let m = decoded net.old.next e bits.now count in
        Grew net.old.next net.old.defs.items net.new.next net.new.defs.items m.defs × (r.items ≡ m.outs)) }
{
    if bits.len() == 0 {
        let mut outs = Vec::new(alloc);
        outs.push(e)?;
        return Ok(outs);
    }
    let high = put_decoded(alloc, net, e, &bits[1..], half(count))?;
    put_doubled(alloc, net, bits[0], count, &high)
}

/// The cell at the first place that holds, else `z`.
pub fn put_picked(
    alloc: Global,
    net: &mut Net,
    places: &[Lit],
    cells: &[Vec<Lit>],
    z: &[Lit],
) -> Result<Vec<Lit>, NoRoom>
    requires places { length places.now ≤ length cells.now }
    requires widths { AllLong (length z.now) (map (λ c. c.items) cells.now) }
    ensures start { net.new.start ≡ net.old.start }
    ensures grew { IfOk result (λ r.
        let m = picked net.old.next places.now (map (λ c. c.items) cells.now) z.now in
        Grew net.old.next net.old.defs.items net.new.next net.new.defs.items m.defs × (r.items ≡ m.outs)) }
{
    let mut outs = Vec::new(alloc);
    outs.extend_from_slice(z)?;
    let mut left = places.len();
    while left > 0 {
        left -= 1;
        outs = put_selected(alloc, net, places[left], &cells[left], &outs)?;
    }
    Ok(outs)
}

/// The first cells, one for each place, with the value in the cell whose place holds.
pub fn put_stored(
    alloc: Global,
    net: &mut Net,
    one: Lit,
    places: &[Lit],
    cells: &[Vec<Lit>],
    value: &[Lit],
) -> Result<Vec<Vec<Lit>>, NoRoom>
    requires places { length places.now ≤ length cells.now }
    requires widths { AllLong (length value.now) (map (λ c. c.items) cells.now) }
    ensures start { net.new.start ≡ net.old.start }
    ensures grew { IfOk result (λ r.
        let m = stored one net.old.next places.now (map (λ c. c.items) cells.now) value.now in
        Grew net.old.next net.old.defs.items net.new.next net.new.defs.items m.defs
        × (map (λ c. c.items) r.items ≡ m.cells)) }
{
    let mut outs = Vec::new(alloc);
    for i in 0..places.len() {
        let mut made = Net::new(alloc, net.next);
        let chosen = put_selected(alloc, &mut made, places[i], value, &cells[i])?;
        let cell = fold(alloc, net, one, &made, &chosen)?;
        push_cell(&mut outs, cell)?;
    }
    Ok(outs)
}

// Appends a cell.
fn push_cell(cells: &mut Vec<Vec<Lit>>, cell: Vec<Lit>) -> Result<(), NoRoom>
    ensures { IfOk result (λ _. map (λ c. c.items) cells.new.items ≡ map (λ c. c.items) cells.old.items ++ cell.items ∷ []) }
{
    match cells.push(cell) {
        Ok(()) => Ok(()),
        Err(_) => Err(NoRoom),
    }
}
