//! What a satisfying assignment gives to cells.

ghost use Rattle.std.specs.Prelude.{◌≡◌, ◌<◌, ◌≤◌, [], IfOk, length};
ghost use Rattle.prop.specs.Trues.{listed};
ghost use Rattle.bit_gates.specs.Net.{number};
ghost use Rattle.bit_blast.specs.Held.{new_of};
ghost use Rattle.c_graph.specs.Stores.{values_from};
ghost use Rattle.pair_query.specs.Laws.{store_read};

use bit_blast::Bits;
use bv_term::Terms;
use c_graph::{Named, Store};
use lv_base::Memory;
use prop::{Assignment, Lit};
use std::alloc::Global;

/// The number that some literals spell, lowest bit first.
pub fn number_of(found: &Assignment, bits: &[Lit]) -> u128
    requires { length bits.now ≤ 128 }
    ensures { result ≡ number (listed found.now) bits.now }
{
    let mut number = 0u128;
    let mut left = bits.len();
    while left > 0 {
        left -= 1;
        let bit = if found.literal(bits[left]) { 1 } else { 0 };
        number = 2 * number + bit;
    }
    number
}

// The cells that have other values than 0, rising.
fn named_by(
    alloc: Global,
    terms: &Terms,
    bits: &Bits,
    found: &Assignment,
) -> Result<Vec<Named>, Memory>
    requires cells { bits.now.cells ≡ (new_of [] terms.now.cells).cells }
    requires few { length terms.now.cells < 4294967296 }
    ensures read { IfOk result (λ n. values_from n.items 0 (length terms.now.cells) ≡ store_read terms.now (listed found.now)) }
{
    let mut named = Vec::new(alloc);
    for cell in 0..terms.cells().len() as u32 {
        let value = number_of(found, bits.cell(cell));
        if value != 0 {
            named.push(Named { cell, value })?;
        }
    }
    Ok(named)
}

/// The store that the cells' literals spell.
pub fn store_of(
    alloc: Global,
    terms: &Terms,
    bits: &Bits,
    found: &Assignment,
) -> Result<Store, Memory>
    requires cells { bits.now.cells ≡ (new_of [] terms.now.cells).cells }
    requires few { length terms.now.cells < 4294967296 }
    ensures read { IfOk result (λ s. s ≡ store_read terms.now (listed found.now)) }
{
    let named = named_by(alloc, terms, bits, found)?;
    Ok(Store::new(terms.cells().len() as u32, named))
}
