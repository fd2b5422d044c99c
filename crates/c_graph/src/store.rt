ghost use Rattle.std.specs.Prelude.{◌≡◌, ◌<◌, ◌≤◌, List, drop, length, slice_index, slice_index_or, true, IfOk, ℕ};
ghost use Rattle.c_graph.specs.declared.store.Named.{Named};
ghost use Rattle.c_graph.specs.Stores.{kept_for, rises_from, values_from};

use lv_base::Memory;
use std::alloc::Global;
use std::marker::Model;

/// A cell with its value.
#[derive(Clone, Copy, Debug, PartialEq, Eq)]
pub struct Named {
    /// The number of the cell.
    pub cell: u32,
    /// Its value.
    pub value: u128,
}

/// One value for each cell. Only some cells are kept by number; the others are 0. Where the kept ones rise, each is found
/// by halving. Contracts see the list of the values.
#[derive(Drop)]
pub struct Store {
    cells: u32,
    named: Vec<Named>,
    rises: bool,
}

impl Model for Store {
    ghost use Rattle.std.specs.Prelude.{List, ℕ, ◌≡◌};

    ghost Value = { List ℕ };

    ghost use Rattle.c_graph.specs.Stores.{values_from, rises_from};

    ghost view = { λ s. values_from s.named.items 0 s.cells };

    ghost invariant = { λ s. s.rises ≡ rises_from 0 s.named.items };
}

impl Store {
    /// The store of this many cells that keeps these values; where a cell is named twice its first value counts, and a
    /// number past the cells counts nothing. It takes no memory.
    pub fn new(cells: u32, named: Vec<Named>) -> Store
        ensures { result ≡ values_from named.items 0 cells }
    {
        let rises = is_rising(&named);
        Store {
            cells,
            named,
            rises,
        }
    }

    /// The number of cells. It takes no memory.
    pub fn cells(&self) -> u32
        ensures { result ≡ length self.now }
    {
        self.cells
    }

    /// The value of a cell. It takes no memory.
    pub fn value(&self, cell: u32) -> u128
        requires { cell < length self.now }
        ensures { result ≡ slice_index self.now cell }
    {
        kept(&self.named, self.rises, cell)
    }

    /// The cells that are kept, as they were given: with any others at 0 they make the store. It takes no memory.
    pub fn named(&self) -> &[Named]
        ensures { values_from result.now 0 (length self.now) ≡ self.now }
    {
        &self.named
    }

    /// An equal store.
    pub fn copy(&self) -> Result<Store, Memory>
        ensures { IfOk result (λ s. s ≡ self.now) }
    {
        let named = copy_of(&self.named)?;
        Ok(Store {
            cells: self.cells,
            named,
            rises: self.rises,
        })
    }

    /// The values of all cells, in order.
    pub fn values(&self, alloc: Global) -> Result<Vec<u128>, Memory>
        ensures { IfOk result (λ v. v.items ≡ self.now) }
    {
        let mut values = Vec::new(alloc);
        for cell in 0..self.cells {
            values.push(kept(&self.named, self.rises, cell))?;
        }
        Ok(values)
    }
}

/// Whether each cell is above the one before it.
fn is_rising(named: &[Named]) -> bool
    ensures { result ≡ rises_from 0 named.now }
{
    let mut low: u64 = 0;
    for entry in named {
        if (entry.cell as u64) < low {
            return false;
        }
        low = entry.cell as u64 + 1;
    }
    true
}

fn copy_of(named: &Vec<Named>) -> Result<Vec<Named>, Memory>
    ensures { IfOk result (λ v. v.items ≡ named.now.items) }
{
    let copy = named.clone()?;
    Ok(copy)
}

/// The value that is kept for a cell, 0 where none is.
fn kept(named: &[Named], rises: bool, cell: u32) -> u128
    requires { rises ≡ rises_from 0 named.now }
    ensures { result ≡ kept_for named.now cell }
{
    if rises {
        halved(named, cell)
    } else {
        scanned(named, cell)
    }
}

/// The same, by a look at one after the other.
fn scanned(named: &[Named], cell: u32) -> u128
    ensures { result ≡ kept_for named.now cell }
{
    for entry in named {
        if entry.cell == cell {
            return entry.value;
        }
    }
    0
}

/// The same, where the cells rise.
fn halved(named: &[Named], cell: u32) -> u128
    requires { rises_from 0 named.now ≡ true }
    ensures { result ≡ kept_for named.now cell }
{
    let at = first_from(named, cell);
    if at >= named.len() {
        return 0;
    }
    if named[at].cell != cell {
        return 0;
    }
    named[at].value
}

/// The first of rising cells that is not below a cell.
fn first_from(named: &[Named], cell: u32) -> usize
    requires { rises_from 0 named.now ≡ true }
    ensures below { kept_for named.now cell ≡ kept_for (drop result named.now) cell }
    ensures above { (k : ℕ) (e : Named) → result ≤ k → k < length named.now → cell ≤ (slice_index_or named.now k e).cell }
{
    let mut low = 0;
    let mut high = named.len();
    while low < high {
        let middle = low + (high - low) / 2;
        if named[middle].cell < cell {
            low = middle + 1;
        } else {
            high = middle;
        }
    }
    low
}
