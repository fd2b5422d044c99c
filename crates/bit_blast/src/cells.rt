ghost use Rattle.std.specs.Prelude.{◌≡◌, ℕ, ◌+◌, ◌≤◌, ◌<◌, length, map, take, drop, List, [], ◌∷◌, ◌++◌, IfOk};
ghost use Rattle.prop.specs.Pieces.{pieces, Rising, start_of};
ghost use Rattle.bit_blast.specs.Emission.{cell_at};
ghost use Rattle.bit_blast.specs.Held.{fresh_lits, fresh_cells, sum_of, placed};

use bit_gates::NoRoom;
use prop::Lit;
use std::alloc::Global;
use std::marker::Model;

/// The literals of each cell of a store, lowest bit first. All lie in one flat list in the order of the cells, so that
/// any number of cells takes two pieces of memory.
#[derive(Drop)]
pub struct Cells {
    lits: Vec<Lit>,
    ends: Vec<usize>,
}

impl Model for Cells {
    ghost use Rattle.std.specs.Prelude.{List, length};
    ghost use Rattle.prop.specs.declared.Lit.{Lit};
    ghost use Rattle.prop.specs.Pieces.{pieces, Rising};

    ghost Value = { List (List Lit) };

    ghost view = { λ s. pieces 0 s.ends.items s.lits.items };

    ghost invariant = { λ s. Rising 0 s.ends.items (length s.lits.items) };
}

// Appends positive literals of so many variables from `next` on.
fn push_fresh(lits: &mut Vec<Lit>, next: u32, width: u32) -> Result<(), NoRoom>
    requires { next + width ≤ 4294967295 }
    ensures { IfOk result (λ _. lits.new.items ≡ lits.old.items ++ fresh_lits next width) }
{
    for i in 0..width {
        lits.push(Lit {
            var: next + i,
            positive: true,
        })?;
    }
    Ok(())
}

/// Positive literals of so many variables from `next` on.
pub fn new_lits(alloc: Global, next: u32, width: u32) -> Result<Vec<Lit>, NoRoom>
    ensures lits { IfOk result (λ r. r.items ≡ fresh_lits next width) }
    ensures room { IfOk result (λ _. next + width ≤ 4294967295) }
{
    if width > u32::MAX - next {
        return Err(NoRoom);
    }
    let mut outs = Vec::with_capacity(alloc, width as usize)?;
    push_fresh(&mut outs, next, width)?;
    Ok(outs)
}

// The first variable above those of cells of these widths.
fn past_all(first: u32, widths: &[u32]) -> Result<u32, NoRoom>
    ensures value { IfOk result (λ n. n ≡ first + sum_of widths.now) }
{
    let mut next = first;
    for i in 0..widths.len() {
        let width = widths[i];
        if width > u32::MAX - next {
            return Err(NoRoom);
        }
        next += width;
    }
    Ok(next)
}

// Appends where a cell ends.
fn push_end(ends: &mut Vec<usize>, end: usize) -> Result<(), NoRoom>
    ensures { IfOk result (λ _. ends.new.items ≡ ends.old.items ++ end ∷ []) }
{
    match ends.push(end) {
        Ok(()) => Ok(()),
        Err(_) => Err(NoRoom),
    }
}

// Appends cells of these widths, of positive literals of the variables from the first on.
fn push_cells(
    lits: &mut Vec<Lit>,
    ends: &mut Vec<usize>,
    first: u32,
    widths: &[u32],
) -> Result<(), NoRoom>
    requires room { first + sum_of widths.now ≤ 4294967295 }
    requires rising { Rising 0 ends.old.items (length lits.old.items) }
    ensures rising { IfOk result (λ _. Rising 0 ends.new.items (length lits.new.items)) }
    ensures cells { IfOk result (λ _. pieces 0 ends.new.items lits.new.items ≡ pieces 0 ends.old.items lits.old.items ++ fresh_cells first widths.now) }
{
    let mut next = first;
    for i in 0..widths.len() {
        let width = widths[i];
        push_fresh(lits, next, width)?;
        push_end(ends, lits.len())?;
        next += width;
    }
    Ok(())
}

// Where the literals of a cell begin.
fn start(ends: &[usize], cell: usize) -> usize
    requires { cell < length ends.now }
    ensures { result ≡ start_of 0 ends.now cell }
{
    if cell == 0 { 0 } else { ends[cell - 1] }
}

// The literals of a cell.
fn piece<'a>(ends: &[usize], lits: &'a [Lit], cell: usize) -> &'a [Lit]
    requires rising { Rising 0 ends.now (length lits.now) }
    requires there { cell < length ends.now }
    ensures { result.now ≡ cell_at (pieces 0 ends.now lits.now) cell }
{
    let from = start(ends, cell);
    let end = ends[cell];
    &lits[from..end]
}

// Puts as many other literals in the place of those of a cell.
fn overwrite(ends: &[usize], lits: &mut [Lit], cell: usize, to: &[Lit])
    requires rising { Rising 0 ends.now (length lits.old) }
    requires there { cell < length ends.now }
    requires many { length to.now ≡ length (cell_at (pieces 0 ends.now lits.old) cell) }
    ensures many { length lits.new ≡ length lits.old }
    ensures cells { pieces 0 ends.now lits.new ≡ placed (pieces 0 ends.now lits.old) cell to.now }
{
    let from = start(ends, cell);
    let end = ends[cell];
    lits[from..end].copy_from_slice(to);
}

impl Cells {
    /// Cells of these widths, of positive literals of the variables from the first on, and the next variable. It fails for
    /// want of memory, or of variables.
    pub fn new(alloc: Global, first: u32, widths: &[u32]) -> Result<(Cells, u32), NoRoom>
        ensures cells { IfOk result (λ r. r.0 ≡ fresh_cells first widths.now) }
        ensures next { IfOk result (λ r. r.1 ≡ first + sum_of widths.now) }
    {
        let next = past_all(first, widths)?;
        let mut lits = Vec::with_capacity(alloc, (next - first) as usize)?;
        let mut ends = Vec::with_capacity(alloc, widths.len())?;
        push_cells(&mut lits, &mut ends, first, widths)?;
        Ok((Cells { lits, ends }, next))
    }

    /// How many cells there are.
    pub fn len(&self) -> usize
        ensures { result ≡ length self.now }
    {
        self.ends.len()
    }

    /// The literals of a cell, none past the last cell.
    pub fn get(&self, cell: usize) -> &[Lit]
        ensures { result.now ≡ cell_at self.now cell }
    {
        if cell < self.ends.len() {
            piece(&self.ends, &self.lits, cell)
        } else {
            &[]
        }
    }

    /// Puts as many other literals in the place of those of a cell.
    pub fn set(&mut self, cell: usize, to: &[Lit])
        requires there { cell < length self.old }
        requires many { length to.now ≡ length (cell_at self.old cell) }
        ensures { self.new ≡ placed self.old cell to.now }
    {
        overwrite(&self.ends, &mut self.lits, cell, to);
    }
}

/// A copy of some literals.
pub fn copied(alloc: Global, lits: &[Lit]) -> Result<Vec<Lit>, NoRoom>
    ensures { IfOk result (λ r. r.items ≡ lits.now) }
{
    let copy = Vec::from_slice(alloc, lits)?;
    Ok(copy)
}

// Appends a cell.
fn push_cell(cells: &mut Vec<Vec<Lit>>, cell: Vec<Lit>) -> Result<(), NoRoom>
    ensures { IfOk result (λ _. map (λ c. c.items) cells.new.items ≡ map (λ c. c.items) cells.old.items ++ cell.items ∷ []) }
{
    match cells.push(cell) {
        Ok(()) => Ok(()),
        Err(_) => Err(NoRoom),
    }
}

/// Copies of the `count` cells from the first on.
pub fn some_cells(
    alloc: Global,
    cells: &Cells,
    first: usize,
    count: usize,
) -> Result<Vec<Vec<Lit>>, NoRoom>
    requires { first + count ≤ length cells.now }
    ensures { IfOk result (λ r. map (λ c. c.items) r.items ≡ take count (drop first cells.now)) }
{
    let _all = cells.len();
    let mut outs = Vec::new(alloc);
    for i in 0..count {
        let cell = copied(alloc, cells.get(first + i))?;
        push_cell(&mut outs, cell)?;
    }
    Ok(outs)
}
