//! The units of cells: they do not fall from a cell to the next, so that the cells of a unit stand side by side.
ghost use Rattle.std.specs.Prelude.{ℕ, ◌+◌, ◌≡◌, ◌<◌, ◌≤◌, ◌==◌, IfSome, IsTrue, false};
ghost use Rattle.plan_tables.specs.Tables.{unit_at};
ghost use Rattle.walk_states.specs.Known.{on_unit};
ghost use Rattle.plan_tests.specs.Made as made;
ghost use Rattle.plan_tests.specs.Cells.{AreUnits, IsAlone, IsNext, IsRising};

use plan_tables::Units;

/// Whether so many cells have units, each below the count and none below the one before, and no further cell has one.
pub(crate) fn are_units(units: &Units, cells: u32, count: u32) -> bool
    ensures tells { IsTrue result → AreUnits units.now count }
    ensures made { result ≡ made.are_units units.now cells count }
{
    let mut last = 0;
    for cell in 0..cells {
        let Some(unit) = next_unit(units, cell, last, count) else {
            return false;
        };
        last = unit;
    }
    units.get(cells).is_none()
}

/// The unit of a cell, if it is below the count and not below the last one.
fn next_unit(units: &Units, cell: u32, last: u32, count: u32) -> Option<u32>
    ensures tells { IfSome result (IsNext units.now cell last count) }
    ensures made { result ≡ made.next_unit units.now cell last count }
{
    match units.get(cell) {
        None => None,
        Some(unit) => within(unit, last, count),
    }
}

fn within(unit: u32, last: u32, count: u32) -> Option<u32>
    ensures tells { IfSome result (λ u. (u ≡ unit) × (last ≤ u) × (u < count)) }
    ensures made { result ≡ made.within unit last count }
{
    if last <= unit && unit < count {
        Some(unit)
    } else {
        None
    }
}

/// Whether this is the unit of the cell.
pub(crate) fn is_unit(units: &Units, cell: u32, unit: u32) -> bool
    ensures { result ≡ on_unit (λ u. u == unit) (unit_at units.now cell) }
{
    match units.get(cell) {
        None => false,
        Some(found) => found == unit,
    }
}

/// Whether the unit is that of this cell alone: neither the cell before nor the one behind has it.
pub(crate) fn is_alone(units: &Units, cell: u32, unit: u32) -> bool
    requires { IsRising units.now }
    ensures tells { IsTrue result → IsAlone units.now cell unit }
    ensures made { result ≡ made.is_alone units.now cell unit }
{
    if !is_unit(units, cell, unit) {
        return false;
    }
    is_last(units, cell, unit) && is_first(units, cell, unit)
}

/// Whether the cell behind has another unit. The cell of the highest number has one behind it that no number names.
fn is_last(units: &Units, cell: u32, unit: u32) -> bool
    ensures tells { IsTrue result → on_unit (λ u. u == unit) (unit_at units.now (cell + 1)) ≡ false }
    ensures made { result ≡ made.is_last units.now cell unit }
{
    cell < u32::MAX && !is_unit(units, cell + 1, unit)
}

/// Whether the cell before, if there is one, has another unit.
fn is_first(units: &Units, cell: u32, unit: u32) -> bool
    ensures tells { IsTrue result → (c : ℕ) → c + 1 ≡ cell → on_unit (λ u. u == unit) (unit_at units.now c) ≡ false }
    ensures made { result ≡ made.is_first units.now cell unit }
{
    cell == 0 || !is_unit(units, cell - 1, unit)
}
