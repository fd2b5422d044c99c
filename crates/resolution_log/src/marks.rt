//! The clause so far as marks in an array of stamps: a code is in it where its stamp is the current epoch, so that a
//! new chain begins without clearing the array.

ghost use Rattle.std.specs.Prelude.{◌≡◌, ℕ, ◌+◌, ◌*◌, ◌<◌, ◌≤◌, true, List, [], ◌∷◌, ◌++◌, length, IfOk, OnOk, slice_set};
ghost use Rattle.prop.specs.Trues.{listed};
ghost use Rattle.resolution_log.specs.Codes.{AllBelow};
ghost use Rattle.resolution_log.specs.Marks.{mark_all, note_all, gather, gathered, meets, ways_differ, gone_code, kept_code};

use std::alloc::AllocError;

/// Whether a row has a code.
pub fn has_code(row: &[u32], code: u32) -> bool
    ensures { result ≡ listed row.now code }
{
    for k in row {
        if *k == code {
            return true;
        }
    }
    false
}

/// Marks each code of a row but one, and notes those that were not marked.
pub fn mark_row(
    stamps: &mut [u32],
    members: &mut Vec<u32>,
    epoch: u32,
    row: &[u32],
    but: u32,
) -> Result<(), AllocError>
    requires { AllBelow (length stamps.old) row.now }
    ensures stamps { OnOk result (stamps.new ≡ mark_all epoch but stamps.old row.now) }
    ensures members { OnOk result (members.new.items ≡ note_all epoch but stamps.old members.old.items row.now) }
{
    for k in row {
        if *k != but && stamps[*k as usize] != epoch {
            members.push(*k)?;
            stamps[*k as usize] = epoch;
        }
    }
    Ok(())
}

/// Appends the marked codes of a list to a row, each once, and takes their marks away.
pub fn gather_row(
    stamps: &mut [u32],
    members: &[u32],
    epoch: u32,
    row: &mut Vec<u32>,
) -> Result<(), AllocError>
    requires { AllBelow (length stamps.old) members.now }
    ensures row { OnOk result (row.new.items ≡ row.old.items ++ gather epoch stamps.old members.now) }
    ensures stamps { OnOk result (stamps.new ≡ gathered epoch stamps.old members.now) }
{
    for k in members {
        if stamps[*k as usize] == epoch {
            row.push(*k)?;
            stamps[*k as usize] = 0;
        }
    }
    Ok(())
}

// Whether the marks have the code and the row its complement.
#[inline]
fn crosses(stamps: &[u32], epoch: u32, row: &[u32], code: u32, complement: u32) -> bool
    requires { code < length stamps.now }
    ensures { result ≡ meets epoch stamps.now row.now code complement }
{
    stamps[code as usize] == epoch && has_code(row, complement)
}

/// Resolves the marked clause with a row on a variable. Answers whether exactly one of the two ways holds, which makes
/// the step valid; else nothing has changed.
pub fn resolve_marks(
    stamps: &mut [u32],
    members: &mut Vec<u32>,
    epoch: u32,
    row: &[u32],
    number: u32,
) -> Result<bool, AllocError>
    requires row { AllBelow (length stamps.old) row.now }
    requires number { 2 * number + 1 < length stamps.old }
    requires fits { length stamps.old < 2147483648 }
    ensures valid { IfOk result (λ ok. ok ≡ ways_differ epoch stamps.old row.now (2 * number) (2 * number + 1)) }
    ensures stamps { IfOk result (λ ok. ok ≡ true → stamps.new ≡ mark_all epoch (kept_code epoch stamps.old row.now number) (slice_set stamps.old (gone_code epoch stamps.old row.now number) 0) row.now) }
    ensures members { IfOk result (λ ok. ok ≡ true → members.new.items ≡ note_all epoch (kept_code epoch stamps.old row.now number) (slice_set stamps.old (gone_code epoch stamps.old row.now number) 0) members.old.items row.now) }
{
    let up = 2 * number;
    let down = up + 1;
    let first = crosses(stamps, epoch, row, up, down);
    let second = crosses(stamps, epoch, row, down, up);
    if first == second {
        return Ok(false);
    }
    let (gone, kept) = if first { (up, down) } else { (down, up) };
    stamps[gone as usize] = 0;
    mark_row(stamps, members, epoch, row, kept)?;
    Ok(true)
}
