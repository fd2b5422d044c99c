//! Writes run files.

ghost use Rattle.std.specs.Prelude.{◌≡◌, ◌⊎◌, ◌<◌, ◌^◌, ◌++◌, ◌∷◌, [], Ok, Err, MatchResult, unsigned_abs};
ghost use Rattle.stored_text.specs.RunText.{AreShort, value_text};
ghost use Rattle.stored_text.specs.Writing.{write_run_of};

use crate::StoredFail;
use crate::reading::{HEAD, MOST_VALUES};
use std::alloc::Global;

// The line of a value behind what is written.
fn push_line(alloc: Global, file: &mut Vec<u8>, value: i128) -> Result<(), StoredFail>
    requires { unsigned_abs value < 10 ^ 20 }
    ensures { MatchResult result (λ _. file.new.items ≡ file.old.items ++ (value_text value ++ 10 ∷ [])) (λ e. e ≡ StoredFail.Memory) }
{
    let Ok(line) = format!(in alloc; "{value}\n") else {
        return Err(StoredFail::Memory);
    };
    if file.extend_from_slice(line.as_bytes()).is_err() {
        return Err(StoredFail::Memory);
    }
    Ok(())
}

/// The run file of the values: its first line, and a line for each. More than [`MOST_VALUES`] pass limit 9, with their
/// count. [`read_run`](crate::read_run) reads it back.
pub fn write_run(alloc: Global, values: &[i128]) -> Result<Vec<u8>, StoredFail>
    requires { AreShort values.now }
    ensures { MatchResult result (λ file. write_run_of values.now ≡ Ok file.items) (λ e. (e ≡ StoredFail.Memory) ⊎ (write_run_of values.now ≡ Err e)) }
{
    if values.len() > MOST_VALUES {
        return Err(StoredFail::Over(9, values.len() as u64));
    }
    let Ok(mut file) = Vec::from_slice(alloc, &HEAD) else {
        return Err(StoredFail::Memory);
    };
    for value in values {
        push_line(alloc, &mut file, *value)?;
    }
    Ok(file)
}
