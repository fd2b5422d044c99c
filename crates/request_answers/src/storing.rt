ghost use Rattle.std.specs.Prelude.{◌≡◌, ◌≤◌, ◌⊎◌, List, ℕ, OnOk, IsErrOf};
ghost use Rattle.std.specs.Option.{option_map};
ghost use Rattle.lv_outside.specs.Counts.{Rose};
ghost use Rattle.request_words.specs.Asked.{Verify, IsApart};
ghost use Rattle.request_words.specs.Views.{asked_by, verifying_of};
ghost use Rattle.request_answers.specs.Stored.{IsOther, IsStored, IsUntouched, both_named, file_for, in_file, witness_file};

use lv_base::Text;
use lv_outside::{FileFail, Folder};
use request_words::{Asked, Verifying};
use std::alloc::Global;
use verdicts::Verdict;

/// Writes what is to be stored of an answer: a certificate or a run, and then its witness. Where one is not written, none behind it is.
pub(crate) fn store<F: Folder>(
    alloc: Global,
    folder: &mut F,
    asked: Asked<'_>,
    verdict: &Verdict,
    witness: &Option<Text>,
) -> Result<(), FileFail>
    ensures stored { F.tells folder.old → IsApart (asked_by asked.entry) → OnOk result (IsStored (F.file folder.new) (file_for (asked_by asked.entry) verdict.now)) }
    ensures witnessed { F.tells folder.old → OnOk result (IsStored (F.file folder.new) (witness_file (asked_by asked.entry) witness.now)) }
    ensures ordered { F.tells folder.old → IsApart (asked_by asked.entry) → IsUntouched (F.file folder.old) (F.file folder.new) (witness_file (asked_by asked.entry) witness.now) ⊎ IsStored (F.file folder.new) (file_for (asked_by asked.entry) verdict.now) }
    ensures others { (n : List ℕ) → IsOther (file_for (asked_by asked.entry) verdict.now) n → IsOther (witness_file (asked_by asked.entry) witness.now) n → F.file folder.new n ≡ F.file folder.old n }
    ensures cause { IsErrOf result FileFail.Failed → Rose (F.write_faults folder.old) (F.write_faults folder.new) }
    ensures reads { F.read_faults folder.new ≡ F.read_faults folder.old }
{
    match asked {
        Asked::Check(_) | Asked::Generate(_) => Ok(()),
        Asked::Verify(verifying) => store_verified(alloc, folder, verifying, verdict, witness),
    }
}

fn store_verified<F: Folder>(
    alloc: Global,
    folder: &mut F,
    verifying: Verifying<'_>,
    verdict: &Verdict,
    witness: &Option<Text>,
) -> Result<(), FileFail>
    ensures stored { F.tells folder.old → IsApart (Verify (verifying_of verifying.entry)) → OnOk result (IsStored (F.file folder.new) (file_for (Verify (verifying_of verifying.entry)) verdict.now)) }
    ensures witnessed { F.tells folder.old → OnOk result (IsStored (F.file folder.new) (witness_file (Verify (verifying_of verifying.entry)) witness.now)) }
    ensures ordered { F.tells folder.old → IsApart (Verify (verifying_of verifying.entry)) → IsUntouched (F.file folder.old) (F.file folder.new) (witness_file (Verify (verifying_of verifying.entry)) witness.now) ⊎ IsStored (F.file folder.new) (file_for (Verify (verifying_of verifying.entry)) verdict.now) }
    ensures others { (n : List ℕ) → IsOther (file_for (Verify (verifying_of verifying.entry)) verdict.now) n → IsOther (witness_file (Verify (verifying_of verifying.entry)) witness.now) n → F.file folder.new n ≡ F.file folder.old n }
    ensures cause { IsErrOf result FileFail.Failed → Rose (F.write_faults folder.old) (F.write_faults folder.new) }
    ensures reads { F.read_faults folder.new ≡ F.read_faults folder.old }
{
    match put_proof(alloc, folder, verifying, verdict) {
        Ok(()) => put_witness(alloc, folder, verifying.witness, witness),
        Err(fail) => Err(fail),
    }
}

// Writes the certificate of a source that is safe, or the run of one that isn't.
fn put_proof<F: Folder>(
    alloc: Global,
    folder: &mut F,
    verifying: Verifying<'_>,
    verdict: &Verdict,
) -> Result<(), FileFail>
    ensures stored { F.tells folder.old → OnOk result (IsStored (F.file folder.new) (file_for (Verify (verifying_of verifying.entry)) verdict.now)) }
    ensures others { (n : List ℕ) → IsOther (file_for (Verify (verifying_of verifying.entry)) verdict.now) n → F.file folder.new n ≡ F.file folder.old n }
    ensures tells { F.tells folder.old → F.tells folder.new }
    ensures cause { IsErrOf result FileFail.Failed → Rose (F.write_faults folder.old) (F.write_faults folder.new) }
    ensures later { F.write_faults folder.old ≤ F.write_faults folder.new }
    ensures reads { F.read_faults folder.new ≡ F.read_faults folder.old }
{
    match verdict {
        Verdict::Safe(text) => put(alloc, folder, verifying.cert, text.as_bytes()),
        Verdict::Unsafe(_, _, _, text) => put(alloc, folder, verifying.run, text.as_bytes()),
        _ => Ok(()),
    }
}

// Writes the witness, where there is one and a file is named for it.
fn put_witness<F: Folder>(
    alloc: Global,
    folder: &mut F,
    name: Option<&str>,
    witness: &Option<Text>,
) -> Result<(), FileFail>
    ensures stored { F.tells folder.old → OnOk result (IsStored (F.file folder.new) (both_named (option_map (λ s. s.now) name.entry) witness.now)) }
    ensures others { (n : List ℕ) → IsOther (both_named (option_map (λ s. s.now) name.entry) witness.now) n → F.file folder.new n ≡ F.file folder.old n }
    ensures cause { IsErrOf result FileFail.Failed → Rose (F.write_faults folder.old) (F.write_faults folder.new) }
    ensures reads { F.read_faults folder.new ≡ F.read_faults folder.old }
{
    match name {
        None => Ok(()),
        Some(name) => match witness {
            None => Ok(()),
            Some(text) => folder.write(alloc, name, text.as_bytes()),
        },
    }
}

// Writes the bytes, where a file is named for them.
fn put<F: Folder>(
    alloc: Global,
    folder: &mut F,
    name: Option<&str>,
    bytes: &[u8],
) -> Result<(), FileFail>
    ensures stored { F.tells folder.old → OnOk result (IsStored (F.file folder.new) (in_file (option_map (λ s. s.now) name.entry) bytes.now)) }
    ensures others { (n : List ℕ) → IsOther (in_file (option_map (λ s. s.now) name.entry) bytes.now) n → F.file folder.new n ≡ F.file folder.old n }
    ensures tells { F.tells folder.old → F.tells folder.new }
    ensures cause { IsErrOf result FileFail.Failed → Rose (F.write_faults folder.old) (F.write_faults folder.new) }
    ensures later { F.write_faults folder.old ≤ F.write_faults folder.new }
    ensures reads { F.read_faults folder.new ≡ F.read_faults folder.old }
{
    match name {
        None => Ok(()),
        Some(name) => folder.write(alloc, name, bytes),
    }
}
