ghost use Rattle.std.specs.Prelude.{◌≡◌, ◌≢◌, ◌⊎◌, ◌++◌, ◌==◌, ℕ, List, if◌then◌else◌, None, false};
ghost use Rattle.lv_outside.specs.Bytes.{GrewByFront};
ghost use Rattle.lv_outside.specs.Counts.{Rose};
ghost use Rattle.moment_text.specs.Moments.{IsMoment};
ghost use Rattle.request_words.specs.Asked.{IsApart};
ghost use Rattle.request_words.specs.Views.{asked_by};
ghost use Rattle.verdicts.specs.Lines.{status_of, text_of};
ghost use Rattle.request_answers.specs.Answers.{IsAnswer, IsKnown};
ghost use Rattle.request_answers.specs.Printed.{text_for};
ghost use Rattle.request_answers.specs.Stored.{IsOther, IsStored, IsUntouched, file_for, witness_file};
ghost use Rattle.request_answers.specs.Witnessed.{IsWitnessed, has_witness};

use crate::deciding::decide;
use crate::printing::{no_memory, print};
use crate::storing::store;
use lv_base::Text;
use lv_outside::{FileFail, Folder, Gate, Sink};
use request_words::Asked;
use source_witnesses::Stamp;
use std::alloc::Global;
use std::thread::Threads;
use verdicts::Verdict;

/// An answer, and the status with which it was told.
#[derive(Drop)]
pub struct Told {
    pub status: u8,
    pub verdict: Verdict,
    /// The text of the witness, where one was asked for and the answer has one.
    pub witness: Option<Text>,
}

/// Answers what is asked, over these files: what is to be stored of the answer is written, first a certificate or a run and then a witness,
/// and then its line is printed, and that of a seed behind it.
pub fn answer<R: Threads + Sync, F: Folder, S: Sink, G: Gate>(
    rt: &R,
    alloc: Global,
    asked: Asked<'_>,
    stamp: Stamp,
    folder: &mut F,
    out: &mut S,
    gate: &G,
) -> Told
    requires moment { IsMoment stamp.moment }
    ensures answer { IsKnown (F.tells folder.old) (asked_by asked.entry) → IsAnswer (Rose (F.read_faults folder.old) (F.read_faults folder.new)) (asked_by asked.entry) (F.file folder.old) result.verdict }
    ensures witness { IsKnown (F.tells folder.old) (asked_by asked.entry) → IsWitnessed (asked_by asked.entry) (F.file folder.old) stamp result.verdict result.witness }
    ensures silent { has_witness result.verdict ≡ false → result.witness ≡ None }
    ensures read_fault { result.verdict ≡ Verdict.ReadFault → Rose (F.read_faults folder.old) (F.read_faults folder.new) }
    ensures status { (result.status ≡ 14) ⊎ ((result.status ≡ 15) ⊎ (result.status ≡ status_of result.verdict)) }
    ensures fault { result.status ≡ 14 → Rose (F.write_faults folder.old) (F.write_faults folder.new) ⊎ Rose (S.faults out.old) (S.faults out.new) }
    ensures printed { S.tells out.new → result.status ≢ 14 → S.text out.new ≡ S.text out.old ++ (if result.status == 15 then text_of Verdict.NoMemory else text_for (asked_by asked.entry) result.verdict) }
    ensures cut { S.tells out.new → result.status ≡ 14 → (S.text out.new ≡ S.text out.old) ⊎ (GrewByFront (S.text out.old) (S.text out.new) (text_for (asked_by asked.entry) result.verdict) ⊎ GrewByFront (S.text out.old) (S.text out.new) (text_of Verdict.NoMemory)) }
    ensures stored { F.tells folder.old → result.status ≢ 14 → result.status ≢ 15 → IsApart (asked_by asked.entry) → IsStored (F.file folder.new) (file_for (asked_by asked.entry) result.verdict) }
    ensures witnessed { F.tells folder.old → result.status ≢ 14 → result.status ≢ 15 → IsStored (F.file folder.new) (witness_file (asked_by asked.entry) result.witness) }
    ensures ordered { F.tells folder.old → IsApart (asked_by asked.entry) → IsUntouched (F.file folder.old) (F.file folder.new) (witness_file (asked_by asked.entry) result.witness) ⊎ IsStored (F.file folder.new) (file_for (asked_by asked.entry) result.verdict) }
    ensures others { (n : List ℕ) → IsOther (file_for (asked_by asked.entry) result.verdict) n → IsOther (witness_file (asked_by asked.entry) result.witness) n → F.file folder.new n ≡ F.file folder.old n }
{
    let (verdict, witness) = decide(rt, alloc, folder, asked, stamp, gate);
    match store(alloc, folder, asked, &verdict, &witness) {
        Ok(()) => {
            let status = print(alloc, asked, &verdict, out);
            Told {
                status,
                verdict,
                witness,
            }
        }
        Err(FileFail::Failed) => Told {
            status: 14,
            verdict,
            witness,
        },
        Err(FileFail::Memory) => {
            let status = no_memory(out);
            Told {
                status,
                verdict,
                witness,
            }
        }
    }
}
