ghost use Rattle.std.specs.Prelude.{◌≡◌, ◌≢◌, ◌⊎◌, ◌++◌, ℕ, List, map, pos, ◌≤ℤ◌, IsNone, Some};
ghost use Rattle.request_words.specs.Asked.{Asked, asked_of};
ghost use Rattle.request_words.specs.Values.{SeedsAreRead};
ghost use Rattle.lazic.specs.Words.{request_of, TurnsAreRead};
ghost use Rattle.lv_outside.specs.Counts.{Rose};
ghost use Rattle.lv_outside.specs.Bytes.{GrewByFront};
ghost use Rattle.lazic.specs.declared.outcome.Outcome.{Outcome};
ghost use Rattle.lazic.specs.Outcome.{status_of, text_of};
ghost use Rattle.lazic.specs.Answer.{outcome_of, IsCaused};
ghost use Rattle.lazic.specs.Meaning.{OneAnswer};
ghost use Rattle.lazic.specs.Reaching.{KeptAreReplayed, ReachesAreTold};
ghost use Rattle.lazic.specs.Headline.{Headline};
ghost use Rattle.lazic.specs.Told.{RequestsDiffer, ToldOf, stamp_of};
ghost use Rattle.lazic.specs.Report.{Ends, MeansReport, kept_of, told_text, IsFree};

use crate::answer::decide;
use crate::report::{Kept, Report, no_memory, print};
use crate::requests::answer_asked;
use c_meaning::drawn_are_there;
use lv_base::Memory;
use lv_outside::{Folder, Gate, Sink};
use request_words::{names_are_apart, numbers_are_read, request, seeds_are_read};
use source_witnesses::Stamp;
use std::alloc::Global;
use std::thread::Threads;

/// Answers the words, over these files, and prints one line. Each worker of a check has a thread of its own, and enters the gate before
/// its first obligation; no answer depends on how many there are.
pub fn run_words<R: Threads + Sync, F: Folder, S: Sink, G: Gate>(
    rt: &R,
    alloc: Global,
    words: &[&str],
    folder: &mut F,
    out: &mut S,
    moment: i64,
    random: [u8; 16],
    gate: &G,
) -> Report
    requires from { pos 0 ≤ℤ moment }
    requires to { moment ≤ℤ pos 253370764799 }

    // Some words over some files have exactly one answer, by what is written in them, where they ask for no check and no
    // verification. Each answer but a fault of the outside and want of memory is that one.
    ensures one_answer { OneAnswer }
    ensures turns { TurnsAreRead }
    ensures seeds { SeedsAreRead }
    ensures differ { RequestsDiffer }
    ensures means { IsNone (asked_of (map (λ w. w.now) words.now)) → F.tells folder.old → IsFree result.status ⊎ MeansReport (map (λ w. w.now) words.now) (F.file folder.old) result.status result.kept }
    ensures status { IsNone (asked_of (map (λ w. w.now) words.now)) → F.tells folder.old → IsFree result.status ⊎ (result.status ≡ status_of (outcome_of (map (λ w. w.now) words.now) (F.file folder.old))) }
    ensures kept { IsNone (asked_of (map (λ w. w.now) words.now)) → F.tells folder.old → IsFree result.status ⊎ (result.kept ≡ kept_of (outcome_of (map (λ w. w.now) words.now) (F.file folder.old))) }
    ensures free { IsNone (asked_of (map (λ w. w.now) words.now)) → IsFree result.status → result.kept ≡ Kept.Nothing }

    // Values that are kept of a replay lead the source, which breaks no rule, to the error that is told.
    ensures replayed { IsNone (asked_of (map (λ w. w.now) words.now)) → F.tells folder.old → KeptAreReplayed (map (λ w. w.now) words.now) (F.file folder.old) result.kept }

    // A run that reaches an error is told, with its values.
    ensures reaches { IsNone (asked_of (map (λ w. w.now) words.now)) → F.tells folder.old → ReachesAreTold (map (λ w. w.now) words.now) (F.file folder.old) (Rose (F.read_faults folder.old) (F.read_faults folder.new)) (Rose (S.faults out.old) (S.faults out.new)) result.status result.kept }

    // A fault of the outside is answered only where its count rose in this call.
    ensures read_fault { IsNone (asked_of (map (λ w. w.now) words.now)) → result.status ≡ 13 → Rose (F.read_faults folder.old) (F.read_faults folder.new) }
    ensures print_fault { IsNone (asked_of (map (λ w. w.now) words.now)) → result.status ≡ 14 → Rose (S.faults out.old) (S.faults out.new) }

    // The text grows by the line of the answer.
    ensures printed { IsNone (asked_of (map (λ w. w.now) words.now)) → F.tells folder.old → S.tells out.new → result.status ≢ 14 → S.text out.new ≡ S.text out.old ++ told_text result.status (outcome_of (map (λ w. w.now) words.now) (F.file folder.old)) }

    // Where the put fails, a first part of the line of some answer that has its cause was appended.
    ensures cut { IsNone (asked_of (map (λ w. w.now) words.now)) → S.tells out.new → result.status ≡ 14 → (answer : Outcome) × IsCaused (Rose (F.read_faults folder.old) (F.read_faults folder.new)) (F.tells folder.old) (outcome_of (map (λ w. w.now) words.now) (F.file folder.old)) answer × GrewByFront (S.text out.old) (S.text out.new) (text_of answer) }

    // USAGE comes where the words ask for nothing, and only there; printing may fail there too.
    ensures usage { IsNone (asked_of (map (λ w. w.now) words.now)) → result.status ≡ 10 → IsNone (request_of (map (λ w. w.now) words.now)) }
    ensures only_usage { IsNone (asked_of (map (λ w. w.now) words.now)) → IsNone (request_of (map (λ w. w.now) words.now)) → (result.status ≡ 10) ⊎ ((result.status ≡ 14) ⊎ (result.status ≡ 15)) }

    ensures files { IsNone (asked_of (map (λ w. w.now) words.now)) → (n : List ℕ) → F.file folder.new n ≡ F.file folder.old n }
    ensures tells { IsNone (asked_of (map (λ w. w.now) words.now)) → F.tells folder.old → F.tells folder.new }
    ensures writes { IsNone (asked_of (map (λ w. w.now) words.now)) → F.write_faults folder.new ≡ F.write_faults folder.old }

    // Whether or not the files are told, there is an answer that has its cause, and its status and its line end the run.
    ensures ends { IsNone (asked_of (map (λ w. w.now) words.now)) → Ends (Rose (F.read_faults folder.old) (F.read_faults folder.new)) (Rose (S.faults out.old) (S.faults out.new)) (F.tells folder.old) (S.tells out.new) (outcome_of (map (λ w. w.now) words.now) (F.file folder.old)) (S.text out.old) (S.text out.new) result.status result.kept }

    // What is asked of a certificate or a source has a verdict: the files are as it says, and the text grows by its line, and by that of
    // the seed behind it where the source is a seed's. Where a file is named for a witness, the witness of the verdict is written to it.
    ensures told { (asked : Asked) → asked_of (map (λ w. w.now) words.now) ≡ Some asked → ToldOf (F.tells folder.old) (S.tells out.new) (Rose (F.read_faults folder.old) (F.read_faults folder.new)) (Rose (F.write_faults folder.old) (F.write_faults folder.new)) (Rose (S.faults out.old) (S.faults out.new)) (F.file folder.old) (F.file folder.new) (S.text out.old) (S.text out.new) result.status result.kept (stamp_of moment random) asked }

    // SAFE and ACCEPTED come only where no run of a graph that was made of the source meets an error, so that none of the source does where
    // that graph stands for it; values are kept only where they lead the source to an error.
    ensures headline { (asked : Asked) → asked_of (map (λ w. w.now) words.now) ≡ Some asked → Headline (F.tells folder.old) asked (F.file folder.old) result.status result.kept }
{
    all_words();
    names_are_apart();
    match request(alloc, words) {
        Ok(Some(asked)) => {
            let stamp = Stamp { moment, random };
            answer_asked(rt, alloc, asked, stamp, folder, out, gate)
        }
        Ok(None) => replay_words(alloc, words, folder, out),
        Err(Memory) => no_memory(out),
    }
}

// What holds of all words.
fn all_words()
    ensures one_answer { OneAnswer }
    ensures turns { TurnsAreRead }
    ensures seeds { SeedsAreRead }
    ensures differ { RequestsDiffer }
{
    numbers_are_read();
    seeds_are_read();
}

// Answers words that ask for no check and no verification.
fn replay_words<F: Folder, S: Sink>(
    alloc: Global,
    words: &[&str],
    folder: &mut F,
    out: &mut S,
) -> Report
    // Some words over some files have exactly one answer, by what is written in them. Each answer but a fault of the
    // outside and want of memory is that one.
    ensures means { F.tells folder.old → IsFree result.status ⊎ MeansReport (map (λ w. w.now) words.now) (F.file folder.old) result.status result.kept }
    ensures status { F.tells folder.old → IsFree result.status ⊎ (result.status ≡ status_of (outcome_of (map (λ w. w.now) words.now) (F.file folder.old))) }
    ensures kept { F.tells folder.old → IsFree result.status ⊎ (result.kept ≡ kept_of (outcome_of (map (λ w. w.now) words.now) (F.file folder.old))) }
    ensures free { IsFree result.status → result.kept ≡ Kept.Nothing }

    // Values that are kept lead the source, which breaks no rule, to the error that is told.
    ensures replayed { F.tells folder.old → KeptAreReplayed (map (λ w. w.now) words.now) (F.file folder.old) result.kept }

    // A run that reaches an error is told, with its values.
    ensures reaches { F.tells folder.old → ReachesAreTold (map (λ w. w.now) words.now) (F.file folder.old) (Rose (F.read_faults folder.old) (F.read_faults folder.new)) (Rose (S.faults out.old) (S.faults out.new)) result.status result.kept }

    // A fault of the outside is answered only where its count rose in this call.
    ensures read_fault { result.status ≡ 13 → Rose (F.read_faults folder.old) (F.read_faults folder.new) }
    ensures print_fault { result.status ≡ 14 → Rose (S.faults out.old) (S.faults out.new) }

    // The text grows by the line of the answer.
    ensures printed { F.tells folder.old → S.tells out.new → result.status ≢ 14 → S.text out.new ≡ S.text out.old ++ told_text result.status (outcome_of (map (λ w. w.now) words.now) (F.file folder.old)) }

    // Where the put fails, a first part of the line of some answer that has its cause was appended.
    ensures cut { S.tells out.new → result.status ≡ 14 → (answer : Outcome) × IsCaused (Rose (F.read_faults folder.old) (F.read_faults folder.new)) (F.tells folder.old) (outcome_of (map (λ w. w.now) words.now) (F.file folder.old)) answer × GrewByFront (S.text out.old) (S.text out.new) (text_of answer) }

    // USAGE comes where the words ask for nothing, and only there; printing may fail there too.
    ensures usage { result.status ≡ 10 → IsNone (request_of (map (λ w. w.now) words.now)) }
    ensures only_usage { IsNone (request_of (map (λ w. w.now) words.now)) → (result.status ≡ 10) ⊎ ((result.status ≡ 14) ⊎ (result.status ≡ 15)) }

    ensures files { (n : List ℕ) → F.file folder.new n ≡ F.file folder.old n }
    ensures tells { F.tells folder.old → F.tells folder.new }
    ensures writes { F.write_faults folder.new ≡ F.write_faults folder.old }

    // Whether or not the files are told, there is an answer that has its cause, and its status and its line end the run.
    ensures ends { Ends (Rose (F.read_faults folder.old) (F.read_faults folder.new)) (Rose (S.faults out.old) (S.faults out.new)) (F.tells folder.old) (S.tells out.new) (outcome_of (map (λ w. w.now) words.now) (F.file folder.old)) (S.text out.old) (S.text out.new) result.status result.kept }
{
    drawn_are_there();
    let outcome = decide(alloc, words, folder);
    print(alloc, outcome, out)
}
