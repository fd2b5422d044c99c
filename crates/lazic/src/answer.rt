ghost use Rattle.std.specs.Prelude.{◌≡◌, ◌≤◌, ◌^◌, ℕ, List, map, length, IsNone, ◌⊎◌};
ghost use Rattle.lv_outside.specs.Counts.{Rose};
ghost use Rattle.c_tree.specs.Tree.{Items};
ghost use Rattle.c_typed.specs.Parts.{tree_of};
ghost use Rattle.lazic.specs.Words.{request_of};
ghost use Rattle.source_reading.specs.Reading.{source_read, RunsAs};
ghost use Rattle.lazic.specs.Answer.{outcome_of, source_outcome, tree_outcome, run_outcome, refused, IsCaused};
ghost use Rattle.lazic.specs.Runs.{IsRunOf, IsRunOn};

use crate::outcome::Outcome;
use crate::running::{replayed, told};
use c_rules::Examined;
use lv_base::{Memory, SourceFail, place_of};
use lv_outside::{FileFail, Folder, Got};
use request_words::{Replaying, replay_request};
use source_reading::examined;
use std::alloc::Global;
use stored_text::{MOST_BYTES, StoredFail, read_run};
use verdicts::Values;

const MOST_SOURCE: usize = 1_048_576;

/// The answer to the words.
pub fn decide<F: Folder>(alloc: Global, words: &[&str], folder: &mut F) -> Outcome
    ensures caused { IsCaused (Rose (F.read_faults folder.old) (F.read_faults folder.new)) (F.tells folder.old) (outcome_of (map (λ w. w.now) words.now) (F.file folder.old)) result }
    ensures usage { result ≡ Outcome.Usage → IsNone (request_of (map (λ w. w.now) words.now)) }
    ensures only_usage { IsNone (request_of (map (λ w. w.now) words.now)) → (result ≡ Outcome.Usage) ⊎ (result ≡ Outcome.NoMemory) }
    ensures files { (n : List ℕ) → F.file folder.new n ≡ F.file folder.old n }
    ensures tells { F.tells folder.old → F.tells folder.new }
    ensures writes { F.write_faults folder.new ≡ F.write_faults folder.old }
{
    match replay_request(alloc, words) {
        Ok(Some(wanted)) => decide_source(alloc, folder, wanted),
        Ok(None) => Outcome::Usage,
        Err(Memory) => Outcome::NoMemory,
    }
}

fn decide_source<F: Folder>(alloc: Global, folder: &mut F, wanted: Replaying<'_>) -> Outcome
    ensures caused { IsCaused (Rose (F.read_faults folder.old) (F.read_faults folder.new)) (F.tells folder.old) (source_outcome wanted.entry.model wanted.entry.turns (F.file folder.old wanted.entry.source.now) (F.file folder.old wanted.entry.run.now)) result }
    ensures files { (n : List ℕ) → F.file folder.new n ≡ F.file folder.old n }
    ensures tells { F.tells folder.old → F.tells folder.new }
    ensures writes { F.write_faults folder.new ≡ F.write_faults folder.old }
{
    match folder.read(alloc, wanted.source, MOST_SOURCE) {
        Ok(Got::Bytes(bytes)) => decide_tree(alloc, folder, &bytes, wanted),
        Ok(Got::Longer) => Outcome::Over(1, 1_048_577),
        Err(FileFail::Failed) => Outcome::ReadFault,
        Err(FileFail::Memory) => Outcome::NoMemory,
    }
}

fn decide_tree<F: Folder>(
    alloc: Global,
    folder: &mut F,
    source: &[u8],
    wanted: Replaying<'_>,
) -> Outcome
    requires { length source.now ≤ 2 ^ 20 }
    ensures caused { IsCaused (Rose (F.read_faults folder.old) (F.read_faults folder.new)) (F.tells folder.old) (tree_outcome wanted.entry.model wanted.entry.turns source.now (source_read wanted.entry.model source.now) (F.file folder.old wanted.entry.run.now)) result }
    ensures files { (n : List ℕ) → F.file folder.new n ≡ F.file folder.old n }
    ensures tells { F.tells folder.old → F.tells folder.new }
    ensures writes { F.write_faults folder.new ≡ F.write_faults folder.old }
    ensures later { F.read_faults folder.old ≤ F.read_faults folder.new }
{
    match examined(alloc, source, wanted.model) {
        Ok(examined) => decide_run(alloc, folder, source, &examined, wanted),
        Err(fail) => refuse(source, fail),
    }
}

fn refuse(source: &[u8], fail: SourceFail) -> Outcome
    requires { length source.now ≤ 2 ^ 20 }
    ensures { result ≡ refused source.now fail }
{
    match fail {
        SourceFail::Fault(fault, at) => {
            Outcome::Faulty(fault, place_of(source, (at as usize).min(source.len())))
        }
        SourceFail::Over(number, count) => Outcome::Over(number, count),
        SourceFail::Memory => Outcome::NoMemory,
    }
}

fn decide_run<F: Folder>(
    alloc: Global,
    folder: &mut F,
    source: &[u8],
    examined: &Examined,
    wanted: Replaying<'_>,
) -> Outcome
    requires { length source.now ≤ 2 ^ 20 }
    ensures caused { (tree : Items) → RunsAs (tree_of examined.now.typed) tree wanted.entry.model → IsCaused (Rose (F.read_faults folder.old) (F.read_faults folder.new)) (F.tells folder.old) (run_outcome wanted.entry.model wanted.entry.turns source.now tree (F.file folder.old wanted.entry.run.now)) result }
    ensures files { (n : List ℕ) → F.file folder.new n ≡ F.file folder.old n }
    ensures tells { F.tells folder.old → F.tells folder.new }
    ensures writes { F.write_faults folder.new ≡ F.write_faults folder.old }
    ensures later { F.read_faults folder.old ≤ F.read_faults folder.new }
{
    match folder.read(alloc, wanted.run, MOST_BYTES) {
        Ok(Got::Bytes(bytes)) => run_file(alloc, source, examined, &bytes, wanted.turns),
        Ok(Got::Longer) => Outcome::Over(9, 22_000_007),
        Err(FileFail::Failed) => Outcome::ReadFault,
        Err(FileFail::Memory) => Outcome::NoMemory,
    }
}

// The answer to a run file.
fn run_file(alloc: Global, source: &[u8], examined: &Examined, bytes: &[u8], turns: u64) -> Outcome
    requires { length source.now ≤ 2 ^ 20 }
    ensures { IsRunOf (tree_of examined.now.typed) turns source.now bytes.now result }
{
    match read_run(alloc, bytes) {
        Ok(values) => run_values(alloc, source, examined, Values::new(values), turns),
        Err(StoredFail::Format(at)) => Outcome::BadRun(at),
        Err(StoredFail::Over(number, count)) => Outcome::Over(number, count),
        Err(StoredFail::Memory) => Outcome::NoMemory,
    }
}

fn run_values(
    alloc: Global,
    source: &[u8],
    examined: &Examined,
    values: Values,
    turns: u64,
) -> Outcome
    requires { length source.now ≤ 2 ^ 20 }
    ensures { IsRunOn (tree_of examined.now.typed) turns source.now values result }
{
    match replayed(alloc, examined, values.as_slice(), turns) {
        Ok(ending) => told(source, turns, values, ending),
        Err(_) => Outcome::NoMemory,
    }
}
