ghost use Rattle.std.specs.Prelude.{◌≡◌, ◌≤◌, ◌<◌, ◌^◌, ℕ, List, length, None, false};
ghost use Rattle.std.specs.Option.{option_map};
ghost use Rattle.lv_outside.specs.Counts.{Rose};
ghost use Rattle.c_typed.specs.Parts.{tree_of};
ghost use Rattle.cfg_build.specs.Graphs.{program_setting};
ghost use Rattle.block_join.specs.Living.{live_at};
ghost use Rattle.witness_visit_laws.specs.Visited.{VisitsMarked};
ghost use Rattle.task_gen.specs.Generated.{generated};
ghost use Rattle.request_words.specs.Asked.{plain_learn, plain_model, plain_units};
ghost use Rattle.request_words.specs.Views.{asked_by};
ghost use Rattle.moment_text.specs.Moments.{IsMoment};
ghost use Rattle.request_answers.specs.Witnessed.{IsWitnessBy, IsWitnessed, has_witness, named_for};
ghost use Rattle.request_answers.specs.Answers.{HasGraph, IsAnswer, IsCheckAnswer, IsKnown, IsVerifyAnswer};

use crate::loading::{Loaded, load_source};
use crate::witnessing::{with_witness, witness_name};
use c_graph::Graph;
use cert_text::MOST_BYTES;
use cert_verdicts::judge;
use lv_base::{Model, Text};
use lv_outside::{FileFail, Folder, Gate, Got};
use request_words::{Asked, Checking, LEARN, UNITS, Verifying};
use source_verdicts::{Budget, verify};
use source_witnesses::Stamp;
use std::alloc::Global;
use std::thread::Threads;
use task_gen::{generate, generated_is_short};
use verdicts::Verdict;

const MOST_SOURCE: usize = 1_048_576;

/// The answer to what is asked, and its witness where one is asked for.
pub(crate) fn decide<R: Threads + Sync, F: Folder, G: Gate>(
    rt: &R,
    alloc: Global,
    folder: &mut F,
    asked: Asked<'_>,
    stamp: Stamp,
    gate: &G,
) -> (Verdict, Option<Text>)
    requires moment { IsMoment stamp.moment }
    ensures answer { IsKnown (F.tells folder.old) (asked_by asked.entry) → IsAnswer (Rose (F.read_faults folder.old) (F.read_faults folder.new)) (asked_by asked.entry) (F.file folder.old) result.0 }
    ensures witness { IsKnown (F.tells folder.old) (asked_by asked.entry) → IsWitnessed (asked_by asked.entry) (F.file folder.old) stamp result.0 result.1 }
    ensures silent { has_witness result.0 ≡ false → result.1 ≡ None }
    ensures read_fault { result.0 ≡ Verdict.ReadFault → Rose (F.read_faults folder.old) (F.read_faults folder.new) }
    ensures tells { F.tells folder.old → F.tells folder.new }
    ensures files { (n : List ℕ) → F.file folder.new n ≡ F.file folder.old n }
    ensures later { F.read_faults folder.old ≤ F.read_faults folder.new }
    ensures writes { F.write_faults folder.new ≡ F.write_faults folder.old }
{
    match asked {
        Asked::Check(checking) => (decide_check(rt, alloc, folder, checking, gate), None),
        Asked::Verify(verifying) => decide_verify(rt, alloc, folder, verifying, stamp, gate),
        Asked::Generate(seed) => (decide_generate(rt, alloc, seed, gate), None),
    }
}

fn decide_check<R: Threads + Sync, F: Folder, G: Gate>(
    rt: &R,
    alloc: Global,
    folder: &mut F,
    checking: Checking<'_>,
    gate: &G,
) -> Verdict
    ensures answer { F.tells folder.old → IsCheckAnswer (Rose (F.read_faults folder.old) (F.read_faults folder.new)) checking.entry.model (F.file folder.old checking.entry.source.now) (F.file folder.old checking.entry.cert.now) result }
    ensures read_fault { result ≡ Verdict.ReadFault → Rose (F.read_faults folder.old) (F.read_faults folder.new) }
    ensures tells { F.tells folder.old → F.tells folder.new }
    ensures files { (n : List ℕ) → F.file folder.new n ≡ F.file folder.old n }
    ensures later { F.read_faults folder.old ≤ F.read_faults folder.new }
    ensures writes { F.write_faults folder.new ≡ F.write_faults folder.old }
{
    match folder.read(alloc, checking.source, MOST_SOURCE) {
        Ok(Got::Bytes(bytes)) => check_source(rt, alloc, folder, &bytes, checking, gate),
        Ok(Got::Longer) => Verdict::Over(1, 1_048_577),
        Err(FileFail::Failed) => Verdict::ReadFault,
        Err(FileFail::Memory) => Verdict::NoMemory,
    }
}

fn check_source<R: Threads + Sync, F: Folder, G: Gate>(
    rt: &R,
    alloc: Global,
    folder: &mut F,
    source: &[u8],
    checking: Checking<'_>,
    gate: &G,
) -> Verdict
    requires small { length source.now ≤ 2 ^ 20 }
    ensures answer { F.tells folder.old → IsCheckAnswer (Rose (F.read_faults folder.old) (F.read_faults folder.new)) checking.entry.model source.now (F.file folder.old checking.entry.cert.now) result }
    ensures read_fault { result ≡ Verdict.ReadFault → Rose (F.read_faults folder.old) (F.read_faults folder.new) }
    ensures tells { F.tells folder.old → F.tells folder.new }
    ensures files { (n : List ℕ) → F.file folder.new n ≡ F.file folder.old n }
    ensures later { F.read_faults folder.old ≤ F.read_faults folder.new }
    ensures writes { F.write_faults folder.new ≡ F.write_faults folder.old }
{
    match load_source(alloc, source, checking.model) {
        Ok(parts) => check_cert(rt, alloc, folder, source, &parts, checking, gate),
        Err(verdict) => verdict,
    }
}

fn check_cert<R: Threads + Sync, F: Folder, G: Gate>(
    rt: &R,
    alloc: Global,
    folder: &mut F,
    source: &[u8],
    parts: &Loaded,
    checking: Checking<'_>,
    gate: &G,
) -> Verdict
    requires graph { HasGraph checking.model source.now parts.now.examined.typed parts.now.joined.graph }
    ensures answer { F.tells folder.old → IsCheckAnswer (Rose (F.read_faults folder.old) (F.read_faults folder.new)) checking.entry.model source.now (F.file folder.old checking.entry.cert.now) result }
    ensures read_fault { result ≡ Verdict.ReadFault → Rose (F.read_faults folder.old) (F.read_faults folder.new) }
    ensures tells { F.tells folder.old → F.tells folder.new }
    ensures files { (n : List ℕ) → F.file folder.new n ≡ F.file folder.old n }
    ensures later { F.read_faults folder.old ≤ F.read_faults folder.new }
    ensures writes { F.write_faults folder.new ≡ F.write_faults folder.old }
{
    let _entry = parts.joined.graph.entry();
    match folder.read(alloc, checking.cert, MOST_BYTES) {
        Ok(Got::Bytes(bytes)) => judge(
            rt,
            alloc,
            &parts.joined.graph,
            source,
            checking.model,
            &bytes,
            team_of(checking.workers),
            gate,
        ),
        Ok(Got::Longer) => Verdict::Over(8, 67_108_865),
        Err(FileFail::Failed) => Verdict::ReadFault,
        Err(FileFail::Memory) => Verdict::NoMemory,
    }
}

// So many workers, and no other number than a request may ask for.
fn team_of(workers: u64) -> u32
    ensures { (1 ≤ result) × (result ≤ 64) }
{
    workers.max(1).min(64) as u32
}

fn decide_verify<R: Threads + Sync, F: Folder, G: Gate>(
    rt: &R,
    alloc: Global,
    folder: &mut F,
    verifying: Verifying<'_>,
    stamp: Stamp,
    gate: &G,
) -> (Verdict, Option<Text>)
    requires moment { IsMoment stamp.moment }
    ensures answer { F.tells folder.old → IsVerifyAnswer (Rose (F.read_faults folder.old) (F.read_faults folder.new)) verifying.entry.model verifying.entry.units verifying.entry.learn (F.file folder.old verifying.entry.source.now) result.0 }
    ensures witness { F.tells folder.old → IsWitnessBy (named_for (option_map (λ s. s.now) verifying.entry.witness) verifying.entry.source.now) verifying.entry.model (F.file folder.old verifying.entry.source.now) stamp result.0 result.1 }
    ensures silent { has_witness result.0 ≡ false → result.1 ≡ None }
    ensures read_fault { result.0 ≡ Verdict.ReadFault → Rose (F.read_faults folder.old) (F.read_faults folder.new) }
    ensures tells { F.tells folder.old → F.tells folder.new }
    ensures files { (n : List ℕ) → F.file folder.new n ≡ F.file folder.old n }
    ensures later { F.read_faults folder.old ≤ F.read_faults folder.new }
    ensures writes { F.write_faults folder.new ≡ F.write_faults folder.old }
{
    let name = witness_name(verifying);
    let budget = Budget {
        units: verifying.units,
        learn: verifying.learn,
        workers: team_of(verifying.workers),
    };
    match folder.read(alloc, verifying.source, MOST_SOURCE) {
        Ok(Got::Bytes(bytes)) => {
            verify_source(
                rt,
                alloc,
                &bytes,
                verifying.model,
                budget,
                name,
                stamp,
                gate,
            )
        }
        Ok(Got::Longer) => (Verdict::Over(1, 1_048_577), None),
        Err(FileFail::Failed) => (Verdict::ReadFault, None),
        Err(FileFail::Memory) => (Verdict::NoMemory, None),
    }
}

// The verification of the source of a seed, with the defaults of all options.
fn decide_generate<R: Threads + Sync, G: Gate>(
    rt: &R,
    alloc: Global,
    seed: u32,
    gate: &G,
) -> Verdict
    ensures answer { IsVerifyAnswer ⊥ plain_model plain_units plain_learn (generated seed) result }
    ensures no_fault { result ≡ Verdict.ReadFault → ⊥ }
{
    generated_is_short();
    let budget = Budget {
        units: UNITS,
        learn: LEARN,
        workers: 1,
    };
    match generate(alloc, seed) {
        Ok(source) => verify_plain(rt, alloc, &source, Model::Ilp32, budget, gate),
        Err(_) => Verdict::NoMemory,
    }
}

// The verification of a source without a witness.
fn verify_plain<R: Threads + Sync, G: Gate>(
    rt: &R,
    alloc: Global,
    source: &[u8],
    model: Model,
    budget: Budget,
    gate: &G,
) -> Verdict
    requires small { length source.now ≤ 2 ^ 20 }
    requires workers { (1 ≤ budget.workers) × (budget.workers ≤ 64) }
    ensures answer { IsVerifyAnswer ⊥ model budget.units budget.learn source.now result }
    ensures no_fault { result ≡ Verdict.ReadFault → ⊥ }
{
    let stamp = Stamp {
        moment: 0,
        random: [0; 16],
    };
    let (verdict, _witness) = verify_source(rt, alloc, source, model, budget, None, stamp, gate);
    verdict
}

// The verification of a source, with a witness where the name of the source's file is given for one.
fn verify_source<R: Threads + Sync, G: Gate>(
    rt: &R,
    alloc: Global,
    source: &[u8],
    model: Model,
    budget: Budget,
    name: Option<&str>,
    stamp: Stamp,
    gate: &G,
) -> (Verdict, Option<Text>)
    requires small { length source.now ≤ 2 ^ 20 }
    requires workers { (1 ≤ budget.workers) × (budget.workers ≤ 64) }
    requires moment { IsMoment stamp.moment }
    ensures answer { IsVerifyAnswer ⊥ model budget.units budget.learn source.now result.0 }
    ensures witness { IsWitnessBy (option_map (λ s. s.now) name.entry) model source.now stamp result.0 result.1 }
    ensures silent { has_witness result.0 ≡ false → result.1 ≡ None }
    ensures no_fault { result.0 ≡ Verdict.ReadFault → ⊥ }
{
    match load_source(alloc, source, model) {
        Ok(parts) => verify_loaded(rt, alloc, source, &parts, model, budget, name, stamp, gate),
        Err(verdict) => (verdict, None),
    }
}

fn verify_loaded<R: Threads + Sync, G: Gate>(
    rt: &R,
    alloc: Global,
    source: &[u8],
    parts: &Loaded,
    model: Model,
    budget: Budget,
    name: Option<&str>,
    stamp: Stamp,
    gate: &G,
) -> (Verdict, Option<Text>)
    requires small { length source.now ≤ 2 ^ 20 }
    requires workers { (1 ≤ budget.workers) × (budget.workers ≤ 64) }
    requires moment { IsMoment stamp.moment }
    requires graph { HasGraph model source.now parts.now.examined.typed parts.now.joined.graph }
    requires marked { VisitsMarked (program_setting parts.now.examined.typed parts.now.examined.order) (tree_of parts.now.examined.typed) (live_at parts.now.joined.live) parts.now.joined.graph }
    ensures answer { IsVerifyAnswer ⊥ model budget.units budget.learn source.now result.0 }
    ensures witness { IsWitnessBy (option_map (λ s. s.now) name.entry) model source.now stamp result.0 result.1 }
    ensures silent { has_witness result.0 ≡ false → result.1 ≡ None }
    ensures no_fault { result.0 ≡ Verdict.ReadFault → ⊥ }
{
    let _entry = parts.joined.graph.entry();
    let (examined, graph) = (&parts.examined, &parts.joined.graph);
    let told = verify(rt, alloc, examined, graph, source, model, budget, gate);
    let live = &parts.joined.live;
    with_witness(alloc, name, source, model, graph, live, told, stamp)
}
