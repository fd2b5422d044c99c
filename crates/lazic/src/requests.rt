//! Requests for checks and verifications.
ghost use Rattle.std.specs.Prelude.{◌≡◌};
ghost use Rattle.lv_outside.specs.Counts.{Rose};
ghost use Rattle.moment_text.specs.Moments.{IsMoment};
ghost use Rattle.request_words.specs.Asked.{IsApart};
ghost use Rattle.request_words.specs.Views.{asked_by};
ghost use Rattle.lazic.specs.Headline.{Headline};
ghost use Rattle.lazic.specs.Told.{ToldOf, kept_in, kept_when};

use crate::report::{Kept, Report};
use lv_outside::{Folder, Gate, Sink};
use request_answers::{Told, answer};
use request_words::Asked;
use source_witnesses::Stamp;
use std::alloc::Global;
use std::thread::Threads;
use verdicts::Verdict;

/// Answers what is asked, over these files, and prints one line. A check's workers enter the gate.
pub(crate) fn answer_asked<R: Threads + Sync, F: Folder, S: Sink, G: Gate>(
    rt: &R,
    alloc: Global,
    asked: Asked<'_>,
    stamp: Stamp,
    folder: &mut F,
    out: &mut S,
    gate: &G,
) -> Report
    requires moment { IsMoment stamp.moment }
    requires apart { IsApart (asked_by asked) }
    ensures told { ToldOf (F.tells folder.old) (S.tells out.new) (Rose (F.read_faults folder.old) (F.read_faults folder.new)) (Rose (F.write_faults folder.old) (F.write_faults folder.new)) (Rose (S.faults out.old) (S.faults out.new)) (F.file folder.old) (F.file folder.new) (S.text out.old) (S.text out.new) result.status result.kept stamp (asked_by asked.entry) }
    ensures headline { Headline (F.tells folder.old) (asked_by asked.entry) (F.file folder.old) result.status result.kept }
{
    tell(rt, alloc, asked, stamp, folder, out, gate)
}

fn tell<R: Threads + Sync, F: Folder, S: Sink, G: Gate>(
    rt: &R,
    alloc: Global,
    asked: Asked<'_>,
    stamp: Stamp,
    folder: &mut F,
    out: &mut S,
    gate: &G,
) -> Report
    requires moment { IsMoment stamp.moment }
    requires apart { IsApart (asked_by asked) }
    ensures { ToldOf (F.tells folder.old) (S.tells out.new) (Rose (F.read_faults folder.old) (F.read_faults folder.new)) (Rose (F.write_faults folder.old) (F.write_faults folder.new)) (Rose (S.faults out.old) (S.faults out.new)) (F.file folder.old) (F.file folder.new) (S.text out.old) (S.text out.new) result.status result.kept stamp (asked_by asked.entry) }
{
    let told = answer(rt, alloc, asked, stamp, folder, out, gate);
    reported(told)
}

fn reported(told: Told) -> Report
    ensures status { result.status ≡ told.status }
    ensures kept { result.kept ≡ kept_when told.status told.verdict }
{
    let Told {
        status,
        verdict,
        witness: _witness,
    } = told;
    let kept = if status == 14 || status == 15 {
        Kept::Nothing
    } else {
        keep(verdict)
    };
    Report { status, kept }
}

fn keep(verdict: Verdict) -> Kept
    ensures { result ≡ kept_in verdict }
{
    match verdict {
        Verdict::Safe(text) => Kept::Safe(text),
        Verdict::Unsafe(_, _, values, _) => Kept::Unsafe(values),
        Verdict::Over(number, count) => Kept::Limited(number, count),
        _ => Kept::Nothing,
    }
}
