ghost use Rattle.std.specs.Prelude.{◌≡◌, ◌≢◌, ◌⊎◌, ◌++◌, ◌==◌, if◌then◌else◌, IfOk, string_bytes};
ghost use Rattle.lv_outside.specs.Bytes.{GrewByFront};
ghost use Rattle.lv_outside.specs.Counts.{Rose};
ghost use Rattle.request_words.specs.Views.{asked_by};
ghost use Rattle.verdicts.specs.Lines.{status_of, text_of};
ghost use Rattle.request_answers.specs.Printed.{text_for};

use lv_base::Memory;
use lv_outside::Sink;
use request_words::Asked;
use std::alloc::Global;
use task_gen::blocks;
use verdicts::{Verdict, line, seeded_lines, status};

const NO_MEMORY: &[u8; 10] = b"NO MEMORY\n";

/// Prints the line of an answer, and that of a seed behind it; answers the status.
pub(crate) fn print<S: Sink>(alloc: Global, asked: Asked<'_>, verdict: &Verdict, out: &mut S) -> u8
    ensures status { (result ≡ 14) ⊎ ((result ≡ 15) ⊎ (result ≡ status_of verdict.now)) }
    ensures fault { result ≡ 14 → Rose (S.faults out.old) (S.faults out.new) }
    ensures printed { S.tells out.new → result ≢ 14 → S.text out.new ≡ S.text out.old ++ (if result == 15 then text_of Verdict.NoMemory else text_for (asked_by asked.entry) verdict.now) }
    ensures cut { S.tells out.new → result ≡ 14 → GrewByFront (S.text out.old) (S.text out.new) (text_for (asked_by asked.entry) verdict.now) ⊎ GrewByFront (S.text out.old) (S.text out.new) (text_of Verdict.NoMemory) }
{
    match lines(alloc, asked, verdict) {
        Ok(text) => match out.put(text.as_bytes()) {
            Ok(()) => status(verdict),
            Err(_) => 14,
        },
        Err(_) => no_memory(out),
    }
}

fn lines(alloc: Global, asked: Asked<'_>, verdict: &Verdict) -> Result<String, Memory>
    ensures { IfOk result (λ s. string_bytes s ≡ text_for (asked_by asked.entry) verdict.now) }
{
    match asked {
        Asked::Check(_) | Asked::Verify(_) => line(alloc, verdict),
        Asked::Generate(seed) => seeded_lines(alloc, verdict, seed, blocks(seed)),
    }
}

/// Prints that memory ran out.
pub(crate) fn no_memory<S: Sink>(out: &mut S) -> u8
    ensures status { (result ≡ 14) ⊎ (result ≡ 15) }
    ensures fault { result ≡ 14 → Rose (S.faults out.old) (S.faults out.new) }
    ensures printed { S.tells out.new → result ≢ 14 → S.text out.new ≡ S.text out.old ++ text_of Verdict.NoMemory }
    ensures cut { S.tells out.new → result ≡ 14 → GrewByFront (S.text out.old) (S.text out.new) (text_of Verdict.NoMemory) }
{
    match out.put(NO_MEMORY) {
        Ok(()) => 15,
        Err(_) => 14,
    }
}
