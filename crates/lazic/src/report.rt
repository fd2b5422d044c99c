ghost use Rattle.std.specs.Prelude.{◌≡◌, ◌≢◌, ◌⊎◌, ◌++◌, ◌==◌, if◌then◌else◌};
ghost use Rattle.lv_outside.specs.Bytes.{GrewByFront};
ghost use Rattle.lv_outside.specs.Counts.{Rose};
ghost use Rattle.lazic.specs.Outcome.{status_of, text_of};
ghost use Rattle.lazic.specs.Report.{kept_of};

use crate::outcome::{Outcome, line, status};
use lv_base::Text;
use lv_outside::Sink;
use std::alloc::Global;
use verdicts::Values;

/// What an answer keeps: the text of a certificate that makes a source safe, the values of a run that reached an error, or a limit's
/// number and the count that passed it.
#[derive(Drop)]
pub enum Kept {
    Nothing,
    Safe(Text),
    Unsafe(Values),
    Limited(u8, u64),
}

#[derive(Drop)]
pub struct Report {
    pub status: u8,
    pub kept: Kept,
}

const NO_MEMORY: &[u8; 10] = b"NO MEMORY\n";

/// Prints the line of an answer.
pub fn print<S: Sink>(alloc: Global, outcome: Outcome, out: &mut S) -> Report
    ensures status { (result.status ≡ 14) ⊎ ((result.status ≡ 15) ⊎ ((result.status ≡ status_of outcome) × (result.kept ≡ kept_of outcome))) }
    ensures free { (result.status ≡ 14) ⊎ (result.status ≡ 15) → result.kept ≡ Kept.Nothing }
    ensures fault { result.status ≡ 14 → Rose (S.faults out.old) (S.faults out.new) }
    ensures printed { S.tells out.new → result.status ≢ 14 → S.text out.new ≡ S.text out.old ++ (if result.status == 15 then text_of Outcome.NoMemory else text_of outcome) }
    ensures cut { S.tells out.new → result.status ≡ 14 → GrewByFront (S.text out.old) (S.text out.new) (text_of outcome) ⊎ GrewByFront (S.text out.old) (S.text out.new) (text_of Outcome.NoMemory) }
{
    match line(alloc, &outcome) {
        Ok(text) => match out.put(text.as_bytes()) {
            Ok(()) => Report {
                status: status(&outcome),
                kept: keep(outcome),
            },
            Err(_) => Report {
                status: 14,
                kept: Kept::Nothing,
            },
        },
        Err(_) => no_memory(out),
    }
}

/// Prints that memory ran out. The status is 15, or 14 where the line could not be put.
pub fn no_memory<S: Sink>(out: &mut S) -> Report
    ensures status { (result.status ≡ 14) ⊎ (result.status ≡ 15) }
    ensures kept { result.kept ≡ Kept.Nothing }
    ensures fault { result.status ≡ 14 → Rose (S.faults out.old) (S.faults out.new) }
    ensures printed { S.tells out.new → result.status ≢ 14 → S.text out.new ≡ S.text out.old ++ text_of Outcome.NoMemory }
    ensures cut { S.tells out.new → result.status ≡ 14 → GrewByFront (S.text out.old) (S.text out.new) (text_of Outcome.NoMemory) }
{
    match out.put(NO_MEMORY) {
        Ok(()) => Report {
            status: 15,
            kept: Kept::Nothing,
        },
        Err(_) => Report {
            status: 14,
            kept: Kept::Nothing,
        },
    }
}

fn keep(outcome: Outcome) -> Kept
    ensures { result ≡ kept_of outcome }
{
    match outcome {
        Outcome::Reached(_, _, values) => Kept::Unsafe(values),
        Outcome::Over(number, count) => Kept::Limited(number, count),
        _ => Kept::Nothing,
    }
}
