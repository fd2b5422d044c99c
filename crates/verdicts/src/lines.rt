ghost use Rattle.std.specs.Prelude.{◌≡◌, ◌++◌, ◌∷◌, [], codes, IfOk, string_bytes};
ghost use Rattle.std.specs.Fmt.{decimal};
ghost use Rattle.lv_base.specs.Names.{error_name, fault_number, fault_name};
ghost use Rattle.verdicts.specs.Lines.{place_text, seed_text, seeded_text, tells_seed, text_of};

use crate::rejection::rejection_line;
use crate::verdict::Verdict;
use lv_base::{ErrorKind, Memory, Place, SourceFault};
use std::alloc::Global;

/// The line of an answer.
pub fn line(alloc: Global, verdict: &Verdict) -> Result<String, Memory>
    ensures { IfOk result (λ s. string_bytes s ≡ text_of verdict.now) }
{
    let text = match verdict {
        Verdict::Safe(_) => String::from_str(alloc, "SAFE\n")?,
        Verdict::Unsafe(kind, place, _, _) => unsafe_line(alloc, *kind, *place)?,
        Verdict::OutOfUnits(units) => counted(alloc, "UNKNOWN units ", *units)?,
        Verdict::OutOfLearn(learn) => counted(alloc, "UNKNOWN learn ", *learn)?,
        Verdict::Accepted => String::from_str(alloc, "ACCEPTED\n")?,
        Verdict::Rejected(rejection) => rejection_line(alloc, rejection)?,
        Verdict::Faulty(fault, place) => fault_line(alloc, *fault, *place)?,
        Verdict::Over(number, _) => counted(alloc, "LIMIT ", *number as u64)?,
        Verdict::ReadFault => String::from_str(alloc, "READ FAULT\n")?,
        Verdict::NoMemory => String::from_str(alloc, "NO MEMORY\n")?,
    };
    Ok(text)
}

/// The lines of the answer to the source of a seed, which has so many blocks.
pub fn seeded_lines(
    alloc: Global,
    verdict: &Verdict,
    seed: u32,
    blocks: u32,
) -> Result<String, Memory>
    ensures { IfOk result (λ s. string_bytes s ≡ seeded_text seed blocks verdict.now) }
{
    let mut text = line(alloc, verdict)?;
    if tells(verdict) {
        push_seed(&mut text, seed, blocks)?;
    }
    Ok(text)
}

// Whether the answer is SAFE, UNSAFE or UNKNOWN.
fn tells(verdict: &Verdict) -> bool
    ensures { result ≡ tells_seed verdict.now }
{
    match verdict {
        Verdict::Safe(_) => true,
        Verdict::Unsafe(_, _, _, _) => true,
        Verdict::OutOfUnits(_) => true,
        Verdict::OutOfLearn(_) => true,
        Verdict::Accepted => false,
        Verdict::Rejected(_) => false,
        Verdict::Faulty(_, _) => false,
        Verdict::Over(_, _) => false,
        Verdict::ReadFault => false,
        Verdict::NoMemory => false,
    }
}

fn push_seed(text: &mut String, seed: u32, blocks: u32) -> Result<(), Memory>
    ensures { IfOk result (λ _. string_bytes text.new ≡ string_bytes text.old ++ seed_text seed blocks) }
{
    writeln!(text, "SEED {seed} BLOCKS {blocks}")?;
    Ok(())
}

fn counted(alloc: Global, front: &str, number: u64) -> Result<String, Memory>
    ensures { IfOk result (λ s. string_bytes s ≡ front.now ++ (decimal number ++ 10 ∷ [])) }
{
    Ok(format!(in alloc; "{front}{number}\n")?)
}

fn unsafe_line(alloc: Global, kind: ErrorKind, place: Place) -> Result<String, Memory>
    ensures { IfOk result (λ s. string_bytes s ≡ codes "UNSAFE " ++ (error_name kind ++ (codes " at " ++ place_text place))) }
{
    let name = kind.name();
    let (line, column) = (place.line, place.column);
    Ok(format!(in alloc; "UNSAFE {name} at {line}:{column}\n")?)
}

fn fault_line(alloc: Global, fault: SourceFault, place: Place) -> Result<String, Memory>
    ensures { IfOk result (λ s. string_bytes s ≡ codes "SOURCE FAULT " ++ (decimal (fault_number fault) ++ (codes " " ++ (fault_name fault ++ (codes " at " ++ place_text place))))) }
{
    let (number, name) = (fault.number(), fault.name());
    let (line, column) = (place.line, place.column);
    Ok(format!(in alloc; "SOURCE FAULT {number} {name} at {line}:{column}\n")?)
}
