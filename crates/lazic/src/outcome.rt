ghost use Rattle.std.specs.Prelude.{◌≡◌, ◌++◌, ◌∷◌, [], codes, IfOk, string_bytes};
ghost use Rattle.std.specs.Fmt.{decimal};
ghost use Rattle.lv_base.specs.Names.{error_name, fault_number, fault_name};
ghost use Rattle.lazic.specs.Outcome.{status_of, text_of, place_text};

use lv_base::{ErrorKind, Memory, Place, SourceFault};
use std::alloc::Global;
use verdicts::Values;

/// What the program answers to its words, with all that its line and its report say.
#[derive(Drop)]
pub enum Outcome {
    /// The run ended without an error.
    Ended,
    /// The run reached an error of this kind at this place, having drawn these values.
    Reached(ErrorKind, Place, Values),
    /// The run asked for one more turn than these.
    OutOfTurns(u64),
    /// The run asked for a value more than there are.
    NeedsMore,
    /// The value of this number, from 0, is not one of the type that was drawn.
    BadValue(usize),
    /// The run file is none, by the offset of the first byte at which no run file goes on.
    BadRun(u64),
    /// The words ask for nothing.
    Usage,
    /// The source is refused for this fault.
    Faulty(SourceFault, Place),
    /// A limit was passed, by its number, with the count.
    Over(u8, u64),
    /// A file could not be read.
    ReadFault,
    NoMemory,
}

/// The status that goes with an answer whose line was printed.
pub fn status(outcome: &Outcome) -> u8
    ensures { result ≡ status_of outcome.now }
{
    match outcome {
        Outcome::Ended => 0,
        Outcome::Reached(_, _, _) => 1,
        Outcome::OutOfTurns(_) => 2,
        Outcome::NeedsMore => 4,
        Outcome::BadValue(_) => 5,
        Outcome::BadRun(_) => 6,
        Outcome::Usage => 10,
        Outcome::Faulty(_, _) => 11,
        Outcome::Over(_, _) => 12,
        Outcome::ReadFault => 13,
        Outcome::NoMemory => 15,
    }
}

/// The line of an answer.
pub fn line(alloc: Global, outcome: &Outcome) -> Result<String, Memory>
    ensures { IfOk result (λ s. string_bytes s ≡ text_of outcome.now) }
{
    let text = match outcome {
        Outcome::Ended => String::from_str(alloc, "ENDED\n")?,
        Outcome::Reached(kind, place, _) => reached(alloc, *kind, *place)?,
        Outcome::OutOfTurns(turns) => out_of_turns(alloc, *turns)?,
        Outcome::NeedsMore => String::from_str(alloc, "NEEDS MORE\n")?,
        Outcome::BadValue(i) => bad_value(alloc, *i)?,
        Outcome::BadRun(at) => bad_run(alloc, *at)?,
        Outcome::Usage => String::from_str(alloc, "USAGE\n")?,
        Outcome::Faulty(fault, place) => faulty(alloc, *fault, *place)?,
        Outcome::Over(number, _) => over(alloc, *number)?,
        Outcome::ReadFault => String::from_str(alloc, "READ FAULT\n")?,
        Outcome::NoMemory => String::from_str(alloc, "NO MEMORY\n")?,
    };
    Ok(text)
}

fn reached(alloc: Global, kind: ErrorKind, place: Place) -> Result<String, Memory>
    ensures { IfOk result (λ s. string_bytes s ≡ codes "UNSAFE " ++ (error_name kind ++ (codes " at " ++ place_text place))) }
{
    let name = kind.name();
    let (line, column) = (place.line, place.column);
    Ok(format!(in alloc; "UNSAFE {name} at {line}:{column}\n")?)
}

fn out_of_turns(alloc: Global, turns: u64) -> Result<String, Memory>
    ensures { IfOk result (λ s. string_bytes s ≡ codes "UNKNOWN turns " ++ (decimal turns ++ 10 ∷ [])) }
{
    Ok(format!(in alloc; "UNKNOWN turns {turns}\n")?)
}

fn bad_run(alloc: Global, at: u64) -> Result<String, Memory>
    ensures { IfOk result (λ s. string_bytes s ≡ codes "BAD RUN FILE byte " ++ (decimal at ++ 10 ∷ [])) }
{
    Ok(format!(in alloc; "BAD RUN FILE byte {at}\n")?)
}

fn faulty(alloc: Global, fault: SourceFault, place: Place) -> Result<String, Memory>
    ensures { IfOk result (λ s. string_bytes s ≡ codes "SOURCE FAULT " ++ (decimal (fault_number fault) ++ (codes " " ++ (fault_name fault ++ (codes " at " ++ place_text place))))) }
{
    let (number, name) = (fault.number(), fault.name());
    let (line, column) = (place.line, place.column);
    Ok(format!(in alloc; "SOURCE FAULT {number} {name} at {line}:{column}\n")?)
}

fn bad_value(alloc: Global, i: usize) -> Result<String, Memory>
    ensures { IfOk result (λ s. string_bytes s ≡ codes "BAD VALUE " ++ (decimal i ++ 10 ∷ [])) }
{
    Ok(format!(in alloc; "BAD VALUE {i}\n")?)
}

fn over(alloc: Global, number: u8) -> Result<String, Memory>
    ensures { IfOk result (λ s. string_bytes s ≡ codes "LIMIT " ++ (decimal number ++ 10 ∷ [])) }
{
    Ok(format!(in alloc; "LIMIT {number}\n")?)
}
