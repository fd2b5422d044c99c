ghost use Rattle.std.specs.Prelude.{◌≡◌, ◌++◌, ◌∷◌, [], codes, IfOk, string_bytes};
ghost use Rattle.std.specs.Fmt.{decimal};

use c_parser::parse;
use c_rules::Examined;
use c_tokens::tokens_of;
use c_tree::Unit;
use elaboration_laws::sources_read;
use lv_base::{Memory, Model, SourceFail, Text, place_of};
use lv_outside::{FileFail, Folder, Got, Sink};
use request_words::{is_name, model_in, number_in};
use run_trace::{Trace, traced};
use slot_code::Ending;
use source_checks::accepted;
use std::alloc::Global;
use stored_text::{MOST_BYTES, StoredFail, read_run};
use trace_lines::{Scene, ending_lines, event_lines, paired};
use verdicts::{Values, Verdict};

// The longest source, in bytes.
const MOST_SOURCE: usize = 1_048_576;

// Most turns and events, and those where the words say nothing.
const MOST_TURNS: u64 = 1_000_000_000;

const TURNS: u64 = 10_000_000;

const MOST_EVENTS: u64 = 1_000_000;

const EVENTS: u64 = 1_000;

// What the words ask for: the source in one file, run on the values in another one, with so many turns, told by its last events.
#[derive(Clone, Copy)]
struct Wanted<'a> {
    source: &'a str,
    run: &'a str,
    model: Model,
    turns: u64,
    events: u64,
}

// What the words gave so far.
#[derive(Clone, Copy)]
struct Given<'a> {
    source: Option<&'a str>,
    run: Option<&'a str>,
    model: Option<Model>,
    turns: Option<u64>,
    events: Option<u64>,
}

// An option gets its value, once.
fn once<T: Copy>(slot: &mut Option<T>, value: Option<T>) -> Option<()> {
    if slot.is_some() || value.is_none() {
        return None;
    }
    *slot = value;
    Some(())
}

// An option with its value.
fn choose(given: &mut Given<'_>, name: &str, value: &[u8]) -> Option<()> {
    match name {
        "--model" => once(&mut given.model, model_in(value)),
        "--turns" => once(&mut given.turns, number_in(value, MOST_TURNS)),
        "--last" => once(&mut given.events, number_in(value, MOST_EVENTS)),
        _ => None,
    }
}

// A positional word: first the source, then the run file, and no third.
fn name<'a>(given: &mut Given<'a>, word: &'a str) -> Option<()> {
    if !is_name(word) || given.run.is_some() {
        return None;
    }
    if given.source.is_some() {
        given.run = Some(word);
    } else {
        given.source = Some(word);
    }
    Some(())
}

// What the words give, an option as `--name value` in two words or as `--name=value` in one.
fn gathered<'a>(words: &[&'a str]) -> Option<Given<'a>> {
    let mut given = Given {
        source: None,
        run: None,
        model: None,
        turns: None,
        events: None,
    };
    let mut awaited: Option<&str> = None;
    for word in words {
        match (awaited, word.split_once("=")) {
            (Some(option), _) => {
                choose(&mut given, option, word.as_bytes())?;
                awaited = None;
            }
            (None, Some((option, value))) if option.starts_with("--") => {
                choose(&mut given, option, value.as_bytes())?;
            }
            (None, _) if word.starts_with("--") => awaited = Some(*word),
            (None, _) => name(&mut given, word)?,
        }
    }
    if awaited.is_some() {
        return None;
    }
    Some(given)
}

// What the words ask for: two names, and options in any order; none where they ask for nothing.
fn request<'a>(words: &[&'a str]) -> Option<Wanted<'a>> {
    let given = gathered(words)?;
    Some(Wanted {
        source: given.source?,
        run: given.run?,
        model: given.model.unwrap_or(Model::Ilp32),
        turns: given.turns.unwrap_or(TURNS),
        events: given.events.unwrap_or(EVENTS),
    })
}

// The last line: what `lazic replay` answers to the same source, run file and options.
#[derive(Drop)]
enum Answer {
    Ended,
    // The run asked for one more turn than these.
    OutOfTurns(u64),
    NeedsMore,
    // The value of this number, from 0, is not one of the type that was drawn.
    BadValue(usize),
    // The run file is none, by the offset of the first byte at which no run file goes on.
    BadRun(u64),
    // The words ask for nothing.
    Usage,
    // What is answered to a verification too: an error, a refused source, a limit, a file that can't be read, want of memory.
    Told(Verdict),
}

fn counted(alloc: Global, front: &str, number: u64) -> Result<String, Memory>
    ensures { IfOk result (λ s. string_bytes s ≡ front.now ++ (decimal number ++ 10 ∷ [])) }
{
    Ok(format!(in alloc; "{front}{number}\n")?)
}

// The status that goes with an answer whose line was printed.
fn status(answer: &Answer) -> u8 {
    match answer {
        Answer::Ended => 0,
        Answer::OutOfTurns(_) => 2,
        Answer::NeedsMore => 4,
        Answer::BadValue(_) => 5,
        Answer::BadRun(_) => 6,
        Answer::Usage => 10,
        Answer::Told(verdict) => verdicts::status(verdict),
    }
}

// The line of an answer.
//
// Fails with `Memory`.
fn line(alloc: Global, answer: &Answer) -> Result<String, Memory> {
    match answer {
        Answer::Ended => Ok(String::from_str(alloc, "ENDED\n")?),
        Answer::OutOfTurns(turns) => counted(alloc, "UNKNOWN turns ", *turns),
        Answer::NeedsMore => Ok(String::from_str(alloc, "NEEDS MORE\n")?),
        Answer::BadValue(number) => counted(alloc, "BAD VALUE ", *number as u64),
        Answer::BadRun(at) => counted(alloc, "BAD RUN FILE byte ", *at),
        Answer::Usage => Ok(String::from_str(alloc, "USAGE\n")?),
        Answer::Told(verdict) => verdicts::line(alloc, verdict),
    }
}

// What is answered to a source that is refused.
fn refused(source: &[u8], fail: SourceFail) -> Answer {
    match fail {
        SourceFail::Fault(fault, at) if source.len() <= MOST_SOURCE => {
            let offset = (at as usize).min(source.len());
            Answer::Told(Verdict::Faulty(fault, place_of(source, offset)))
        }
        SourceFail::Fault(_, _) => Answer::Told(Verdict::Over(1, 1_048_577)),
        SourceFail::Over(number, count) => Answer::Told(Verdict::Over(number, count)),
        SourceFail::Memory => Answer::Told(Verdict::NoMemory),
    }
}

// What is answered to an ending on these values, with so many turns.
fn told(alloc: Global, source: &[u8], turns: u64, values: Vec<i128>, ending: Ending) -> Answer {
    match ending {
        Ending::Error(kind, at, drawn) if source.len() <= MOST_SOURCE => {
            let place = place_of(source, (at as usize).min(source.len()));
            let values = Values::new(values).first(drawn);
            Answer::Told(Verdict::Unsafe(kind, place, values, Text::new(Vec::new(alloc))))
        }
        Ending::Error(_, _, _) => Answer::Told(Verdict::Over(1, 1_048_577)),
        Ending::Ended => Answer::Ended,
        Ending::NoInput => Answer::NeedsMore,
        Ending::BadInput(number) => Answer::BadValue(number),
        Ending::Spent => Answer::OutOfTurns(turns),
    }
}

// Most turns, and how many events are told.
#[derive(Clone, Copy)]
struct Terms {
    turns: u64,
    events: usize,
}

// A source with its tree and its typed tree.
#[derive(Clone, Copy)]
struct Program<'a> {
    source: &'a [u8],
    unit: &'a Unit,
    examined: &'a Examined,
}

// The source's tree, and its typed tree where it breaks no rule and passes no limit.
//
// Fails with the first rule that is broken or limit that is passed, or with `Memory`.
fn read(alloc: Global, source: &[u8], model: Model) -> Result<(Unit, Examined), SourceFail> {
    sources_read();
    let tokens = tokens_of(alloc, source)?;
    let unit = parse(alloc, &tokens)?;
    let examined = accepted(alloc, &unit, model)?;
    Ok((unit, examined))
}

// Puts the lines of a run behind a text.
fn tell(
    alloc: Global,
    program: Program<'_>,
    trace: &Trace,
    values: &[i128],
    text: &mut String,
) -> Result<(), Memory> {
    let typed = program.examined.typed();
    let sites = paired(alloc, program.unit, typed.functions(), &trace.code)?;
    let scene = Scene {
        alloc,
        source: program.source,
        objects: typed.objects(),
        functions: typed.functions(),
        code: &trace.code,
        sites: &sites,
    };
    event_lines(&scene, &trace.trail.log, text)?;
    ending_lines(&scene, trace.ending, &trace.trail, values, text)
}

// The answer to a run on these values, behind the lines of the run.
fn run_told(
    alloc: Global,
    program: Program<'_>,
    values: Vec<i128>,
    terms: Terms,
    text: &mut String,
) -> Result<Answer, Memory> {
    let trace = traced(alloc, program.examined, &values, terms.turns, terms.events)?;
    tell(alloc, program, &trace, &values, text)?;
    Ok(told(alloc, program.source, terms.turns, values, trace.ending))
}

// The answer to a run file, behind the lines of the run.
//
// Fails with `Memory`.
fn traced_text(
    alloc: Global,
    program: Program<'_>,
    run: &[u8],
    terms: Terms,
    text: &mut String,
) -> Result<Answer, Memory> {
    match read_run(alloc, run) {
        Ok(values) => run_told(alloc, program, values, terms, text),
        Err(StoredFail::Format(at)) => Ok(Answer::BadRun(at)),
        Err(StoredFail::Over(number, count)) => Ok(Answer::Told(Verdict::Over(number, count))),
        Err(StoredFail::Memory) => Err(Memory),
    }
}

// The status where memory is wanting, and where the text could not be put.
const NO_MEMORY: u8 = 15;

const PRINT_FAULT: u8 = 14;

// The bytes of a file, or what is answered where there are none.
fn loaded<F: Folder>(
    alloc: Global,
    folder: &mut F,
    name: &str,
    most: usize,
    limit: u8,
) -> Result<Vec<u8>, Answer> {
    match folder.read(alloc, name, most) {
        Ok(Got::Bytes(bytes)) => Ok(bytes),
        Ok(Got::Longer) => Err(Answer::Told(Verdict::Over(limit, (most as u64).saturating_add(1)))),
        Err(FileFail::Failed) => Err(Answer::Told(Verdict::ReadFault)),
        Err(FileFail::Memory) => Err(Answer::Told(Verdict::NoMemory)),
    }
}

// The answer to what the words want, behind the lines of the run. The run file is read only where nothing refuses the source.
fn decide<F: Folder>(
    alloc: Global,
    wanted: Wanted<'_>,
    folder: &mut F,
    text: &mut String,
) -> Result<Answer, Memory> {
    let source = match loaded(alloc, folder, wanted.source, MOST_SOURCE, 1) {
        Ok(source) => source,
        Err(answer) => return Ok(answer),
    };
    let (unit, examined) = match read(alloc, &source, wanted.model) {
        Ok(trees) => trees,
        Err(fail) => return Ok(refused(&source, fail)),
    };
    let run = match loaded(alloc, folder, wanted.run, MOST_BYTES, 9) {
        Ok(run) => run,
        Err(answer) => return Ok(answer),
    };
    let program = Program {
        source: &source,
        unit: &unit,
        examined: &examined,
    };
    let terms = Terms {
        turns: wanted.turns,
        events: usize::try_from(wanted.events).unwrap_or(1),
    };
    traced_text(alloc, program, &run, terms, text)
}

// The text to the words, with the status that goes with it.
fn answered<F: Folder>(
    alloc: Global,
    words: &[&str],
    folder: &mut F,
    text: &mut String,
) -> Result<u8, Memory> {
    let answer = match request(words) {
        Some(wanted) => decide(alloc, wanted, folder, text)?,
        None => Answer::Usage,
    };
    text.push_str(line(alloc, &answer)?.as_str())?;
    Ok(status(&answer))
}

/// Answers the words over these files: puts the lines of the run, and at the end the line that `lazic replay` prints to the same
/// source, run file, data model and turns. Gives the status of that line: that of want of memory, or of a put that failed, where one of
/// these comes.
pub fn trace_words<F: Folder, S: Sink>(
    alloc: Global,
    words: &[&str],
    folder: &mut F,
    out: &mut S,
) -> u8 {
    let mut text = String::new(alloc);
    let (put, status) = match answered(alloc, words, folder, &mut text) {
        Ok(status) => (out.put(text.as_bytes()), status),
        Err(_) => (out.put(b"NO MEMORY\n"), NO_MEMORY),
    };
    match put {
        Ok(()) => status,
        Err(_) => PRINT_FAULT,
    }
}
