ghost use Rattle.std.specs.Prelude.{◌≡◌, [], if◌then◌else◌};
ghost use Rattle.c_run.specs.Breaking as b;
ghost use Rattle.c_meaning.specs.Rules as rules;
ghost use Rattle.first_broken.specs.Found as found;
ghost use Rattle.first_broken.specs.Seen as seen;

use lv_base::SourceFault;

/// A rule that is broken at an offset.
#[derive(Clone, Copy, Debug, PartialEq, Eq)]
pub struct Broken {
    pub fault: SourceFault,
    pub at: u32,
}

/// What is known of some lines: the first by offset, then by number, of those that are broken, and whether one of names,
/// types, calls or constants is among them.
#[derive(Clone, Copy, Debug, PartialEq, Eq)]
pub struct Found {
    pub least: Option<Broken>,
    pub blocks: bool,
}

fn is_typing(fault: SourceFault) -> bool
    ensures { result ≡ rules.is_typing fault }
{
    match fault {
        SourceFault::UnknownName => true,
        SourceFault::Redeclared => true,
        SourceFault::NotScalar => true,
        SourceFault::WrongCall => true,
        SourceFault::NotConstant => true,
        SourceFault::BadByte => false,
        SourceFault::Unclosed => false,
        SourceFault::Directive => false,
        SourceFault::BadNumber => false,
        SourceFault::Syntax => false,
        SourceFault::Label => false,
        SourceFault::JumpIntoScope => false,
        SourceFault::Unsequenced => false,
        SourceFault::Recursion => false,
        SourceFault::NoMain => false,
        SourceFault::Unsupported => false,
        SourceFault::ConstWritten => false,
        SourceFault::DuplicateCase => false,
        SourceFault::BadJump => false,
    }
}

fn is_before(x: Broken, y: Broken) -> bool
    ensures { result ≡ b.is_before (seen.broken_of x) (seen.broken_of y) }
{
    if x.at == y.at {
        x.fault.number() < y.fault.number()
    } else {
        x.at < y.at
    }
}

/// No line is broken.
pub fn none() -> Found
    ensures { seen.found_of result ≡ found.summary [] }
{
    Found {
        least: None,
        blocks: false,
    }
}

/// A line that is broken where its test holds.
pub fn line(test: bool, fault: SourceFault, at: u32) -> Found
    ensures { seen.found_of result ≡ found.summary (b.line test fault at) }
{
    if test {
        Found {
            least: Some(Broken { fault, at }),
            blocks: is_typing(fault),
        }
    } else {
        none()
    }
}

fn earlier(x: Option<Broken>, y: Option<Broken>) -> Option<Broken>
    ensures { seen.option_of result ≡ found.earlier (seen.option_of x) (seen.option_of y) }
{
    match x {
        None => y,
        Some(x) => match y {
            None => Some(x),
            Some(y) => { if is_before(y, x) { Some(y) } else { Some(x) } }
        },
    }
}

/// The lines of two parts, one behind the other.
pub fn both(x: Found, y: Found) -> Found
    ensures { seen.found_of result ≡ found.both (seen.found_of x) (seen.found_of y) }
{
    Found {
        least: earlier(x.least, y.least),
        blocks: if x.blocks { true } else { y.blocks },
    }
}

/// Lines that are tried only where their parts break no rule of names, types, calls and constants.
pub fn unless(parts: Found, lines: Found) -> Found
    ensures { seen.found_of result ≡ found.unless_found (seen.found_of parts) (seen.found_of lines) }
{
    if parts.blocks {
        parts
    } else {
        both(parts, lines)
    }
}
