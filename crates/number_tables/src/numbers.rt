//! Operations and conversions of integers: the quick ones and those of the definitions, which agree.

ghost use Rattle.std.specs.Prelude.{◌≡◌};
ghost use Rattle.lv_base.specs.Integers.{is_promoted};

use lv_base::{ErrorKind, Kind, Model, Op};
use quick_integers::{arith, convert, greatest, in_range, least};
use std::alloc::Global;
use table_rows::{Fields, Flaw, Table, other_than};

// The kind of a word.
fn kind_in(word: &str) -> Result<Kind, Flaw> {
    match word {
        "bool" => Ok(Kind::Bool),
        "char" => Ok(Kind::Char),
        "uchar" => Ok(Kind::UChar),
        "short" => Ok(Kind::Short),
        "ushort" => Ok(Kind::UShort),
        "int" => Ok(Kind::Int),
        "uint" => Ok(Kind::UInt),
        "long" => Ok(Kind::Long),
        "ulong" => Ok(Kind::ULong),
        "llong" => Ok(Kind::LongLong),
        "ullong" => Ok(Kind::ULongLong),
        _ => Err(Flaw::Form),
    }
}

// The operation of a word.
fn op_in(word: &str) -> Result<Op, Flaw> {
    match word {
        "+" => Ok(Op::Add),
        "-" => Ok(Op::Sub),
        "*" => Ok(Op::Mul),
        "/" => Ok(Op::Div),
        "%" => Ok(Op::Rem),
        "<<" => Ok(Op::Shl),
        ">>" => Ok(Op::Shr),
        "&" => Ok(Op::And),
        "|" => Ok(Op::Or),
        "^" => Ok(Op::Xor),
        "<" => Ok(Op::Less),
        "<=" => Ok(Op::LessEqual),
        "==" => Ok(Op::Equal),
        _ => Err(Flaw::Form),
    }
}

fn promoted(kind: Kind) -> bool
    ensures { result ≡ is_promoted kind }
{
    matches!(
        kind,
        Kind::Int | Kind::UInt | Kind::Long | Kind::ULong | Kind::LongLong | Kind::ULongLong
    )
}

fn said(alloc: Global, outcome: Result<i128, ErrorKind>) -> Result<String, Flaw> {
    match outcome {
        Ok(value) => Ok(format!(in alloc; "{value}")?),
        Err(kind) => Ok(String::from_str(alloc, kind.name())?),
    }
}

// The quick operation and that of the definitions, where its operands meet its conditions.
fn both(
    op: Op,
    kind: Kind,
    model: Model,
    left: i128,
    right: i128,
) -> Option<(Result<i128, ErrorKind>, Result<i128, ErrorKind>)> {
    if promoted(kind) && in_range(kind, model, left) && in_range(kind, model, right) {
        let quick = arith(op, kind, model, left, right);
        Some((quick, lv_base::arith(op, kind, model, left, right)))
    } else {
        None
    }
}

// What both operations give, one behind the other where they differ.
fn both_said(
    alloc: Global,
    quick: Result<i128, ErrorKind>,
    slow: Result<i128, ErrorKind>,
) -> Result<String, Flaw> {
    if quick == slow {
        return said(alloc, quick);
    }
    let (quick, slow) = (said(alloc, quick)?, said(alloc, slow)?);
    let (quick, slow) = (quick.as_str(), slow.as_str());
    Ok(format!(in alloc; "{quick} and {slow}")?)
}

// What came of an operation, where it is another value or error.
fn arith_other(alloc: Global, mut columns: Fields<'_>) -> Result<Option<String>, Flaw> {
    let op = op_in(columns.next()?)?;
    let kind = kind_in(columns.next()?)?;
    let model = columns.model()?;
    let left = columns.number()?;
    let right = columns.number()?;
    let wanted = columns.next()?;
    columns.end()?;
    let (quick, slow) = both(op, kind, model, left, right).ok_or(Flaw::Form)?;
    let came = both_said(alloc, quick, slow)?;
    Ok(other_than(wanted, came))
}

// What came of a conversion, where it is another value.
fn convert_other(alloc: Global, mut columns: Fields<'_>) -> Result<Option<String>, Flaw> {
    let kind = kind_in(columns.next()?)?;
    let model = columns.model()?;
    let value = columns.number()?;
    let wanted = columns.number()?;
    columns.end()?;
    let quick = convert(value, kind, model);
    let slow = lv_base::convert(value, kind, model);
    if quick == wanted && slow == wanted {
        return Ok(None);
    }
    Ok(Some(format!(in alloc; "{quick} and {slow}")?))
}

// Whether a value is one of a kind, by both tests.
fn has(kind: Kind, model: Model, value: i128) -> (bool, bool) {
    (
        in_range(kind, model, value),
        lv_base::in_range(kind, model, value),
    )
}

// What came of the least and the greatest value of a kind, where they are others, or values beside them are judged wrongly.
fn range_other(alloc: Global, mut columns: Fields<'_>) -> Result<Option<String>, Flaw> {
    let kind = kind_in(columns.next()?)?;
    let model = columns.model()?;
    let low = columns.number()?;
    let high = columns.number()?;
    columns.end()?;
    let (from, to) = (least(kind, model), greatest(kind, model));
    let inside = has(kind, model, low) == (true, true) && has(kind, model, high) == (true, true);
    let below = has(kind, model, low.saturating_sub(1)) == (false, false);
    let above = has(kind, model, high.saturating_add(1)) == (false, false);
    if from as i128 == low && to as i128 == high && inside && below && above {
        return Ok(None);
    }
    Ok(Some(format!(in alloc; "{from} to {to}")?))
}

/// Rows of operations, of conversions and of the ends of kinds.
#[derive(Clone, Copy)]
pub(crate) struct IntegerRows;

impl Table for IntegerRows {
    fn other(&mut self, alloc: Global, row: &str) -> Result<Option<String>, Flaw> {
        let mut columns = Fields::columns(row);
        match columns.next()? {
            "arith" => arith_other(alloc, columns),
            "convert" => convert_other(alloc, columns),
            "range" => range_other(alloc, columns),
            _ => Err(Flaw::Form),
        }
    }
}
