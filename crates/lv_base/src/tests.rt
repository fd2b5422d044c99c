ghost use Rattle.std.specs.Prelude.{◌≡◌, IsTrue};
ghost use Rattle.lv_base.specs.Integers.{is_promoted};

use crate::{
    ErrorKind, Kind, Memory, Model, Op, Place, SourceFail, SourceFault, Text, arith, convert,
    in_range, place_of, width,
};
use std::process::Abort;
use std::test::Fail;

const MODELS: [Model; 2] = [Model::Ilp32, Model::Lp64];

// Each kind with its bits in the two models.
const WIDTHS: [(Kind, u32, u32); 11] = [
    (Kind::Bool, 1, 1),
    (Kind::Char, 8, 8),
    (Kind::UChar, 8, 8),
    (Kind::Short, 16, 16),
    (Kind::UShort, 16, 16),
    (Kind::Int, 32, 32),
    (Kind::UInt, 32, 32),
    (Kind::Long, 32, 64),
    (Kind::ULong, 32, 64),
    (Kind::LongLong, 64, 64),
    (Kind::ULongLong, 64, 64),
];

#[test]
fn widths_are_those_of_the_data_models(rt: HostRuntime) {
    for (kind, ilp32, lp64) in &WIDTHS {
        assert_eq!(rt; width(*kind, Model::Ilp32), *ilp32);
        assert_eq!(rt; width(*kind, Model::Lp64), *lp64);
    }
}

// Each kind of one width in both models, with its least and its greatest value.
const RANGES: [(Kind, i128, i128); 9] = [
    (Kind::Bool, 0, 1),
    (Kind::Char, -128, 127),
    (Kind::UChar, 0, 255),
    (Kind::Short, -32768, 32767),
    (Kind::UShort, 0, 65535),
    (Kind::Int, -2147483648, 2147483647),
    (Kind::UInt, 0, 4294967295),
    (Kind::LongLong, -9223372036854775808, 9223372036854775807),
    (Kind::ULongLong, 0, 18446744073709551615),
];

// The kind of the data model's `long` that is as wide as this one, if there is one.
fn long_like(kind: Kind, model: Model) -> Option<Kind> {
    match (kind, model) {
        (Kind::Int, Model::Ilp32) | (Kind::LongLong, Model::Lp64) => Some(Kind::Long),
        (Kind::UInt, Model::Ilp32) | (Kind::ULongLong, Model::Lp64) => Some(Kind::ULong),
        _ => None,
    }
}

fn ends_at(rt: &impl Abort, kind: Kind, model: Model, least: i128, greatest: i128) {
    let (below, above) = (least.saturating_sub(1), greatest.saturating_add(1));
    assert!(rt; in_range(kind, model, least) && in_range(kind, model, greatest));
    assert!(rt; !in_range(kind, model, below) && !in_range(kind, model, above));
    assert_eq!(rt; convert(least, kind, model), least);
    assert_eq!(rt; convert(greatest, kind, model), greatest);
    if kind != Kind::Bool {
        assert_eq!(rt; convert(below, kind, model), greatest);
        assert_eq!(rt; convert(above, kind, model), least);
    }
}

#[test]
fn ranges_end_at_their_limits(rt: HostRuntime) {
    for (kind, least, greatest) in &RANGES {
        for model in &MODELS {
            ends_at(&rt, *kind, *model, *least, *greatest);
            if let Some(long) = long_like(*kind, *model) {
                ends_at(&rt, long, *model, *least, *greatest);
            }
        }
    }
}

// A value, the kind that it is converted to, and what is left of it.
const CONVERSIONS: [(i128, Kind, i128); 22] = [
    (2, Kind::Bool, 1),
    (256, Kind::Bool, 1),
    (0, Kind::Bool, 0),
    (-1, Kind::Bool, 1),
    (127, Kind::Char, 127),
    (128, Kind::Char, -128),
    (-129, Kind::Char, 127),
    (255, Kind::Char, -1),
    (256, Kind::UChar, 0),
    (-1, Kind::UChar, 255),
    (32768, Kind::Short, -32768),
    (-32769, Kind::Short, 32767),
    (65536, Kind::UShort, 0),
    (2147483647, Kind::Int, 2147483647),
    (2147483648, Kind::Int, -2147483648),
    (-2147483649, Kind::Int, 2147483647),
    (-1, Kind::UInt, 4294967295),
    (4294967296, Kind::UInt, 0),
    (9223372036854775808, Kind::LongLong, -9223372036854775808),
    (-1, Kind::ULongLong, 18446744073709551615),
    (18446744073709551616, Kind::ULongLong, 0),
    (-9223372036854775809, Kind::LongLong, 9223372036854775807),
];

#[test]
fn conversions_keep_the_low_bits(rt: HostRuntime) {
    for (value, to, left) in &CONVERSIONS {
        for model in &MODELS {
            assert_eq!(rt; convert(*value, *to, *model), *left);
        }
    }
    assert_eq!(rt; convert(2147483648, Kind::Long, Model::Ilp32), -2147483648);
    assert_eq!(rt; convert(2147483648, Kind::Long, Model::Lp64), 2147483648);
    assert_eq!(rt; convert(-1, Kind::ULong, Model::Ilp32), 4294967295);
    assert_eq!(rt; convert(-1, Kind::ULong, Model::Lp64), 18446744073709551615);
}

// An operation in a kind of one width in both models, its operands, and what comes of it: the limits of each kind, and
// C11's own examples of quotients and shifts.
const OPERATIONS: [(Op, Kind, i128, i128, Result<i128, ErrorKind>); 120] = [
    (Op::Add, Kind::Int, 2147483647, 0, Ok(2147483647)),
    (Op::Add, Kind::Int, 2147483647, 1, Err(ErrorKind::Overflow)),
    (
        Op::Add,
        Kind::Int,
        -2147483648,
        -1,
        Err(ErrorKind::Overflow),
    ),
    (Op::Add, Kind::Int, -2147483648, 2147483647, Ok(-1)),
    (Op::Sub, Kind::Int, -2147483648, 1, Err(ErrorKind::Overflow)),
    (Op::Sub, Kind::Int, 0, -2147483648, Err(ErrorKind::Overflow)),
    (Op::Sub, Kind::Int, -1, -2147483648, Ok(2147483647)),
    (Op::Sub, Kind::Int, 2147483647, -1, Err(ErrorKind::Overflow)),
    (
        Op::Mul,
        Kind::Int,
        -2147483648,
        -1,
        Err(ErrorKind::Overflow),
    ),
    (
        Op::Mul,
        Kind::Int,
        -2147483648,
        -2147483648,
        Err(ErrorKind::Overflow),
    ),
    (
        Op::Mul,
        Kind::Int,
        2147483647,
        2147483647,
        Err(ErrorKind::Overflow),
    ),
    (Op::Mul, Kind::Int, 2147483647, -1, Ok(-2147483647)),
    (Op::Mul, Kind::Int, 65536, 32768, Err(ErrorKind::Overflow)),
    (Op::Mul, Kind::Int, -65536, 32768, Ok(-2147483648)),
    (
        Op::Div,
        Kind::Int,
        -2147483648,
        -1,
        Err(ErrorKind::Overflow),
    ),
    (Op::Div, Kind::Int, 7, -2, Ok(-3)),
    (Op::Div, Kind::Int, -7, 2, Ok(-3)),
    (Op::Div, Kind::Int, 1, 0, Err(ErrorKind::Zero)),
    (
        Op::Rem,
        Kind::Int,
        -2147483648,
        -1,
        Err(ErrorKind::Overflow),
    ),
    (Op::Rem, Kind::Int, 7, -2, Ok(1)),
    (Op::Rem, Kind::Int, -7, 2, Ok(-1)),
    (Op::Rem, Kind::Int, 0, 0, Err(ErrorKind::Zero)),
    (Op::Shl, Kind::Int, 1, 30, Ok(1073741824)),
    (Op::Shl, Kind::Int, 1, 31, Err(ErrorKind::Shift)),
    (Op::Shl, Kind::Int, 1, 32, Err(ErrorKind::Shift)),
    (Op::Shl, Kind::Int, 1, -1, Err(ErrorKind::Shift)),
    (Op::Shl, Kind::Int, -1, 0, Err(ErrorKind::Shift)),
    (Op::Shl, Kind::Int, 0, 31, Ok(0)),
    (Op::Shr, Kind::Int, -1, 31, Ok(-1)),
    (Op::Shr, Kind::Int, -5, 1, Ok(-3)),
    (Op::Shr, Kind::Int, -2147483648, 31, Ok(-1)),
    (Op::Shr, Kind::Int, 1, 32, Err(ErrorKind::Shift)),
    (Op::Shr, Kind::Int, 1, -1, Err(ErrorKind::Shift)),
    (Op::And, Kind::Int, -1, -2147483648, Ok(-2147483648)),
    (Op::Or, Kind::Int, -2147483648, 2147483647, Ok(-1)),
    (Op::Xor, Kind::Int, -1, 2147483647, Ok(-2147483648)),
    (Op::Less, Kind::Int, -1, 0, Ok(1)),
    (Op::Less, Kind::Int, 0, 0, Ok(0)),
    (Op::LessEqual, Kind::Int, 0, 0, Ok(1)),
    (Op::LessEqual, Kind::Int, 1, 0, Ok(0)),
    (Op::Equal, Kind::Int, -2147483648, -2147483648, Ok(1)),
    (Op::Equal, Kind::Int, -2147483648, 2147483647, Ok(0)),
    (
        Op::Add,
        Kind::LongLong,
        9223372036854775807,
        0,
        Ok(9223372036854775807),
    ),
    (
        Op::Add,
        Kind::LongLong,
        9223372036854775807,
        1,
        Err(ErrorKind::Overflow),
    ),
    (
        Op::Add,
        Kind::LongLong,
        -9223372036854775808,
        -1,
        Err(ErrorKind::Overflow),
    ),
    (
        Op::Add,
        Kind::LongLong,
        -9223372036854775808,
        9223372036854775807,
        Ok(-1),
    ),
    (
        Op::Sub,
        Kind::LongLong,
        -9223372036854775808,
        1,
        Err(ErrorKind::Overflow),
    ),
    (
        Op::Sub,
        Kind::LongLong,
        0,
        -9223372036854775808,
        Err(ErrorKind::Overflow),
    ),
    (
        Op::Sub,
        Kind::LongLong,
        -1,
        -9223372036854775808,
        Ok(9223372036854775807),
    ),
    (
        Op::Sub,
        Kind::LongLong,
        9223372036854775807,
        -1,
        Err(ErrorKind::Overflow),
    ),
    (
        Op::Mul,
        Kind::LongLong,
        -9223372036854775808,
        -1,
        Err(ErrorKind::Overflow),
    ),
    (
        Op::Mul,
        Kind::LongLong,
        -9223372036854775808,
        -9223372036854775808,
        Err(ErrorKind::Overflow),
    ),
    (
        Op::Mul,
        Kind::LongLong,
        9223372036854775807,
        9223372036854775807,
        Err(ErrorKind::Overflow),
    ),
    (
        Op::Mul,
        Kind::LongLong,
        9223372036854775807,
        -1,
        Ok(-9223372036854775807),
    ),
    (
        Op::Mul,
        Kind::LongLong,
        4294967296,
        2147483648,
        Err(ErrorKind::Overflow),
    ),
    (
        Op::Mul,
        Kind::LongLong,
        -4294967296,
        2147483648,
        Ok(-9223372036854775808),
    ),
    (
        Op::Div,
        Kind::LongLong,
        -9223372036854775808,
        -1,
        Err(ErrorKind::Overflow),
    ),
    (Op::Div, Kind::LongLong, 7, -2, Ok(-3)),
    (Op::Div, Kind::LongLong, -7, 2, Ok(-3)),
    (Op::Div, Kind::LongLong, 1, 0, Err(ErrorKind::Zero)),
    (
        Op::Rem,
        Kind::LongLong,
        -9223372036854775808,
        -1,
        Err(ErrorKind::Overflow),
    ),
    (Op::Rem, Kind::LongLong, 7, -2, Ok(1)),
    (Op::Rem, Kind::LongLong, -7, 2, Ok(-1)),
    (Op::Rem, Kind::LongLong, 0, 0, Err(ErrorKind::Zero)),
    (Op::Shl, Kind::LongLong, 1, 62, Ok(4611686018427387904)),
    (Op::Shl, Kind::LongLong, 1, 63, Err(ErrorKind::Shift)),
    (Op::Shl, Kind::LongLong, 1, 64, Err(ErrorKind::Shift)),
    (Op::Shl, Kind::LongLong, 1, -1, Err(ErrorKind::Shift)),
    (Op::Shl, Kind::LongLong, -1, 0, Err(ErrorKind::Shift)),
    (Op::Shl, Kind::LongLong, 0, 63, Ok(0)),
    (Op::Shr, Kind::LongLong, -1, 63, Ok(-1)),
    (Op::Shr, Kind::LongLong, -5, 1, Ok(-3)),
    (Op::Shr, Kind::LongLong, -9223372036854775808, 63, Ok(-1)),
    (Op::Shr, Kind::LongLong, 1, 64, Err(ErrorKind::Shift)),
    (Op::Shr, Kind::LongLong, 1, -1, Err(ErrorKind::Shift)),
    (
        Op::And,
        Kind::LongLong,
        -1,
        -9223372036854775808,
        Ok(-9223372036854775808),
    ),
    (
        Op::Or,
        Kind::LongLong,
        -9223372036854775808,
        9223372036854775807,
        Ok(-1),
    ),
    (
        Op::Xor,
        Kind::LongLong,
        -1,
        9223372036854775807,
        Ok(-9223372036854775808),
    ),
    (Op::Less, Kind::LongLong, -1, 0, Ok(1)),
    (Op::Less, Kind::LongLong, 0, 0, Ok(0)),
    (Op::LessEqual, Kind::LongLong, 0, 0, Ok(1)),
    (Op::LessEqual, Kind::LongLong, 1, 0, Ok(0)),
    (
        Op::Equal,
        Kind::LongLong,
        -9223372036854775808,
        -9223372036854775808,
        Ok(1),
    ),
    (
        Op::Equal,
        Kind::LongLong,
        -9223372036854775808,
        9223372036854775807,
        Ok(0),
    ),
    (Op::Add, Kind::UInt, 4294967295, 1, Ok(0)),
    (Op::Sub, Kind::UInt, 0, 1, Ok(4294967295)),
    (Op::Mul, Kind::UInt, 4294967295, 4294967295, Ok(1)),
    (Op::Mul, Kind::UInt, 65536, 65536, Ok(0)),
    (Op::Div, Kind::UInt, 4294967295, 2, Ok(2147483647)),
    (Op::Div, Kind::UInt, 1, 0, Err(ErrorKind::Zero)),
    (Op::Rem, Kind::UInt, 4294967295, 2, Ok(1)),
    (Op::Rem, Kind::UInt, 1, 0, Err(ErrorKind::Zero)),
    (Op::Shl, Kind::UInt, 1, 31, Ok(2147483648)),
    (Op::Shl, Kind::UInt, 4294967295, 1, Ok(4294967294)),
    (Op::Shl, Kind::UInt, 1, 32, Err(ErrorKind::Shift)),
    (Op::Shr, Kind::UInt, 4294967295, 31, Ok(1)),
    (Op::Shr, Kind::UInt, 4294967295, 32, Err(ErrorKind::Shift)),
    (Op::And, Kind::UInt, 4294967295, 5, Ok(5)),
    (Op::Or, Kind::UInt, 0, 4294967295, Ok(4294967295)),
    (Op::Xor, Kind::UInt, 4294967295, 4294967295, Ok(0)),
    (Op::Less, Kind::UInt, 0, 4294967295, Ok(1)),
    (Op::Less, Kind::UInt, 4294967295, 0, Ok(0)),
    (Op::Add, Kind::ULongLong, 18446744073709551615, 1, Ok(0)),
    (Op::Sub, Kind::ULongLong, 0, 1, Ok(18446744073709551615)),
    (
        Op::Mul,
        Kind::ULongLong,
        18446744073709551615,
        18446744073709551615,
        Ok(1),
    ),
    (Op::Mul, Kind::ULongLong, 4294967296, 4294967296, Ok(0)),
    (
        Op::Div,
        Kind::ULongLong,
        18446744073709551615,
        2,
        Ok(9223372036854775807),
    ),
    (Op::Div, Kind::ULongLong, 1, 0, Err(ErrorKind::Zero)),
    (Op::Rem, Kind::ULongLong, 18446744073709551615, 2, Ok(1)),
    (Op::Rem, Kind::ULongLong, 1, 0, Err(ErrorKind::Zero)),
    (Op::Shl, Kind::ULongLong, 1, 63, Ok(9223372036854775808)),
    (
        Op::Shl,
        Kind::ULongLong,
        18446744073709551615,
        1,
        Ok(18446744073709551614),
    ),
    (Op::Shl, Kind::ULongLong, 1, 64, Err(ErrorKind::Shift)),
    (Op::Shr, Kind::ULongLong, 18446744073709551615, 63, Ok(1)),
    (
        Op::Shr,
        Kind::ULongLong,
        18446744073709551615,
        64,
        Err(ErrorKind::Shift),
    ),
    (Op::And, Kind::ULongLong, 18446744073709551615, 5, Ok(5)),
    (
        Op::Or,
        Kind::ULongLong,
        0,
        18446744073709551615,
        Ok(18446744073709551615),
    ),
    (
        Op::Xor,
        Kind::ULongLong,
        18446744073709551615,
        18446744073709551615,
        Ok(0),
    ),
    (Op::Less, Kind::ULongLong, 0, 18446744073709551615, Ok(1)),
    (Op::Less, Kind::ULongLong, 18446744073709551615, 0, Ok(0)),
];

fn promoted(kind: Kind) -> bool
    ensures { result ≡ is_promoted kind }
{
    matches!(
        kind,
        Kind::Int | Kind::UInt | Kind::Long | Kind::ULong | Kind::LongLong | Kind::ULongLong
    )
}

// The operation, where its operands meet its conditions.
fn tried(
    op: Op,
    kind: Kind,
    model: Model,
    left: i128,
    right: i128,
) -> Option<Result<i128, ErrorKind>> {
    if promoted(kind) && in_range(kind, model, left) && in_range(kind, model, right) {
        Some(arith(op, kind, model, left, right))
    } else {
        None
    }
}

#[test]
fn operations_meet_their_limits(rt: HostRuntime) {
    for (op, kind, left, right, outcome) in &OPERATIONS {
        for model in &MODELS {
            assert_eq!(rt; tried(*op, *kind, *model, *left, *right), Some(*outcome));
            if let Some(long) = long_like(*kind, *model) {
                assert_eq!(rt; tried(*op, long, *model, *left, *right), Some(*outcome));
            }
        }
    }
}

#[test]
fn long_is_as_wide_as_the_model_says(rt: HostRuntime) {
    assert_eq!(rt;
        tried(Op::Add, Kind::Long, Model::Ilp32, 2147483647, 1),
        Some(Err(ErrorKind::Overflow))
    );
    assert_eq!(rt;
        tried(Op::Add, Kind::Long, Model::Lp64, 2147483647, 1),
        Some(Ok(2147483648))
    );
    assert_eq!(rt;
        tried(Op::Add, Kind::ULong, Model::Ilp32, 4294967295, 1),
        Some(Ok(0))
    );
    assert_eq!(rt;
        tried(Op::Shl, Kind::Long, Model::Lp64, 1, 32),
        Some(Ok(4294967296))
    );
    assert_eq!(rt;
        arith(Op::Shl, Kind::UInt, Model::Lp64, 1, 4294967296),
        Err(ErrorKind::Shift)
    );
    assert_eq!(rt;
        arith(Op::Shl, Kind::UInt, Model::Lp64, 1, -1),
        Err(ErrorKind::Shift)
    );
    assert_eq!(rt;
        arith(Op::Shr, Kind::ULongLong, Model::Ilp32, 1, -1),
        Err(ErrorKind::Shift)
    );
}

// An offset of the source below, with its line and column.
const SOURCE: &[u8; 7] = b"a\n\nbc\nd";

const PLACES: [(usize, u32, u32); 7] = [
    (0, 1, 1),
    (1, 1, 2),
    (2, 2, 1),
    (3, 3, 1),
    (5, 3, 3),
    (6, 4, 1),
    (7, 4, 2),
];

#[test]
fn places_are_counted_from_one(rt: HostRuntime) {
    for (offset, line, column) in &PLACES {
        if *offset <= SOURCE.len() {
            let place = Place {
                line: *line,
                column: *column,
            };
            assert_eq!(rt; place_of(SOURCE, *offset), place);
        }
    }
}

#[test]
fn names_are_as_they_are_printed(rt: HostRuntime) {
    assert_eq!(rt; Model::Ilp32.name(), "ilp32");
    assert_eq!(rt; ErrorKind::Missing.name(), "missing");
    assert_eq!(rt; SourceFault::DuplicateCase.name(), "DuplicateCase");
    assert_eq!(rt; SourceFault::BadJump.number(), 19);
    assert_eq!(rt; SourceFail::from(Memory), SourceFail::Memory);
}

#[test]
fn texts_keep_their_bytes(rt: HostRuntime) -> Result<(), Fail> {
    let Ok(text) = Text::copy_of(rt.alloc(), b"name") else {
        return Err(Fail::from(std::alloc::AllocError));
    };
    assert!(rt; text.is(b"name"));
    assert!(rt; !text.is(b"names"));
    assert_eq!(rt; text.as_bytes(), b"name".as_slice());
    assert_eq!(rt;
        Text::new(text.into_bytes()).into_bytes().as_slice(),
        b"name".as_slice()
    );
    Ok(())
}
