ghost use Rattle.std.specs.Prelude.{◌≡◌, ◌<◌, ◌≤◌, ◌^◌, ◌-◌, ◌*ℤ◌, pos, negsuc, ◌≤ℤ◌, ◌↔◌, IsTrue, unsigned_abs, IfSome, IfOk};
ghost use Rattle.lv_base.specs.Integers.{width_of, is_signed, is_promoted, least_of, greatest_of, is_in_range, InRange, residue, signed_of, wrapped, converted, held, exact, quotient, remainder, is_amount, left_shift, right_shift, truth, arith_of, IsRight, is_zero, amount_of as amount_at};

use crate::{ErrorKind, Kind, Model, Op};

/// The bits of a kind.
pub fn width(kind: Kind, model: Model) -> u32
    ensures width { result ≡ width_of kind model }
    ensures some { 0 < result }
    ensures most { result ≤ 64 }
{
    match kind {
        Kind::Bool => 1,
        Kind::Char | Kind::UChar => 8,
        Kind::Short | Kind::UShort => 16,
        Kind::Int | Kind::UInt => 32,
        Kind::Long | Kind::ULong => match model {
            Model::Ilp32 => 32,
            Model::Lp64 => 64,
        },
        Kind::LongLong | Kind::ULongLong => 64,
    }
}

fn signed(kind: Kind) -> bool
    ensures { result ≡ is_signed kind }
{
    matches!(
        kind,
        Kind::Char | Kind::Short | Kind::Int | Kind::Long | Kind::LongLong
    )
}

fn power(bits: u32) -> u128
    requires { bits ≤ 64 }
    ensures power { result ≡ 2 ^ bits }
    ensures some { 0 < result }
    ensures most { result ≤ 2 ^ 64 }
{
    1u128 << bits
}

// What is left of a value modulo 2^bits.
fn low_bits(value: i128, bits: u32) -> u128
    requires { bits ≤ 64 }
    ensures value { result ≡ residue bits value }
    ensures small { result < 2 ^ bits }
{
    value.rem_euclid(power(bits) as i128) as u128
}

// The value of a kind that has these low bits.
fn with_bits(kind: Kind, model: Model, low: u128) -> i128
    requires { low < 2 ^ width_of kind model }
    ensures value { result ≡ wrapped kind model low }
    ensures range { InRange kind model result }
{
    let bits = width(kind, model);
    if signed(kind) && low >= power(bits - 1) {
        -((power(bits) - 1 - low) as i128) - 1
    } else {
        low as i128
    }
}

/// The value that a conversion to a kind gives (C11 6.3.1.2, 6.3.1.3): 0 or 1 in `_Bool`, and in any other kind the
/// value modulo 2 to the power of its bits.
pub fn convert(value: i128, to: Kind, model: Model) -> i128
    ensures value { result ≡ converted to model value }
    ensures range { InRange to model result }
{
    if to == Kind::Bool {
        return if value == 0 { 0 } else { 1 };
    }
    with_bits(to, model, low_bits(value, width(to, model)))
}

fn least(kind: Kind, model: Model) -> i128
    ensures { result ≡ least_of kind model }
{
    if signed(kind) {
        -((power(width(kind, model) - 1) - 1) as i128) - 1
    } else {
        0
    }
}

fn greatest(kind: Kind, model: Model) -> i128
    ensures { result ≡ greatest_of kind model }
{
    let bits = width(kind, model);
    let count = if signed(kind) { bits - 1 } else { bits };
    (power(count) - 1) as i128
}

/// Whether a value is one of the kind's.
pub fn in_range(kind: Kind, model: Model, value: i128) -> bool
    ensures test { result ≡ is_in_range kind model value }
    ensures range { IsTrue result ↔ InRange kind model value }
{
    least(kind, model) <= value && value <= greatest(kind, model)
}

/// The operation in a promoted kind to which both operands were converted, or the error that it meets (C11 6.5.5 to
/// 6.5.12). Comparisons answer 0 or 1.
pub fn arith(op: Op, kind: Kind, model: Model, left: i128, right: i128) -> Result<i128, ErrorKind>
    requires kind { IsTrue (is_promoted kind) }
    requires left { InRange kind model left }
    requires right { IsRight op kind model right }
    ensures value { result ≡ arith_of op kind model left right }
    ensures range { IfOk result (InRange kind model) }
{
    match op {
        Op::Add => exact_sum(kind, model, left + right),
        Op::Sub => exact_sum(kind, model, left - right),
        Op::Mul => product(kind, model, left, right),
        Op::Div => divide(kind, model, left, right),
        Op::Rem => rest(kind, model, left, right),
        Op::Shl => shift_left(kind, model, left, right),
        Op::Shr => shift_right(kind, model, left, right),
        Op::And => Ok(with_bits(
            kind,
            model,
            bits_of(kind, model, left) & bits_of(kind, model, right),
        )),
        Op::Or => Ok(with_bits(
            kind,
            model,
            bits_of(kind, model, left) | bits_of(kind, model, right),
        )),
        Op::Xor => Ok(with_bits(
            kind,
            model,
            bits_of(kind, model, left) ^ bits_of(kind, model, right),
        )),
        Op::Less => Ok(truth_value(left < right)),
        Op::LessEqual => Ok(truth_value(left <= right)),
        Op::Equal => Ok(truth_value(left == right)),
    }
}

fn truth_value(holds: bool) -> i128
    ensures { result ≡ truth holds }
{
    if holds { 1 } else { 0 }
}

fn bits_of(kind: Kind, model: Model, value: i128) -> u128
    ensures value { result ≡ residue (width_of kind model) value }
    ensures small { result < 2 ^ width_of kind model }
{
    low_bits(value, width(kind, model))
}

fn fitting(kind: Kind, model: Model, error: ErrorKind, value: i128) -> Result<i128, ErrorKind>
    ensures value { result ≡ held kind model error value }
    ensures range { IfOk result (InRange kind model) }
{
    if in_range(kind, model, value) {
        Ok(value)
    } else {
        Err(error)
    }
}

fn exact_sum(kind: Kind, model: Model, value: i128) -> Result<i128, ErrorKind>
    ensures value { result ≡ exact kind model value }
    ensures range { IfOk result (InRange kind model) }
{
    if signed(kind) {
        fitting(kind, model, ErrorKind::Overflow, value)
    } else {
        Ok(convert(value, kind, model))
    }
}

// A product of two unsigned values of 64 bits doesn't fit an `i128`.
fn product(kind: Kind, model: Model, left: i128, right: i128) -> Result<i128, ErrorKind>
    requires left { InRange kind model left }
    requires right { InRange kind model right }
    ensures value { result ≡ exact kind model (left *ℤ right) }
    ensures range { IfOk result (InRange kind model) }
{
    if signed(kind) {
        return fitting(kind, model, ErrorKind::Overflow, left * right);
    }
    let low = (left as u128 * right as u128) % power(width(kind, model));
    Ok(convert(low as i128, kind, model))
}

fn divide(kind: Kind, model: Model, left: i128, right: i128) -> Result<i128, ErrorKind>
    requires { InRange kind model left }
    ensures value { result ≡ quotient kind model left right }
    ensures range { IfOk result (InRange kind model) }
{
    if right == 0 {
        return Err(ErrorKind::Zero);
    }
    fitting(kind, model, ErrorKind::Overflow, left / right)
}

fn rest(kind: Kind, model: Model, left: i128, right: i128) -> Result<i128, ErrorKind>
    requires { InRange kind model left }
    ensures value { result ≡ remainder kind model left right }
    ensures range { IfOk result (InRange kind model) }
{
    if right == 0 {
        return Err(ErrorKind::Zero);
    }
    if in_range(kind, model, left / right) {
        Ok(left % right)
    } else {
        Err(ErrorKind::Overflow)
    }
}

fn amount_of(kind: Kind, model: Model, amount: i128) -> Option<u32>
    ensures value { result ≡ amount_at kind model amount }
    ensures small { IfSome result (λ k. k < 64) }
{
    if 0 <= amount && amount < width(kind, model) as i128 {
        Some(amount as u32)
    } else {
        None
    }
}

fn shift_left(kind: Kind, model: Model, left: i128, right: i128) -> Result<i128, ErrorKind>
    requires { InRange kind model left }
    ensures value { result ≡ arith_of Op.Shl kind model left right }
    ensures range { IfOk result (InRange kind model) }
{
    let Some(amount) = amount_of(kind, model, right) else {
        return Err(ErrorKind::Shift);
    };
    let shifted = left * power(amount) as i128;
    if !signed(kind) {
        return Ok(convert(shifted, kind, model));
    }
    if left < 0 {
        return Err(ErrorKind::Shift);
    }
    fitting(kind, model, ErrorKind::Shift, shifted)
}

fn shift_right(kind: Kind, model: Model, left: i128, right: i128) -> Result<i128, ErrorKind>
    requires { InRange kind model left }
    ensures value { result ≡ arith_of Op.Shr kind model left right }
    ensures range { IfOk result (InRange kind model) }
{
    let Some(amount) = amount_of(kind, model, right) else {
        return Err(ErrorKind::Shift);
    };
    Ok(left >> amount)
}
