ghost use Rattle.std.specs.Prelude.{◌≡◌, ◌<◌, ◌≤◌, ◌^◌, ◌*ℤ◌, ◌≤ℤ◌, pos, true, IsTrue, IfSome};
ghost use Rattle.lv_base.specs.Integers.{width_of, is_promoted, InRange, residue, wrapped, converted, held, exact, quotient, remainder, truth, arith_of, IsRight, amount_of as amount_at};

use crate::bounds::{highest, in_range, ones, signed};
use crate::quotients::{cut_quotient, cut_remainder};
use lv_base::{ErrorKind, Kind, Model, Op};

// What is left of a value modulo 2 to the power of the kind's bits: its lowest bits. Those of a negative one are those of
// -1 less it, each turned.
fn low_bits(value: i128, kind: Kind, model: Model) -> u128
    ensures value { result ≡ residue (width_of kind model) value }
    ensures small { result < 2 ^ width_of kind model }
{
    let mask = ones(kind, model) as u128;
    if 0 <= value {
        value as u128 & mask
    } else {
        mask - ((-1 - value) as u128 & mask)
    }
}

// The value of a kind that has these low bits.
fn with_bits(kind: Kind, model: Model, low: u128) -> i128
    requires { low < 2 ^ width_of kind model }
    ensures value { result ≡ wrapped kind model low }
{
    if signed(kind) && low >= highest(kind, model) as u128 {
        -((ones(kind, model) as u128 - low) as i128) - 1
    } else {
        low as i128
    }
}

/// The value that a conversion to a kind gives (C11 6.3.1.2, 6.3.1.3): 0 or 1 in `_Bool`, and in any other kind the
/// value modulo 2 to the power of its bits.
pub fn convert(value: i128, to: Kind, model: Model) -> i128
    ensures value { result ≡ converted to model value }
{
    if to == Kind::Bool {
        return if value == 0 { 0 } else { 1 };
    }
    with_bits(to, model, low_bits(value, to, model))
}

/// The operation in a promoted kind to which both operands were converted, or the error that it meets (C11 6.5.5 to
/// 6.5.12). Comparisons answer 0 or 1.
pub fn arith(op: Op, kind: Kind, model: Model, left: i128, right: i128) -> Result<i128, ErrorKind>
    requires kind { IsTrue (is_promoted kind) }
    requires left { InRange kind model left }
    requires right { IsRight op kind model right }
    ensures value { result ≡ arith_of op kind model left right }
{
    match op {
        Op::Add => exact_sum(kind, model, left + right),
        Op::Sub => exact_sum(kind, model, left - right),
        Op::Mul => product(kind, model, left, right),
        Op::Div => divide(kind, model, left, right),
        Op::Rem => rest(kind, model, left, right),
        Op::And => Ok(with_bits(
            kind,
            model,
            low_bits(left, kind, model) & low_bits(right, kind, model),
        )),
        Op::Or => Ok(with_bits(
            kind,
            model,
            low_bits(left, kind, model) | low_bits(right, kind, model),
        )),
        Op::Xor => Ok(with_bits(
            kind,
            model,
            low_bits(left, kind, model) ^ low_bits(right, kind, model),
        )),
        Op::Shl => shift_left(kind, model, left, right),
        Op::Shr => shift_right(kind, model, left, right),
        Op::Less => Ok(truth_value(left < right)),
        Op::LessEqual => Ok(truth_value(left <= right)),
        Op::Equal => Ok(truth_value(left == right)),
    }
}

fn truth_value(holds: bool) -> i128
    ensures { result ≡ truth holds }
{
    if holds { 1 } else { 0 }
}

fn fitting(kind: Kind, model: Model, error: ErrorKind, value: i128) -> Result<i128, ErrorKind>
    ensures value { result ≡ held kind model error value }
{
    if in_range(kind, model, value) {
        Ok(value)
    } else {
        Err(error)
    }
}

fn exact_sum(kind: Kind, model: Model, value: i128) -> Result<i128, ErrorKind>
    ensures value { result ≡ exact kind model value }
{
    if signed(kind) {
        fitting(kind, model, ErrorKind::Overflow, value)
    } else {
        Ok(convert(value, kind, model))
    }
}

fn product(kind: Kind, model: Model, left: i128, right: i128) -> Result<i128, ErrorKind>
    requires kind { IsTrue (is_promoted kind) }
    requires left { InRange kind model left }
    requires right { InRange kind model right }
    ensures value { result ≡ exact kind model (left *ℤ right) }
{
    if signed(kind) {
        return fitting(kind, model, ErrorKind::Overflow, left * right);
    }
    let low = (left as u128 * right as u128) & ones(kind, model) as u128;
    Ok(with_bits(kind, model, low))
}

fn divide(kind: Kind, model: Model, left: i128, right: i128) -> Result<i128, ErrorKind>
    requires { InRange kind model left }
    ensures value { result ≡ quotient kind model left right }
{
    if right == 0 {
        return Err(ErrorKind::Zero);
    }
    fitting(kind, model, ErrorKind::Overflow, cut_quotient(left, right))
}

fn neither_negative(left: i128, right: i128) -> bool
    ensures { result ≡ true → (pos 0 ≤ℤ left) × (pos 0 ≤ℤ right) }
{
    0 <= left && 0 <= right
}

// Of operands that are not negative the quotient is one of the kind's as the left operand is.
fn rest(kind: Kind, model: Model, left: i128, right: i128) -> Result<i128, ErrorKind>
    requires { InRange kind model left }
    ensures value { result ≡ remainder kind model left right }
{
    if right == 0 {
        return Err(ErrorKind::Zero);
    }
    if neither_negative(left, right) {
        return Ok(cut_remainder(left, right));
    }
    if in_range(kind, model, cut_quotient(left, right)) {
        Ok(cut_remainder(left, right))
    } else {
        Err(ErrorKind::Overflow)
    }
}

fn power(bits: u32) -> u128
    requires { bits ≤ 64 }
    ensures power { result ≡ 2 ^ bits }
    ensures some { 0 < result }
    ensures most { result ≤ 2 ^ 64 }
{
    1u128 << bits
}

fn amount_of(kind: Kind, model: Model, amount: i128) -> Option<u32>
    ensures value { result ≡ amount_at kind model amount }
    ensures small { IfSome result (λ k. k < 64) }
{
    if 0 <= amount && amount < lv_base::width(kind, model) as i128 {
        Some(amount as u32)
    } else {
        None
    }
}

fn shift_left(kind: Kind, model: Model, left: i128, right: i128) -> Result<i128, ErrorKind>
    requires kind { IsTrue (is_promoted kind) }
    requires left { InRange kind model left }
    requires right { IsRight Op.Shl kind model right }
    ensures value { result ≡ arith_of Op.Shl kind model left right }
{
    if signed(kind) {
        return lv_base::arith(Op::Shl, kind, model, left, right);
    }
    let Some(amount) = amount_of(kind, model, right) else {
        return Err(ErrorKind::Shift);
    };
    let shifted = left * power(amount) as i128;
    Ok(convert(shifted, kind, model))
}

fn shift_right(kind: Kind, model: Model, left: i128, right: i128) -> Result<i128, ErrorKind>
    requires { InRange kind model left }
    ensures value { result ≡ arith_of Op.Shr kind model left right }
{
    let Some(amount) = amount_of(kind, model, right) else {
        return Err(ErrorKind::Shift);
    };
    Ok(left >> amount)
}
