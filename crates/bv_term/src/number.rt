//! The operations on bit-vectors of at most 128 bits, as numbers.
ghost use Rattle.std.specs.Prelude.{◌≡◌, ◌-◌, ◌%◌, ◌^◌, ◌<◌, ◌≤◌};
ghost use Rattle.bv_term.specs.WellFormed.{IsWidth};
ghost use Rattle.bv_term.specs.Numbers.{sum_in, difference_in, product_in, quotient_of, remainder_of, complement_in, left_in, right_in, has_sign, signed_right_in, raised, sign_extended, bit_of};

/// Two to the power of a number.
fn power(exponent: u32) -> u128
    requires { exponent < 128 }
    ensures { result ≡ 2 ^ exponent }
{
    1 << exponent
}

/// The greatest number of the width.
pub fn greatest(width: u32) -> u128
    requires { IsWidth width }
    ensures { result ≡ 2 ^ width - 1 }
{
    if width == 128 {
        u128::MAX
    } else {
        power(width) - 1
    }
}

/// The low bits of a number.
pub fn low_bits(width: u32, value: u128) -> u128
    requires { IsWidth width }
    ensures { result ≡ value % 2 ^ width }
{
    if width == 128 {
        value
    } else {
        value % power(width)
    }
}

/// The sum of two numbers of the width, without its carry.
#[tactic(auto, using(crate::proofs::Narrow::mod_narrow))]
pub fn sum(width: u32, a: u128, b: u128) -> u128
    requires { IsWidth width }
    ensures { result ≡ sum_in width a b }
{
    low_bits(width, a.wrapping_add(b))
}

/// The difference of two numbers of the width, without its borrow.
pub fn difference(width: u32, a: u128, b: u128) -> u128
    requires width { IsWidth width }
    requires first { a < 2 ^ width }
    requires second { b < 2 ^ width }
    ensures { result ≡ difference_in width a b }
{
    if b <= a {
        a - b
    } else {
        greatest(width) - (b - a - 1)
    }
}

/// The low bits of the product.
#[tactic(auto, using(crate::proofs::Narrow::mod_narrow))]
pub fn product(width: u32, a: u128, b: u128) -> u128
    requires { IsWidth width }
    ensures { result ≡ product_in width a b }
{
    low_bits(width, a.wrapping_mul(b))
}

/// The quotient, 0 where the divisor is 0.
pub fn quotient(a: u128, b: u128) -> u128
    ensures { result ≡ quotient_of a b }
{
    if b == 0 { 0 } else { a / b }
}

/// The remainder, 0 where the divisor is 0.
pub fn remainder(a: u128, b: u128) -> u128
    ensures { result ≡ remainder_of a b }
{
    if b == 0 { 0 } else { a % b }
}

/// Each bit turned over.
pub fn complement(width: u32, a: u128) -> u128
    requires width { IsWidth width }
    requires value { a < 2 ^ width }
    ensures { result ≡ complement_in width a }
{
    greatest(width) - a
}

/// Shifted left; nothing is left where the second is not below the width.
#[tactic(auto, using(crate::proofs::Narrow::mod_narrow))]
pub fn left(width: u32, a: u128, b: u128) -> u128
    requires { IsWidth width }
    ensures { result ≡ left_in width a b }
{
    if b < width as u128 {
        low_bits(width, a.wrapping_mul(power(b as u32)))
    } else {
        0
    }
}

/// Shifted right, zeros coming in; nothing is left where the second is not below the width.
pub fn right(width: u32, a: u128, b: u128) -> u128
    requires { IsWidth width }
    ensures { result ≡ right_in width a b }
{
    if b < width as u128 { a >> b as u32 } else { 0 }
}

/// Whether the top bit is 1.
pub fn is_negative(width: u32, a: u128) -> bool
    requires { IsWidth width }
    ensures { result ≡ has_sign width a }
{
    power(width - 1) <= a
}

/// Shifted right, copies of the top bit coming in.
pub fn signed_right(width: u32, a: u128, b: u128) -> u128
    requires width { IsWidth width }
    requires value { a < 2 ^ width }
    ensures { result ≡ signed_right_in width a b }
{
    if is_negative(width, a) {
        complement(width, right(width, complement(width, a), b))
    } else {
        right(width, a, b)
    }
}

/// The number with its top bit turned over: the order of these is the signed order.
#[tactic(auto, using(crate::proofs::Narrow::mod_narrow))]
pub fn raise(width: u32, a: u128) -> u128
    requires { IsWidth width }
    ensures { result ≡ raised width a }
{
    low_bits(width, a.wrapping_add(power(width - 1)))
}

/// Extended from the first width to the second, copies of the top bit coming in above.
#[tactic(auto, using(crate::proofs::Narrow::power_le))]
pub fn extend_sign(from: u32, to: u32, a: u128) -> u128
    requires from { IsWidth from }
    requires to { IsWidth to }
    requires order { from ≤ to }
    requires value { a < 2 ^ from }
    ensures { result ≡ sign_extended from to a }
{
    if is_negative(from, a) {
        a + (greatest(to) - greatest(from))
    } else {
        a
    }
}

/// One bit, counted from the lowest, which is bit 0.
pub fn bit(number: u32, a: u128) -> u128
    requires { number < 128 }
    ensures { result ≡ bit_of number a }
{
    (a >> number) % 2
}
