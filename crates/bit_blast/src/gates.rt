ghost use Rattle.std.specs.Prelude.{◌≡◌, ℕ, ◌+◌, ◌-◌, ◌≤◌, ◌<◌, length, map, List, [], ◌∷◌, ◌++◌, IfOk};
ghost use Rattle.prop.specs.Logic.{negated};
ghost use Rattle.bit_gates.specs.Cut.{Grew};
ghost use Rattle.bit_gates.specs.Products.{product_of};
ghost use Rattle.bit_gates.specs.Quotients.{selected};
ghost use Rattle.bit_gates.specs.Shifts.{shift_of};
ghost use Rattle.bit_words.specs.Folding.{folded_made};
ghost use Rattle.bit_words.specs.Words.{ands, xors, copies_of};
ghost use Rattle.bit_blast.specs.Gates.{add_word, subtract_word, divide_word, remainder_word, or_word, equal_word, less_word, extended_to};
ghost use Rattle.bit_blast.specs.Emission.{AreWords};

use bit_gates::{
    Net, NoRoom, Shift, negate_all, put_equal, put_less, put_product, put_quotient, put_ripple,
    put_selected, put_shift,
};
use bit_words::{copies, fold, put_ands, put_xors};
use prop::Lit;
use std::alloc::Global;

// One literal as a word.
fn word(alloc: Global, l: Lit) -> Result<Vec<Lit>, NoRoom>
    ensures { IfOk result (λ r. r.items ≡ l ∷ []) }
{
    let mut outs = Vec::new(alloc);
    outs.push(l)?;
    Ok(outs)
}

/// The word with copies of a literal above it.
pub fn extend(alloc: Global, width: u32, l: Lit, a: &[Lit]) -> Result<Vec<Lit>, NoRoom>
    requires { length a.now ≤ width }
    ensures { IfOk result (λ r. r.items ≡ extended_to width l a.now) }
{
    let mut outs = Vec::new(alloc);
    outs.extend_from_slice(a)?;
    let high = copies(alloc, l, width as usize - a.len())?;
    outs.extend_from_slice(&high)?;
    Ok(outs)
}

/// The sum of two words, without its carry.
pub fn fold_sum(
    alloc: Global,
    net: &mut Net,
    one: Lit,
    a: &[Lit],
    b: &[Lit],
) -> Result<Vec<Lit>, NoRoom>
    requires { AreWords a.now b.now }
    ensures start { net.new.start ≡ net.old.start }
    ensures grew { IfOk result (λ r.
        let m = folded_made one net.old.next (add_word one net.old.next a.now b.now) in
        Grew net.old.next net.old.defs.items net.new.next net.new.defs.items m.defs × (r.items ≡ m.outs)) }
{
    let mut made = Net::new(alloc, net.next);
    let (outs, _carry) = put_ripple(alloc, &mut made, a, b, one.negate())?;
    fold(alloc, net, one, &made, &outs)
}

/// The difference of two words, without its borrow.
pub fn fold_difference(
    alloc: Global,
    net: &mut Net,
    one: Lit,
    a: &[Lit],
    b: &[Lit],
) -> Result<Vec<Lit>, NoRoom>
    requires { AreWords a.now b.now }
    ensures start { net.new.start ≡ net.old.start }
    ensures grew { IfOk result (λ r.
        let m = folded_made one net.old.next (subtract_word one net.old.next a.now b.now) in
        Grew net.old.next net.old.defs.items net.new.next net.new.defs.items m.defs × (r.items ≡ m.outs)) }
{
    let mut made = Net::new(alloc, net.next);
    let turned = negate_all(alloc, b)?;
    let (outs, _carry) = put_ripple(alloc, &mut made, a, &turned, one)?;
    fold(alloc, net, one, &made, &outs)
}

/// The low half of the product of two words.
pub fn fold_product(
    alloc: Global,
    net: &mut Net,
    one: Lit,
    a: &[Lit],
    b: &[Lit],
) -> Result<Vec<Lit>, NoRoom>
    requires { AreWords a.now b.now }
    ensures start { net.new.start ≡ net.old.start }
    ensures grew { IfOk result (λ r.
        let m = folded_made one net.old.next (product_of net.old.next a.now b.now) in
        Grew net.old.next net.old.defs.items net.new.next net.new.defs.items m.defs × (r.items ≡ m.outs)) }
{
    let mut made = Net::new(alloc, net.next);
    let outs = put_product(alloc, &mut made, a[0], &a[1..], b)?;
    fold(alloc, net, one, &made, &outs)
}

/// The quotient of two words, 0 where the divisor is 0.
pub fn fold_quotient(
    alloc: Global,
    net: &mut Net,
    one: Lit,
    a: &[Lit],
    b: &[Lit],
) -> Result<Vec<Lit>, NoRoom>
    requires { AreWords a.now b.now }
    ensures start { net.new.start ≡ net.old.start }
    ensures grew { IfOk result (λ r.
        let m = folded_made one net.old.next (divide_word net.old.next a.now b.now) in
        Grew net.old.next net.old.defs.items net.new.next net.new.defs.items m.defs × (r.items ≡ m.outs)) }
{
    let mut made = Net::new(alloc, net.next);
    let (outs, _rest) = put_quotient(alloc, &mut made, a, b)?;
    fold(alloc, net, one, &made, &outs)
}

/// The remainder of two words, 0 where the divisor is 0.
pub fn fold_remainder(
    alloc: Global,
    net: &mut Net,
    one: Lit,
    a: &[Lit],
    b: &[Lit],
) -> Result<Vec<Lit>, NoRoom>
    requires { AreWords a.now b.now }
    ensures start { net.new.start ≡ net.old.start }
    ensures grew { IfOk result (λ r.
        let m = folded_made one net.old.next (remainder_word net.old.next a.now b.now) in
        Grew net.old.next net.old.defs.items net.new.next net.new.defs.items m.defs × (r.items ≡ m.outs)) }
{
    let mut made = Net::new(alloc, net.next);
    let (_quotient, outs) = put_quotient(alloc, &mut made, a, b)?;
    fold(alloc, net, one, &made, &outs)
}

/// Each bit of both words.
pub fn fold_ands(
    alloc: Global,
    net: &mut Net,
    one: Lit,
    a: &[Lit],
    b: &[Lit],
) -> Result<Vec<Lit>, NoRoom>
    requires { AreWords a.now b.now }
    ensures start { net.new.start ≡ net.old.start }
    ensures grew { IfOk result (λ r.
        let m = folded_made one net.old.next (ands net.old.next a.now b.now) in
        Grew net.old.next net.old.defs.items net.new.next net.new.defs.items m.defs × (r.items ≡ m.outs)) }
{
    let mut made = Net::new(alloc, net.next);
    let outs = put_ands(alloc, &mut made, a, b)?;
    fold(alloc, net, one, &made, &outs)
}

/// Each bit of one or both words.
pub fn fold_ors(
    alloc: Global,
    net: &mut Net,
    one: Lit,
    a: &[Lit],
    b: &[Lit],
) -> Result<Vec<Lit>, NoRoom>
    requires { AreWords a.now b.now }
    ensures start { net.new.start ≡ net.old.start }
    ensures grew { IfOk result (λ r.
        let m = folded_made one net.old.next (or_word net.old.next a.now b.now) in
        Grew net.old.next net.old.defs.items net.new.next net.new.defs.items m.defs × (r.items ≡ m.outs)) }
{
    let mut made = Net::new(alloc, net.next);
    let left = negate_all(alloc, a)?;
    let right = negate_all(alloc, b)?;
    let none = put_ands(alloc, &mut made, &left, &right)?;
    let outs = negate_all(alloc, &none)?;
    fold(alloc, net, one, &made, &outs)
}

/// Each bit of exactly one word.
pub fn fold_xors(
    alloc: Global,
    net: &mut Net,
    one: Lit,
    a: &[Lit],
    b: &[Lit],
) -> Result<Vec<Lit>, NoRoom>
    requires { AreWords a.now b.now }
    ensures start { net.new.start ≡ net.old.start }
    ensures grew { IfOk result (λ r.
        let m = folded_made one net.old.next (xors net.old.next a.now b.now) in
        Grew net.old.next net.old.defs.items net.new.next net.new.defs.items m.defs × (r.items ≡ m.outs)) }
{
    let mut made = Net::new(alloc, net.next);
    let outs = put_xors(alloc, &mut made, a, b)?;
    fold(alloc, net, one, &made, &outs)
}

/// The first word shifted left by the second.
pub fn fold_left(
    alloc: Global,
    net: &mut Net,
    one: Lit,
    a: &[Lit],
    b: &[Lit],
) -> Result<Vec<Lit>, NoRoom>
    requires { AreWords a.now b.now }
    ensures start { net.new.start ≡ net.old.start }
    ensures grew { IfOk result (λ r.
        let m = folded_made one net.old.next (shift_of net.old.next Shift.Left a.now b.now) in
        Grew net.old.next net.old.defs.items net.new.next net.new.defs.items m.defs × (r.items ≡ m.outs)) }
{
    let mut made = Net::new(alloc, net.next);
    let outs = put_shift(alloc, &mut made, Shift::Left, a, b)?;
    fold(alloc, net, one, &made, &outs)
}

/// The first word shifted right by the second, zeros coming in.
pub fn fold_right(
    alloc: Global,
    net: &mut Net,
    one: Lit,
    a: &[Lit],
    b: &[Lit],
) -> Result<Vec<Lit>, NoRoom>
    requires { AreWords a.now b.now }
    ensures start { net.new.start ≡ net.old.start }
    ensures grew { IfOk result (λ r.
        let m = folded_made one net.old.next (shift_of net.old.next Shift.Logical a.now b.now) in
        Grew net.old.next net.old.defs.items net.new.next net.new.defs.items m.defs × (r.items ≡ m.outs)) }
{
    let mut made = Net::new(alloc, net.next);
    let outs = put_shift(alloc, &mut made, Shift::Logical, a, b)?;
    fold(alloc, net, one, &made, &outs)
}

/// The first word shifted right by the second, copies of its top bit coming in.
pub fn fold_arithmetic(
    alloc: Global,
    net: &mut Net,
    one: Lit,
    a: &[Lit],
    b: &[Lit],
) -> Result<Vec<Lit>, NoRoom>
    requires { AreWords a.now b.now }
    ensures start { net.new.start ≡ net.old.start }
    ensures grew { IfOk result (λ r.
        let m = folded_made one net.old.next (shift_of net.old.next Shift.Arithmetic a.now b.now) in
        Grew net.old.next net.old.defs.items net.new.next net.new.defs.items m.defs × (r.items ≡ m.outs)) }
{
    let mut made = Net::new(alloc, net.next);
    let outs = put_shift(alloc, &mut made, Shift::Arithmetic, a, b)?;
    fold(alloc, net, one, &made, &outs)
}

/// Whether two words are equal, as a word of one bit.
pub fn fold_equal(
    alloc: Global,
    net: &mut Net,
    one: Lit,
    a: &[Lit],
    b: &[Lit],
) -> Result<Vec<Lit>, NoRoom>
    requires { AreWords a.now b.now }
    ensures start { net.new.start ≡ net.old.start }
    ensures grew { IfOk result (λ r.
        let m = folded_made one net.old.next (equal_word net.old.next a.now b.now) in
        Grew net.old.next net.old.defs.items net.new.next net.new.defs.items m.defs × (r.items ≡ m.outs)) }
{
    let mut made = Net::new(alloc, net.next);
    let out = put_equal(&mut made, a, b)?;
    let outs = word(alloc, out)?;
    fold(alloc, net, one, &made, &outs)
}

/// Whether the first word is below the second, as a word of one bit.
pub fn fold_less(
    alloc: Global,
    net: &mut Net,
    one: Lit,
    signed: bool,
    a: &[Lit],
    b: &[Lit],
) -> Result<Vec<Lit>, NoRoom>
    requires { AreWords a.now b.now }
    ensures start { net.new.start ≡ net.old.start }
    ensures grew { IfOk result (λ r.
        let m = folded_made one net.old.next (less_word net.old.next signed a.now b.now) in
        Grew net.old.next net.old.defs.items net.new.next net.new.defs.items m.defs × (r.items ≡ m.outs)) }
{
    let mut made = Net::new(alloc, net.next);
    let out = put_less(alloc, &mut made, signed, a, b)?;
    let outs = word(alloc, out)?;
    fold(alloc, net, one, &made, &outs)
}

/// The first word where `c` is true, else the second.
pub fn fold_choice(
    alloc: Global,
    net: &mut Net,
    one: Lit,
    c: Lit,
    a: &[Lit],
    b: &[Lit],
) -> Result<Vec<Lit>, NoRoom>
    requires { AreWords a.now b.now }
    ensures start { net.new.start ≡ net.old.start }
    ensures grew { IfOk result (λ r.
        let m = folded_made one net.old.next (selected net.old.next c a.now b.now) in
        Grew net.old.next net.old.defs.items net.new.next net.new.defs.items m.defs × (r.items ≡ m.outs)) }
{
    let mut made = Net::new(alloc, net.next);
    let outs = put_selected(alloc, &mut made, c, a, b)?;
    fold(alloc, net, one, &made, &outs)
}
