/// The number of a term in its table.
#[derive(Clone, Copy, Debug, PartialEq, Eq, Hash)]
pub struct TermId(pub u32);

/// A bit-vector term. Its operands are numbers of earlier terms of its table. Widths are in bits, 1 to 128, and
/// values are natural numbers below two to the power of the width.
#[derive(Clone, Copy, Debug, PartialEq, Eq, Hash)]
pub enum Term {
    /// A value of a width: the width, then the value.
    Constant(u32, u128),
    /// The value of a cell of the store.
    Cell(u32),
    /// An element of an array: the array's first cell, its length, and the term that is the index. Its value is 0
    /// where the index is not below the length.
    Element(u32, u32, TermId),
    /// The sum, without its carry.
    Add(TermId, TermId),
    /// The difference, without its borrow.
    Subtract(TermId, TermId),
    /// The low half of the product.
    Multiply(TermId, TermId),
    /// The unsigned quotient, 0 where the divisor is 0.
    Divide(TermId, TermId),
    /// The unsigned remainder, 0 where the divisor is 0.
    Remainder(TermId, TermId),
    /// Each bit of both.
    And(TermId, TermId),
    /// Each bit of one or both.
    Or(TermId, TermId),
    /// Each bit of exactly one.
    Xor(TermId, TermId),
    /// Each bit turned over.
    Not(TermId),
    /// The first shifted left by the second.
    ShiftLeft(TermId, TermId),
    /// The first shifted right by the second, zeros coming in.
    ShiftRight(TermId, TermId),
    /// The first shifted right by the second, copies of its top bit coming in.
    ShiftSigned(TermId, TermId),
    /// Whether both are equal, of width 1.
    Equal(TermId, TermId),
    /// Whether the first is below the second as an unsigned number, of width 1.
    Less(TermId, TermId),
    /// Whether the first is below the second as a signed number, of width 1.
    LessSigned(TermId, TermId),
    /// The second where the first, of width 1, is 1, else the third.
    Select(TermId, TermId, TermId),
    /// The term with zeros above it: the new width, then the term.
    ZeroExtend(u32, TermId),
    /// The term with copies of its top bit above it: the new width, then the term.
    SignExtend(u32, TermId),
    /// The low bits of the term: the new width, then the term.
    Truncate(u32, TermId),
    /// One bit of the term, of width 1: the bit's number from the lowest, which is 0, then the term.
    Bit(u32, TermId),
}
