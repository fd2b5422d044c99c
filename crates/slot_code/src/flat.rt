use c_tree::{BinaryOp, Crement};
use lv_base::{ErrorKind, Kind};

/// One instruction. Slots hold values and are named by their numbers; places are numbers of instructions. The first number is
/// the slot that an instruction works on: it holds the operand, and then the value; a second and a third operand stand in
/// the slots behind it. What goes on goes to the next place, and a skip is the number of instructions that are left out
/// there. `u32` are objects, and offsets of tokens, by their names in the variants' comments.
#[derive(Clone, Copy)]
pub enum Instruction {
    /// A constant.
    Constant(usize, i128),
    /// A scalar object is read.
    Read(usize, u32),
    /// An element is read: the `[`, the array, how many elements it has. The operand is the index.
    Element(usize, u32, u32, usize),
    /// An index is found to be one of an array: the `[`, the array, how many elements it has.
    Locate(usize, u32, u32, usize),
    /// The element of an object is read whose index is in the slot, into the next slot.
    Load(usize, u32),
    /// The second operand is written into the element of an object whose index is the first.
    Store(usize, u32),
    Convert(usize, Kind),
    /// A minus in a kind: the operator.
    Negate(usize, Kind, u32),
    /// A `~` in a kind: the operator.
    Complement(usize, Kind, u32),
    /// 1 where the operand is 0, else 0.
    Not(usize),
    /// 0 where the operand is 0, else 1.
    Truth(usize),
    /// An operation on two operands in a kind: the operator.
    Binary(usize, BinaryOp, Kind, u32),
    /// `op=`: the operation, its kind, the target's kind, the operator, the object. The operands are the index of the
    /// element, the value that it had, and the right side.
    Update(usize, BinaryOp, Kind, Kind, u32, u32),
    /// `++` or `--`: whether it stands before its operand, the operand's kind, the operator, the object. The operand is the
    /// index of the element.
    Change(usize, bool, Crement, Kind, u32, u32),
    /// The next input, of a kind.
    Draw(usize, Kind),
    /// All elements of an object are drawn: the object, its kind, how many elements it has.
    Fill(u32, Kind, usize),
    /// An object gets its initial values: the object, how many elements it has, how many values stand in this slot and behind
    /// it. The other elements are 0.
    Begin(usize, u32, usize, usize),
    /// A parameter gets the value of its argument: the object.
    Bind(usize, u32),
    /// A skip.
    Jump(u32),
    /// A skip, where the operand is 0.
    SkipZero(usize, u32),
    /// A skip, where the operand is this value.
    SkipEqual(usize, i128, u32),
    /// Takes a turn and goes to a place: the offset of what asks for the turn, the place.
    Turn(u32, usize),
    /// A call: the called name, the first place of the function, and the slot that gets the place to return to. Takes a turn.
    Call(u32, usize, usize),
    /// What a call gave, out of the two slots behind the one of its place to return to: the called name, that slot, and
    /// whether there has to be a value.
    Take(usize, u32, usize, bool),
    /// Goes to the place that the slot holds.
    Return(usize),
    /// The run ends with an error at an offset.
    Fail(ErrorKind, u32),
    /// The run ends.
    Stop,
}
