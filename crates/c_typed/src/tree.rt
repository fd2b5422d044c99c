use c_tree::{BinaryOp, Crement};
use lv_base::{Kind, Text};

/// A value. Each has a kind, and each conversion is a node. Objects and functions are numbers; `u32` besides these are
/// offsets of tokens, by their names in the variants' comments.
#[cycle(value)]
#[derive(Drop)]
pub enum Value {
    /// A constant, a size, or a constant of an enumeration.
    Constant(Kind, i128),
    /// A scalar object.
    Read(Kind, u32),
    /// An element that is read: the `[`, the array, the index.
    Element(Kind, u32, u32, Box<Value>),
    /// An array that stands by itself, which has no value.
    Whole(u32),
    /// A function's name that stands by itself, which has no value.
    Nothing,
    Convert(Kind, Box<Value>),
    /// A cast to void.
    Discard(Box<Value>),
    /// A minus, of a promoted operand: the operator.
    Negate(Kind, u32, Box<Value>),
    /// A `~`, of a promoted operand: the operator.
    Complement(Kind, u32, Box<Value>),
    Not(Box<Value>),
    /// An operation in a kind, on operands of this kind; the right operand of a shift has a kind of its own. The operator.
    /// `&&` and `||` have nodes of their own.
    Binary(BinaryOp, Kind, u32, Box<Value>, Box<Value>),
    /// `&&`
    Both(Box<Value>, Box<Value>),
    /// `||`
    Either(Box<Value>, Box<Value>),
    /// `?:`, whose arms have this kind, or are void.
    Cond(Option<Kind>, Box<Value>, Box<Value>, Box<Value>),
    /// `=`, with a right side of the target's kind: the operator.
    Assign(Kind, u32, Box<Target>, Box<Value>),
    /// `op=`: the operation, its kind, the target's kind, the operator.
    Update(BinaryOp, Kind, Kind, u32, Box<Target>, Box<Value>),
    /// `++` or `--`: whether it stands before its operand, the operand's kind, the operator.
    Change(bool, Crement, Kind, u32, Box<Target>),
    /// A call of a function with a body: its result, the called name, the `(`, the function, the converted arguments.
    Call(Option<Kind>, u32, u32, u32, Vec<Value>),
    /// A call of `reach_error`: the called name.
    Reach(u32),
    /// A call of `abort`.
    Abort,
    /// A drawn input of a kind.
    Draw(Kind),
    /// `a , b`: the operands but the last, and the last.
    Comma(Vec<Value>, Box<Value>),
}

/// What is assigned to.
#[cycle(value)]
#[derive(Drop)]
pub enum Target {
    /// A scalar object.
    Object(u32),
    /// An element: the `[`, the array, the index.
    Element(u32, u32, Box<Value>),
}

/// A statement, or the declaration of one object.
#[cycle(step)]
#[derive(Drop)]
pub enum Step {
    /// An object without an initial value, whose elements are drawn.
    Draw(u32),
    /// An object's initial values, of its kind; the rest of an array is 0.
    Begin(u32, Vec<Value>),
    Block(Vec<Step>),
    Empty,
    /// An expression whose value is not used.
    Effect(Box<Value>),
    If(Box<Value>, Box<Step>),
    IfElse(Box<Value>, Box<Step>, Box<Step>),
    /// The keyword, the condition, the body.
    While(u32, Box<Value>, Box<Step>),
    /// The keyword, the promoted kind of the value, the value, the body.
    Switch(u32, Kind, Box<Value>, Box<Step>),
    /// The keyword, the body, the condition.
    Do(u32, Box<Step>, Box<Value>),
    /// The keyword, what begins it, the condition, the third part, the body.
    For(u32, Vec<Step>, Option<Box<Value>>, Option<Box<Value>>, Box<Step>),
    /// The keyword and the value, which is converted to the kind of its switch.
    Case(u32, i128, Box<Step>),
    /// The keyword.
    Default(u32, Box<Step>),
    /// The name and its offset.
    Label(Text, u32, Box<Step>),
    /// The keyword, the name and its offset.
    Goto(u32, Text, u32),
    /// The keyword.
    Break(u32),
    /// The keyword.
    Continue(u32),
    /// The keyword, and a value of the function's result. In a void function, where it is a fault, the value stands as it is.
    Return(u32, Option<Box<Value>>),
}

/// Where an object lives: as long as the program, or in the function of this number.
#[derive(Clone, Copy, Debug, PartialEq, Eq)]
pub enum Owner {
    Static,
    Local(u32),
}

/// An object. `at` is the offset of its first declared name; a parameter without a name has an empty one, and the offset
/// of its first token. Length 0 is a scalar. `first` holds the initial values of a static object.
#[derive(Drop)]
pub struct Object {
    pub name: Text,
    pub at: u32,
    pub kind: Kind,
    pub length: u32,
    pub owner: Owner,
    pub first: Vec<i128>,
}

/// A function with a body: its name with the offset, its result, its parameters, which are objects, and its body.
#[derive(Drop)]
pub struct Function {
    pub name: Text,
    pub at: u32,
    pub result: Option<Kind>,
    pub parameters: Vec<u32>,
    pub body: Vec<Step>,
}
