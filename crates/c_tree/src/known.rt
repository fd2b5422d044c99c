/// Whether `signed` or `unsigned` stands among the words of a type.
#[derive(Clone, Copy, Debug, PartialEq, Eq)]
pub enum Signedness {
    Unstated,
    Signed,
    Unsigned,
}

/// Which of the words of a size stand among the words of a type.
#[derive(Clone, Copy, Debug, PartialEq, Eq)]
pub enum Size {
    Unstated,
    Char,
    Short,
    Long,
    LongLong,
}

/// What the words so far say of the type. `Named` is a typedef name or an enumeration.
/// The last part of `Basic` says whether `int` stands there.
#[derive(Clone, Copy, Debug, PartialEq, Eq)]
pub enum Typing {
    Untyped,
    Void,
    Bool,
    Named,
    Basic(Signedness, Size, bool),
}

/// What the words so far say of the storage.
#[derive(Clone, Copy, Debug, PartialEq, Eq)]
pub enum Storage {
    Unstated,
    Typedef,
    Other,
}

/// Where words of a declaration stand: at file scope, in a block or the beginning of a `for`, in a cast,
/// or in `sizeof` or as a parameter.
#[derive(Clone, Copy, Debug, PartialEq, Eq)]
pub enum Site {
    File,
    Block,
    Cast,
    Bare,
}

/// What the words so far say.
#[derive(Clone, Copy, Debug, PartialEq, Eq)]
pub struct Known {
    pub typing: Typing,
    pub storage: Storage,
}
