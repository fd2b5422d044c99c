use lv_base::Text;

/// The keyword before a condition and a statement.
#[derive(Clone, Copy, Debug, PartialEq, Eq)]
pub enum Test {
    If,
    While,
    Switch,
}

/// `enum {` or `enum NAME {`, with the offsets of their tokens.
#[derive(Debug, Drop)]
pub enum EnumHead {
    Bare(u32, u32),
    Tagged(u32, Text, u32, u32),
}
