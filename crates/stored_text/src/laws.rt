//! Laws of run files, each as the contract of a function that does nothing.

ghost use Rattle.stored_text.specs.Laws.{RunTextIsRead, RefusedAtTheFirstByte, OverIsNamed, WrittenIsRead};

/// A file is read to some values exactly where it is their run text, and they are at most a million.
pub fn run_text_is_read()
    ensures { RunTextIsRead }
{}

/// A refusal by form names the first byte with which no run text goes on, or the file's length where its end is too early.
pub fn refused_at_the_first_byte()
    ensures { RefusedAtTheFirstByte }
{}

/// A file is refused by the limit exactly where it has too many bytes, or where a million values stand before one more.
pub fn over_is_named()
    ensures { OverIsNamed }
{}

/// What is written of values is read back as these values.
pub fn written_is_read()
    ensures { WrittenIsRead }
{}
