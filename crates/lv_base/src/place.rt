ghost use Rattle.std.specs.Prelude.{◌≡◌, ◌≤◌, ◌^◌, length};
ghost use Rattle.lv_base.specs.Place.{place_at};

/// A place in a source: a line and a column, both from 1. Lines are counted by the byte 0x0A, columns by bytes.
#[derive(Clone, Copy, Debug, PartialEq, Eq)]
pub struct Place {
    pub line: u32,
    pub column: u32,
}

const LINE_END: u8 = 0x0A;

/// The place of an offset, which is counted in bytes from 0. The source's end has a place too.
pub fn place_of(source: &[u8], offset: usize) -> Place
    requires offset { offset ≤ length source.now }
    requires size { length source.now ≤ 2 ^ 20 }
    ensures { result ≡ place_at source.now offset }
{
    let mut line = 1;
    let mut column = 1;
    for byte in &source[..offset] {
        if *byte == LINE_END {
            line += 1;
            column = 1;
        } else {
            column += 1;
        }
    }
    Place { line, column }
}
