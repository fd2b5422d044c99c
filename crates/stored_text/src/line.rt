//! A line of a run file, byte by byte.

ghost use Rattle.std.specs.Prelude.{◌≡◌, ◌<◌, ◌^◌, IfSome};

const DIGITS_19: u128 = 10_000_000_000_000_000_000;

/// A line of a run file as far as it was read: whether it has its `-`, whether it has a digit, and their value.
#[derive(Clone, Copy)]
pub struct Line {
    pub negative: bool,
    pub empty: bool,
    pub value: u128,
}

/// What a byte makes of a line.
#[derive(Clone, Copy)]
pub enum Next {
    /// No spelling goes on with the byte.
    Refused,
    /// The byte begins a line more than there may be.
    Full,
    /// The line ends with this value.
    Value(i128),
    /// The line goes on.
    Part(Line),
}

impl Line {
    ghost use Rattle.stored_text.specs.Line.{fresh_line, is_fresh, line_step, line_value, next_of};
    ghost use Rattle.stored_text.specs.Small.{IsSmall};

    /// A line of which nothing was read.
    pub fn fresh() -> Line
        ensures { result ≡ fresh_line }
    {
        Line {
            negative: false,
            empty: true,
            value: 0,
        }
    }

    /// Whether nothing of it was read.
    pub fn is_fresh(&self) -> bool
        ensures { result ≡ is_fresh self.now }
    {
        !self.negative && self.empty
    }

    /// The line with one more byte, none where no value goes on so.
    pub fn step(&self, byte: u8) -> Option<Line>
        ensures step { result ≡ line_step self.now byte }
        ensures small { IfSome result (λ l. l.value < 10 ^ 20) }
    {
        if byte == b'-' {
            if self.negative || !self.empty {
                return None;
            }
            return Some(Line {
                negative: true,
                empty: true,
                value: 0,
            });
        }
        if byte < b'0' || byte > b'9' {
            return None;
        }
        if (!self.empty && self.value == 0) || self.value >= DIGITS_19 {
            return None;
        }
        if self.negative && self.empty && byte == b'0' {
            return None;
        }
        Some(Line {
            negative: self.negative,
            empty: false,
            value: self.value * 10 + (byte - b'0') as u128,
        })
    }

    /// The value that it spells, none where it has no digit or is `-0`.
    pub fn value(&self) -> Option<i128>
        requires { self.now.value < 10 ^ 20 }
        ensures { result ≡ line_value self.now }
    {
        if self.empty {
            return None;
        }
        let value = self.value as i128;
        if self.negative {
            Some(-value)
        } else {
            Some(value)
        }
    }

    /// What a byte makes of the line, where no further line may begin if `full`.
    pub fn next(&self, byte: u8, full: bool) -> Next
        requires { self.now.value < 10 ^ 20 }
        ensures next { result ≡ next_of full self.now byte }
        ensures small { IsSmall result }
    {
        if byte == b'\n' {
            return match self.value() {
                None => Next::Refused,
                Some(_) if full => Next::Full,
                Some(value) => Next::Value(value),
            };
        }
        match self.step(byte) {
            None => Next::Refused,
            Some(_) if full => Next::Full,
            Some(line) => Next::Part(line),
        }
    }
}
