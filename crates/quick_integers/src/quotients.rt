ghost use Rattle.std.specs.Prelude.{◌≡◌, ◌≢◌, pos, int_div, int_rem};
ghost use Rattle.lv_base.specs.Integers.{InAny};

// The greatest number that a division of 64 bits takes.
const MOST: i128 = 18_446_744_073_709_551_615;

/// The quotient, cut towards zero: of 64 bits where neither operand is negative, since one of 128 bits calls a library.
#[inline(always)]
pub fn cut_quotient(left: i128, right: i128) -> i128
    requires left { InAny left }
    requires right { right ≢ pos 0 }
    ensures { result ≡ int_div left right }
{
    if 0 <= left && left <= MOST && 0 <= right && right <= MOST {
        return (left as u64 / right as u64) as i128;
    }
    left / right
}

/// What that quotient leaves.
#[inline(always)]
pub fn cut_remainder(left: i128, right: i128) -> i128
    requires left { InAny left }
    requires right { right ≢ pos 0 }
    ensures { result ≡ int_rem left right }
{
    if 0 <= left && left <= MOST && 0 <= right && right <= MOST {
        return (left as u64 % right as u64) as i128;
    }
    left % right
}
