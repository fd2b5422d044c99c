//! When the search starts over: the numbers of conflicts between two restarts are multiples of the sequence 1, 1, 2, 1, 1,
//! 2, 4, .. of M. Luby, A. Sinclair and D. Zuckerman (1993), in the form of D. Knuth's reluctant doubling.

ghost use Rattle.std.specs.Prelude.{◌≡◌, ℕ, ◌*◌, ◌%◌, ◌<◌, ◌&&◌, nat_eq, nat_lt};
ghost use Rattle.cdcl_solver.specs.Pacing.{paced};

// The factor of the sequence.
const UNIT: u32 = 100;

const MOST_SIZE: u32 = 1_048_576;

const MOST_TURNS: u32 = 0xffff_ffff;

/// How many conflicts are still to come before the next restart, and where the sequence stands.
#[derive(Clone, Copy)]
pub struct Pace {
    /// How often the sequence fell back to 1, counted from 1.
    pub turn: u32,
    /// The number of the sequence, a power of two.
    pub size: u32,
    /// The conflicts before the next restart.
    pub left: u32,
}

// Whether the next number of the sequence is twice this one.
#[inline]
fn is_doubled(pace: Pace) -> bool
    requires { 0 < pace.size }
    ensures { result ≡ (nat_lt pace.size 1048576 && nat_eq (pace.turn % (2 * pace.size)) 0) }
{
    pace.size < MOST_SIZE && pace.turn % (2 * pace.size) == 0
}

/// The pace after a conflict.
pub fn paced(pace: Pace) -> Pace
    requires { 0 < pace.size }
    ensures value { result ≡ paced pace }
    ensures some { 0 < result.size }
{
    if pace.left > 0 {
        return Pace {
            turn: pace.turn,
            size: pace.size,
            left: pace.left - 1,
        };
    }
    if is_doubled(pace) {
        return Pace {
            turn: pace.turn,
            size: 2 * pace.size,
            left: UNIT * (2 * pace.size),
        };
    }
    let turn = if pace.turn < MOST_TURNS {
        pace.turn + 1
    } else {
        1
    };
    Pace {
        turn,
        size: 1,
        left: UNIT,
    }
}
