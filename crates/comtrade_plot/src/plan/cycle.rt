//! The length of a cycle of the line frequency.

ghost use Rattle.std.specs.Prelude.{◌≤ℤ◌, pos};

/// The lengths of a cycle at 10,000 Hz and at 0.1 Hz, in nanoseconds.
const SHORTEST: i64 = 100_000;

const LONGEST: i64 = 10_000_000_000;

/// The length of a cycle, in nanoseconds. So that some hundred cycles are a number of 64 bits, a
/// line frequency is from 0.1 to 10,000 Hz.
#[derive(Clone, Copy, Debug)]
pub struct Cycle {
    pub nanos: i64,
    ghost shortest: { pos 100000 ≤ℤ nanos },
    ghost longest: { nanos ≤ℤ pos 10000000000 },
}

impl Cycle {
    /// A cycle of 50 Hz: the length for a file without a line frequency.
    pub fn usual() -> Cycle {
        Cycle { nanos: 20_000_000 }
    }

    /// The cycle of this length; None where no line frequency has it.
    pub fn of(nanos: i64) -> Option<Cycle> {
        if SHORTEST <= nanos && nanos <= LONGEST {
            Some(Cycle { nanos })
        } else {
            None
        }
    }
}
