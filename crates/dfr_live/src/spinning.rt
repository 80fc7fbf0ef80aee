//! The pace of a recording that ends soon: its threads never sleep.

use crate::devices::Pace;
use crate::report::LiveFault;
use std::{hint, thread};

/// How many idle turns a thread spins, each a little longer than the one before. After them it
/// yields the processor at each turn.
const SPINNING_TURNS: u64 = 32;

/// A thread spins while it is idle, for fewer than so many turns in a row. Where an allocation
/// fails, the recording ends.
#[derive(Clone, Copy, Debug)]
pub(crate) struct Spinning {
    pub(crate) turns: u64,
}

impl Pace for Spinning {
    ghost use Rattle.std.specs.Prelude.{◌≡◌, IfErr};

    fn idle(&self, turns: u64) -> Result<(), LiveFault> {
        if turns >= self.turns {
            return Err(LiveFault::Turns);
        }
        if turns > SPINNING_TURNS {
            thread::yield_now();
            return Ok(());
        }
        for _ in 0..turns {
            hint::spin_loop();
        }
        Ok(())
    }

    fn short(&self) -> Result<(), LiveFault> {
        Err(LiveFault::Memory)
    }
}
