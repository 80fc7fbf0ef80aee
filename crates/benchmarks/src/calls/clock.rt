//! What a work took.

use crate::amount::Amount;
use std::io;
use std::rt::Clock;
use std::time::{Duration, Instant};

/// The least time of a work so far.
#[derive(Clone, Copy)]
pub struct Least(Option<Duration>);

impl Least {
    pub fn none() -> Least {
        Least(None)
    }

    pub fn add(&mut self, time: Duration) {
        self.0 = Some(match self.0 {
            Some(least) => least.min(time),
            None => time,
        });
    }

    /// Prints the nanoseconds of the least run, and what they are of.
    pub fn print<R: Print>(&self, rt: &R, amount: Amount, name: &str, of: u64) -> io::Result<()> {
        let Some(least) = self.0 else {
            return Ok(());
        };
        if amount.is_full {
            let nanos = least.as_nanos();
            println!(rt; "{name}: {nanos} ns for {of}")?;
        }
        Ok(())
    }
}

pub fn now<R: Clock>(rt: &R) -> io::Result<Instant> {
    Instant::now(rt)
}

/// What passed since a start; a start that failed is told only here, so that what is measured stands at no exit.
pub fn since<R: Clock>(rt: &R, start: io::Result<Instant>) -> io::Result<Duration> {
    start?.elapsed(rt)
}
