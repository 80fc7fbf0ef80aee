//! Single calls of the recorder, the writers and the reader, with 32 analogue and 64 status channels.

pub mod clock;
mod files;
mod recorders;
mod station;

use crate::amount::Amount;
use anyhow::Result;
use std::alloc::AllocGlobal;
use std::rt::Clock;

pub fn measure<R: Clock + Print + AllocGlobal>(rt: &R, amount: Amount) -> Result<()> {
    recorders::measure(rt, amount)?;
    files::measure(rt, amount)
}
