//! The lane and the recording in three threads, with 32 analogue and 64 status channels.

mod lane;
mod threads;
mod times;

use crate::amount::Amount;
use anyhow::Result;
use std::alloc::AllocGlobal;
use std::rt::Clock;
use std::sync::Wait;
use std::thread::Threads;

pub fn measure<R: Wait + Threads + Sync + Clock + Print + AllocGlobal>(
    rt: &R,
    amount: Amount,
) -> Result<()> {
    lane::measure(rt, amount)?;
    threads::measure(rt, amount)
}
