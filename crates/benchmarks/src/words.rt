//! The numbers of a line of words.

use anyhow::{Context, Result};
use std::str::Split;

/// The next number.
pub fn number(words: &mut Split<'_, char>) -> Result<u64> {
    let word = words.next().context("a number is missing")?;
    word.parse::<u64>().ok().context("no number of 64 bits")
}

/// The next number, of 32 bits.
pub fn small(words: &mut Split<'_, char>) -> Result<u32> {
    u32::try_from(number(words)?)
        .ok()
        .context("no number of 32 bits")
}
