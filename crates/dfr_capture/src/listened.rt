//! A control block and its newest message.

ghost use Rattle.std.specs.Prelude.{◌≡◌, map, IfOk};
ghost use Rattle.dfr_capture.specs.Listening as spec;

use crate::plan::Block;
use dfr_bus::Goose;
use std::alloc::{AllocError, Allocator};

/// The newest message of a control block.
#[derive(Clone, Copy, Debug, PartialEq, Eq)]
pub struct Heard {
    /// The number of its state.
    pub state: u32,
    /// Its time to live, in milliseconds.
    pub live: u32,
    /// The nanosecond at which it came.
    pub time: u64,
    /// Whether the end of its time to live is reported.
    pub is_told: bool,
}

/// A control block and its newest message, once one came.
#[derive(Clone, Copy, Debug, PartialEq, Eq)]
pub struct Listened {
    /// The control block.
    pub block: Block,
    /// Its newest message.
    pub heard: Option<Heard>,
}

/// A control block of which no message came.
fn unheard(block: Block) -> Listened
    ensures { result ≡ spec.unheard block }
{
    Listened { block, heard: None }
}

/// Control blocks of which no message came.
pub(crate) fn all_unheard<A: Allocator + Copy>(
    alloc: A,
    blocks: &[Block],
) -> Result<Vec<Listened, A>, AllocError>
    ensures { IfOk result (λ v. v.items ≡ map spec.unheard blocks.now) }
{
    let mut listened = Vec::new(alloc);
    for block in blocks {
        listened.push(unheard(*block))?;
    }
    Ok(listened)
}

/// Whether a time to live is over that wasn't reported.
pub(crate) fn is_over(time: u64, heard: Option<Heard>) -> bool
    ensures { result ≡ spec.is_over time heard }
{
    match heard {
        None => false,
        Some(heard) => {
            let end = u128::from(heard.time) + u128::from(heard.live) * 1_000_000;
            !heard.is_told && end < u128::from(time)
        }
    }
}

/// The same message, whose end is reported.
fn told(heard: Option<Heard>) -> Option<Heard>
    ensures { result ≡ spec.told heard }
{
    match heard {
        None => None,
        Some(heard) => Some(Heard {
            is_told: true,
            ..heard
        }),
    }
}

/// A control block at this time.
pub(crate) fn passed_block(time: u64, listened: Listened) -> Listened
    ensures { result ≡ spec.passed_block time listened }
{
    if is_over(time, listened.heard) {
        Listened {
            heard: told(listened.heard),
            ..listened
        }
    } else {
        listened
    }
}

/// A message that came at this nanosecond.
pub(crate) fn heard_at(time: u64, goose: &Goose) -> Heard
    ensures { result ≡ spec.heard_at time goose.now }
{
    Heard {
        state: goose.st_num,
        live: goose.time_allowed_to_live,
        time,
        is_told: false,
    }
}

/// Whether the states of a message aren't taken.
pub(crate) fn is_doubtful(goose: &Goose) -> bool
    ensures { result ≡ spec.is_doubtful goose.now }
{
    goose.test || goose.nds_com || goose.reserved_1 >= 32768
}
