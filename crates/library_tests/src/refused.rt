//! Tests that refuse each allocation of a call in turn: the call then answers `Memory` and has changed nothing, unless another
//! allocation made up for it or its input has a fault; and the same call with enough memory is answered as if nothing had been refused.

mod channels;
pub mod common;
pub mod files;
mod live_calls;
mod live_ends;
mod live_play;
mod live_runs;
mod lost;
mod pairs;
mod program;
mod reading;
mod reading_back;
mod recorder;
mod recorder_calls;
mod records;
mod refusing;
mod runs;
mod script;
mod token_calls;
mod unshared;
mod writers;
