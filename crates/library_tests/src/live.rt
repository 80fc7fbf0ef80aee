//! Tests of recorders that threads share: the calls of one thread, tokens that don't belong, runs in threads, and stations over a feed
//! in memory.

pub mod acts;
pub mod ends;
mod gate;
mod handed;
mod lent;
mod load;
mod losses;
mod one_thread;
mod opening;
pub mod parts;
mod play;
mod progress;
mod runs;
mod station;
mod stations;
mod three_threads;
mod tokens;
