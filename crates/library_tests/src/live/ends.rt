//! What is opened over a recorder, and what its end leaves.

use dfr_live::{Ended, Inner, OpenFault, Opened, Session, Source, Token, end, open};
use dfr_recorder::Recorder;
use std::alloc::{Allocator, Global};

pub fn opened<A: Allocator + Copy>(
    alloc: A,
    recorder: Option<Recorder<A>>,
    lane: usize,
    seats: u32,
) -> Option<Opened<A>> {
    match recorder {
        Some(recorder) => open(alloc, recorder, lane, seats).ok(),
        None => None,
    }
}

/// Why it isn't opened, and the recorder that comes back.
pub fn given_back<A: Allocator + Copy>(
    alloc: A,
    recorder: Option<Recorder<A>>,
    lane: usize,
    seats: u32,
) -> Option<(OpenFault, Recorder<A>)> {
    match recorder {
        Some(recorder) => open(alloc, recorder, lane, seats).err(),
        None => None,
    }
}

/// What is left, where the end is Ok.
pub fn ended<N: Session<Global>>(
    alloc: Global,
    inner: Inner<N>,
    source: Source<N>,
    tokens: Vec<Token>,
) -> Option<Ended> {
    end(alloc, inner, source, tokens).ok()
}
