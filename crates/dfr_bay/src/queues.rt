//! The samples of several streams that wait until their scans are complete.

ghost use Rattle.std.specs.Prelude.{◌≡◌, ◌<◌, ◌≤◌, ◌+◌, [], ◌++◌, length, map, replicate, slice_set, vec_len, vec_capacity, Some, None, IfOk};
ghost use Rattle.std.specs.List.{All};
ghost use Rattle.circular_buffer.specs.Buffer.{buffer};
ghost use Rattle.dfr_bay.specs.Waiting as spec;

use circular_buffer::HeapCircularBuffer;
use std::alloc::{AllocError, Allocator, Global};

/// The samples of a stream that wait, the oldest first; None where one is lost.
pub(crate) type Queue<T, A = Global> = HeapCircularBuffer<Option<T>, A>;

/// Empty queues, each with room for one sample more than the limit.
pub(crate) fn empty_queues<T: Drop, A: Allocator + Copy>(
    alloc: A,
    streams: usize,
    limit: usize,
) -> Result<Vec<Queue<T, A>, A>, AllocError>
    requires { limit ≤ 65_536 }
    ensures { IfOk result (λ v. v.items ≡ replicate streams (buffer [] (limit + 1))) }
{
    let mut queues = Vec::with_capacity(alloc, streams)?;
    for _i in 0..streams {
        let queue = HeapCircularBuffer::with_capacity(alloc, limit + 1)?;
        queues.push(queue)?;
    }
    Ok(queues)
}

/// A queue gets a sample at its end.
pub(crate) fn enter<T: Drop, A: Allocator>(
    queues: &mut [Queue<T, A>],
    limit: usize,
    stream: usize,
    sample: Option<T>,
)
    requires within { stream < length queues.old }
    requires waits { All (spec.Waits limit) queues.old }
    ensures { queues.new ≡ spec.entered limit stream sample queues.old }
{
    let _ = queues[stream].push_back(sample);
}

/// Whether each queue has a sample.
fn all_wait<T: Drop, A: Allocator>(queues: &[Queue<T, A>]) -> bool
    ensures { result ≡ spec.all_wait queues.now }
{
    for queue in queues {
        if queue.is_empty() {
            return false;
        }
    }
    true
}

/// Whether a queue has more samples than the limit.
fn one_waits_long<T: Drop, A: Allocator>(queues: &[Queue<T, A>], limit: usize) -> bool
    ensures { result ≡ spec.one_waits_long limit queues.now }
{
    for queue in queues {
        if queue.len() > limit {
            return true;
        }
    }
    false
}

/// Whether the first scan is complete.
pub(crate) fn is_ready<T: Drop, A: Allocator>(queues: &[Queue<T, A>], limit: usize) -> bool
    ensures { result ≡ spec.is_ready limit queues.now }
{
    all_wait(queues) || one_waits_long(queues, limit)
}

/// The oldest sample leaves.
fn pop<T: Drop, A: Allocator>(queue: &mut Queue<T, A>) -> Option<T>
    ensures value { result ≡ spec.head queue.old }
    ensures rest { queue.new ≡ spec.popped queue.old }
{
    match queue.pop_front() {
        Some(sample) => sample,
        None => None,
    }
}

/// The first scan leaves, and its samples are appended to those before, which have room for them.
pub(crate) fn pop_scan<T: Drop, A: Allocator>(
    queues: &mut [Queue<T, A>],
    scans: &mut Vec<Option<T>, A>,
)
    requires { vec_len scans.old + length queues.old ≤ vec_capacity scans.old }
    ensures scans { scans.new.items ≡ scans.old.items ++ map spec.head queues.old }
    ensures queues { queues.new ≡ map spec.popped queues.old }
    ensures room { vec_capacity scans.new ≡ vec_capacity scans.old }
{
    for queue in queues.iter_mut() {
        scans.push_reserved(pop(queue));
    }
}
