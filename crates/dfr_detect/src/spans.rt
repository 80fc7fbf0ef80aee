//! The times of the last cycles, and their sum.

use circular_buffer::HeapCircularBuffer;
use comtrade_values::Memory;
use std::alloc::{Allocator, Global};
use std::marker::Model;

/// The times of the last cycles, the newest first. Contracts see them, and how many places there
/// are. Their sum is kept up to date.
#[derive(Drop)]
pub(crate) struct Spans<A: Allocator = Global> {
    ring: HeapCircularBuffer<u64, A>,
    total: u64,
}

impl<A: Allocator> Model for Spans<A> {
    ghost use Rattle.std.specs.Prelude.{ℕ};
    ghost use Rattle.circular_buffer.specs.Buffer.{Buffer, buffer};
    ghost use Rattle.dfr_detect.specs.Paces.{IsTimes};

    ghost Value = { Buffer ℕ };

    ghost view = { λ a. buffer a.ring.items a.ring.capacity };

    ghost invariant = { λ a. IsTimes a.ring.items a.ring.capacity a.total };
}

impl<A: Allocator> Spans<A> {
    ghost use Rattle.std.specs.Prelude.{◌≡◌, ◌≤◌, ◌^◌, [], ◌∷◌, sum, slice_get, IfOk, IfSome};
    ghost use Rattle.circular_buffer.specs.Buffer.{buffer};
    ghost use Rattle.dfr_detect.specs.Paces.{pushed};

    /// No times, with this many places.
    pub(crate) fn with_places(alloc: A, places: usize) -> Result<Spans<A>, Memory>
        requires { places ≤ 64 }
        ensures { IfOk result (λ spans. spans ≡ buffer [] places) }
    {
        let ring = HeapCircularBuffer::with_capacity(alloc, places)?;
        Ok(Spans { ring, total: 0 })
    }

    /// Takes in a time. The oldest leaves if all places are filled.
    pub(crate) fn push(&mut self, time: u64) -> Option<u64>
        requires { time ≤ 2 ^ 33 }
        ensures after { self.new ≡ pushed time self.old }
        ensures left { result ≡ slice_get (time ∷ self.old.items) self.old.capacity }
        ensures bound { IfSome result (λ left. left ≤ 2 ^ 33) }
    {
        let leaving = self.ring.push_front(time);
        self.total += time;
        if let Some(oldest) = leaving {
            self.total -= oldest;
        }
        leaving
    }

    /// Drops all times.
    pub(crate) fn clear(&mut self)
        ensures { self.new ≡ buffer [] self.old.capacity }
    {
        self.ring.clear();
        self.total = 0;
    }

    /// The sum of the times.
    #[inline(always)]
    pub(crate) fn total(&self) -> u64
        ensures value { result ≡ sum self.now.items }
        ensures bound { result ≤ 2 ^ 39 }
    {
        self.total
    }
}
