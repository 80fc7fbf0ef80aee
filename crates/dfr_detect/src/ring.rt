//! The last values, in places that are used in turn.

ghost use Rattle.std.specs.Prelude.{◌≡◌, ◌≤◌, ◌<◌, ◌+◌, ◌-◌, ◌^◌, if◌then◌else◌, nat_lt};

use std::alloc::{AllocError, Allocator, Global};
use std::marker::Model;

/// The last values, the newest first. Contracts see them, and how many places there are. The newest
/// lies in the place before `next`, and the one before it in the place before that.
#[derive(Drop)]
pub(crate) struct Ring<T, A: Allocator = Global> {
    places: Vec<T, A>,
    next: usize,
    len: usize,
}

impl<T, A: Allocator> Model for Ring<T, A> {
    ghost use Rattle.std.specs.Prelude.{length};
    ghost use Rattle.circular_buffer.specs.Buffer.{Buffer, buffer};
    ghost use Rattle.dfr_detect.specs.Rings.{ring_items, IsRing};

    ghost Value = { Buffer T };

    ghost view = { λ a. buffer (ring_items a.places.items a.next a.len) (length a.places.items) };

    ghost invariant = { λ a. IsRing a.places.items a.next a.len };
}

/// The place whose turn it is.
#[inline(always)]
fn turn(next: usize, places: usize) -> usize
    requires some { 1 ≤ places }
    ensures value { result ≡ (if nat_lt next places then next else 0) }
    ensures bound { result < places }
{
    if next < places { next } else { 0 }
}

/// The place of the value so many before the newest.
#[inline(always)]
fn back(next: usize, places: usize, index: usize) -> usize
    requires next { next ≤ places }
    requires index { index < places }
    requires few { places < 2 ^ 63 }
    ensures value { result ≡ (if nat_lt index next then next - 1 - index else next + places - 1 - index) }
    ensures bound { result < places }
{
    if index < next {
        next - 1 - index
    } else {
        next + (places - 1 - index)
    }
}

impl<T: Copy, A: Allocator> Ring<T, A> {
    ghost use Rattle.std.specs.Prelude.{◌≡◌, ◌==◌, [], ◌∷◌, take, length, slice_get, IfOk};
    ghost use Rattle.circular_buffer.specs.Buffer.{buffer};

    /// No values, with this many places, which are filled with a value until their turn comes.
    pub(crate) fn with_capacity(
        alloc: A,
        capacity: usize,
        value: T,
    ) -> Result<Ring<T, A>, AllocError>
        ensures { IfOk result (λ ring. ring ≡ buffer [] capacity) }
    {
        let places = vec![in alloc; value; capacity]?;
        Ok(Ring {
            places,
            next: 0,
            len: 0,
        })
    }

    /// Takes in a value. The oldest leaves if all places are filled.
    #[inline(always)]
    pub(crate) fn push_front(&mut self, x: T) -> Option<T>
        ensures items { self.new ≡ buffer (take self.old.capacity (x ∷ self.old.items)) self.old.capacity }
        ensures value { result ≡ slice_get (x ∷ self.old.items) self.old.capacity }
    {
        let capacity = self.places.len();
        if capacity == 0 {
            return Some(x);
        }
        let at = turn(self.next, capacity);
        let oldest = self.places[at];
        self.places[at] = x;
        self.next = at + 1;
        if self.len == capacity {
            return Some(oldest);
        }
        self.len += 1;
        None
    }

    /// Drops all values.
    pub(crate) fn clear(&mut self)
        ensures { self.new ≡ buffer [] self.old.capacity }
    {
        self.next = 0;
        self.len = 0;
    }

    /// How many places there are.
    #[inline(always)]
    pub(crate) fn capacity(&self) -> usize
        ensures { result ≡ self.now.capacity }
    {
        self.places.len()
    }

    /// Whether all places are filled.
    #[inline(always)]
    pub(crate) fn is_full(&self) -> bool
        ensures { result ≡ (length self.now.items == self.now.capacity) }
    {
        self.len == self.places.len()
    }

    /// The value so many before the newest, if there is one.
    #[inline(always)]
    pub(crate) fn get(&self, index: usize) -> Option<T>
        ensures { result ≡ slice_get self.now.items index }
    {
        if index >= self.len {
            return None;
        }
        Some(self.places[back(self.next, self.places.len(), index)])
    }
}
