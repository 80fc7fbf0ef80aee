//! The input's bytes that were read and wait to be used.

ghost use Rattle.std.specs.Prelude.{◌≡◌, ◌⊎◌, ◌≤◌, ◌<◌, ◌-◌, IfOk, MatchBool, [], length, take, drop};
ghost use Rattle.dfr_station.specs.Input as spec;
ghost use Rattle.rtrb.specs.Ring.{received, known_items};

use crate::reading::{Given, read_some};
use rtrb::Consumer;
use std::alloc::{AllocError, Allocator, Global};
use std::io::Read;
use std::marker::Model;
use std::sync::Wait;
use std::time::Clock;

/// The most bytes that wait, and are read at once.
pub const ROOM: usize = 65_536;

/// The bytes that wait: those of `bytes` from `from` to `end`.
#[derive(Drop)]
pub struct Buffer<A: Allocator = Global> {
    bytes: Vec<u8, A>,
    from: usize,
    end: usize,
}

impl<A: Allocator> Model for Buffer<A> {
    ghost use Rattle.std.specs.Prelude.{◌≡◌, ◌≤◌, ◌-◌, List, ℕ, length, take, drop};

    ghost Value = { List ℕ };

    ghost view = { λ b. take (b.end - b.from) (drop b.from b.bytes.items) };

    ghost invariant = { λ b. (b.from ≤ b.end) × (b.end ≤ 65_536) × (length b.bytes.items ≡ 65_536) };
}

impl<A: Allocator> Buffer<A> {
    /// An empty buffer.
    pub fn new(alloc: A) -> Result<Buffer<A>, AllocError>
        ensures { IfOk result (λ buffer. buffer ≡ []) }
    {
        Ok(Buffer {
            bytes: vec![in alloc; 0u8; ROOM]?,
            from: 0,
            end: 0,
        })
    }

    /// The bytes that wait.
    pub fn waiting(&self) -> &[u8]
        ensures bytes { result.now ≡ self.now }
        ensures few { length result.now ≤ 65_536 }
    {
        &self.bytes[self.from..self.end]
    }

    /// Whether there is no room for more bytes.
    pub(crate) fn is_full(&self) -> bool
        ensures { MatchBool result (length self.now ≡ 65_536) (length self.now < 65_536) }
    {
        self.end - self.from == ROOM
    }

    /// Drops the first bytes that wait.
    pub fn use_up(&mut self, count: usize)
        requires { count ≤ length self.old }
        ensures { self.new ≡ drop count self.old }
    {
        self.from += count;
    }

    /// Takes bytes from a queue, after those that wait, until there is no room or none was left.
    /// Returns how many.
    pub fn take_from(&mut self, queue: &mut Consumer<u8>) -> usize
        ensures bytes { spec.Takes (received queue.old) self.old result self.new (received queue.new) }
        ensures most { (length self.new ≡ 65_536) ⊎ (length (known_items queue.new) ≡ 0) }
    {
        self.end = move_up(&mut self.bytes, self.from, self.end);
        self.from = 0;
        let count = queue.pop_partial_slice(&mut self.bytes[self.end..]);
        self.end += count;
        count
    }

    /// Reads once, after the bytes that wait. There must be room.
    pub(crate) fn fill<I: Read, R: Wait + Clock>(&mut self, rt: &R, input: &mut I) -> Given
        requires { length self.old < 65_536 }
        ensures { spec.Fills I.remaining self.old input.old result self.new input.new }
    {
        self.end = move_up(&mut self.bytes, self.from, self.end);
        self.from = 0;
        let given = read_some(rt, input, &mut self.bytes[self.end..]);
        self.end += given.count();
        given
    }
}

/// Moves the bytes from `from` to `end` to the front. Returns their number.
fn move_up(bytes: &mut [u8], from: usize, end: usize) -> usize
    requires within { (from ≤ end) × (end ≤ length bytes.old) }
    ensures count { result ≡ end - from }
    ensures moved { take (end - from) bytes.new ≡ take (end - from) (drop from bytes.old) }
{
    if from > 0 {
        bytes.copy_within(from..end, 0);
    }
    end - from
}
