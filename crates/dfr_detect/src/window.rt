//! The last samples of a signal, and the sum of their squares.

ghost use Rattle.std.specs.Prelude.{◌≡◌};
ghost use Rattle.dfr_detect.specs.Windows as spec;

use crate::ring::Ring;
use comtrade_values::Memory;
use std::alloc::{Allocator, Global};
use std::marker::Model;

/// The last samples of a signal, the newest first. Contracts see them, and how many places there
/// are. The sum of their squares is kept up to date.
#[derive(Drop)]
pub(crate) struct Window<A: Allocator = Global> {
    ring: Ring<i64, A>,
    squares: u128,
}

impl<A: Allocator> Model for Window<A> {
    ghost use Rattle.std.specs.Prelude.{ℤ};
    ghost use Rattle.circular_buffer.specs.Buffer.{Buffer, buffer};
    ghost use Rattle.dfr_detect.specs.Sums.{IsSummed};

    ghost Value = { Buffer ℤ };

    ghost view = { λ a. buffer a.ring.items a.ring.capacity };

    ghost invariant = { λ a. IsSummed a.ring.items a.ring.capacity a.squares };
}

/// The square of a sample.
#[inline(always)]
fn square(x: i64) -> u128
    ensures { result ≡ spec.square x }
{
    let size = u128::from(x.unsigned_abs());
    size * size
}

impl<A: Allocator> Window<A> {
    ghost use Rattle.std.specs.Prelude.{◌≡◌, ◌≤◌, ◌<◌, ◌+◌, ◌^◌, ◌==◌, [], ◌∷◌, take, length, IfOk, unsigned_abs};
    ghost use Rattle.circular_buffer.specs.Buffer.{buffer};
    ghost use Rattle.dfr_detect.specs.Windows.{sum_of_squares, ago};

    /// An empty window with this many places.
    pub(crate) fn with_places(alloc: A, places: usize) -> Result<Window<A>, Memory>
        requires { places ≤ 2 ^ 18 }
        ensures { IfOk result (λ window. window ≡ buffer [] places) }
    {
        let ring = Ring::with_capacity(alloc, places, 0)?;
        Ok(Window { ring, squares: 0 })
    }

    /// Takes in a sample. The oldest leaves if all places are filled.
    #[inline(always)]
    pub(crate) fn push(&mut self, x: i64)
        requires { unsigned_abs x ≤ 2 ^ 39 }
        ensures { self.new ≡ buffer (take self.old.capacity (x ∷ self.old.items)) self.old.capacity }
    {
        let leaving = self.ring.push_front(x);
        self.squares += square(x);
        if let Some(oldest) = leaving {
            self.squares -= square(oldest);
        }
    }

    /// Drops all samples.
    pub(crate) fn clear(&mut self)
        ensures { self.new ≡ buffer [] self.old.capacity }
    {
        self.ring.clear();
        self.squares = 0;
    }

    /// Whether all places are filled.
    #[inline(always)]
    pub(crate) fn is_full(&self) -> bool
        ensures { result ≡ (length self.now.items == self.now.capacity) }
    {
        self.ring.is_full()
    }

    /// The sum of the squares of the samples.
    #[inline(always)]
    pub(crate) fn squares(&self) -> u128
        ensures value { result ≡ sum_of_squares self.now.items }
        ensures bound { result ≤ 2 ^ 96 }
    {
        self.squares
    }

    /// The sample this many scans before the newest, 0 if there is none.
    #[inline(always)]
    pub(crate) fn ago(&self, n: usize) -> i64
        ensures value { result ≡ ago n self.now.items }
        ensures bound { unsigned_abs result ≤ 2 ^ 39 }
    {
        match self.ring.get(n) {
            Some(x) => x,
            None => 0,
        }
    }
}
