//! Sums of a channel's samples over a window.

ghost use Rattle.std.specs.Prelude.{◌≡◌, ◌+◌, ◌*◌, ◌^◌, ◌<◌, ◌≤◌, length, unsigned_abs, ◌+ℤ◌};
ghost use Rattle.comtrade_analysis.specs.Sums as spec;

use crate::readings::sample_at;
use crate::window::Window;
use comtrade_format::Row;
use std::alloc::Allocator;

/// The samples of a channel in a window: how many there are, their sum, the sum of their squares.
/// They are raw samples: the value of a sample x is a·x + b.
#[derive(Clone, Copy, Debug, PartialEq, Eq)]
pub struct Sums {
    pub count: u64,
    pub sum: i128,
    pub squares: u128,
}

/// The square of a sample.
fn square_of(sample: i32) -> u64
    ensures value { result ≡ spec.square sample }
    ensures small { result ≤ 2 ^ 62 }
{
    let size = sample.unsigned_abs() as u64;
    size * size
}

impl Sums {
    /// The sums with one more sample.
    fn with(self, sample: i32) -> Sums
        requires small { spec.IsSmall self }
        requires room { self.count + 1 < 2 ^ 64 }
        ensures small { spec.IsSmall result }
        ensures count { result.count ≡ self.count + 1 }
        ensures sum { result.sum ≡ self.sum +ℤ sample }
        ensures squares { result.squares ≡ self.squares + spec.square sample }
    {
        Sums {
            count: self.count + 1,
            sum: self.sum + sample as i128,
            squares: self.squares + square_of(sample) as u128,
        }
    }
}

/// The sums of an analogue channel, counted from 0, over the rows of a window. Missing readings are
/// left out.
pub fn sums_over<A: Allocator>(rows: &[Row<A>], channel: usize, window: Window) -> Sums
    requires { window.first + window.rows ≤ length rows.now }
    ensures { spec.AreSums (spec.present rows.now channel window.first window.rows) result }
{
    let mut sums = Sums {
        count: 0,
        sum: 0,
        squares: 0,
    };
    for i in 0..window.rows {
        if let Some(sample) = sample_at(rows, channel, window.first + i) {
            sums = sums.with(sample);
        }
    }
    sums
}
