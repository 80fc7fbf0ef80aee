//! The samples of a channel in a window, and the one farthest from 0.

ghost use Rattle.std.specs.Prelude.{◌≡◌, ℤ, ◌+◌, ◌^◌, ◌<◌, length, slice_get, IfOk, MatchOption};
ghost use Rattle.comtrade_format.specs.Floats.{scaled};
ghost use Rattle.comtrade_analysis.specs.Peaks as spec;

use crate::readings::sample_at;
use crate::window::Window;
use comtrade_format::{Row, Scale};
use std::alloc::{AllocError, Allocator};

/// The samples of an analogue channel, counted from 0, over the rows of a window, in order. None
/// where a reading is missing, or a row is not there.
pub fn samples_in<A: Allocator, B: Allocator + Copy>(
    alloc: B,
    rows: &[Row<A>],
    channel: usize,
    window: Window,
) -> Result<Option<Vec<i32, B>>, AllocError>
    requires { window.first + window.rows < 2 ^ 64 }
    ensures { IfOk result (λ found. MatchOption found (spec.LacksSamples rows.now channel window)
        (λ xs. spec.AreSamples rows.now channel window xs.items)) }
{
    let mut samples = Vec::new(alloc);
    for i in 0..window.rows {
        if let Some(sample) = sample_at(rows, channel, window.first + i) {
            samples.push(sample)?;
        }
    }
    if samples.len() == window.rows {
        Ok(Some(samples))
    } else {
        Ok(None)
    }
}

/// A value, and the index of its sample.
#[derive(Clone, Copy, Debug)]
pub struct Peak {
    pub value: f64,
    pub index: usize,
}

/// The value a·x + b of the sample at an index.
fn value_at(samples: &[i32], index: usize, scale: Scale) -> f64
    requires { index < length samples.now }
    ensures { (x : ℤ) → slice_get samples.now index ≡ Some x → result ≡ scaled scale x }
{
    scale.value(samples[index])
}

/// The value a·x + b of a sample that is farthest from 0: the first one, if several are.
pub fn peak_of(samples: &[i32], scale: Scale) -> Peak
    requires { 0 < length samples.now }
    ensures { spec.IsPeak scale samples.now result }
{
    let mut peak = Peak {
        value: value_at(samples, 0, scale),
        index: 0,
    };
    for index in 0..samples.len() {
        let value = value_at(samples, index, scale);
        if peak.value.abs() < value.abs() {
            peak = Peak { value, index };
        }
    }
    peak
}
