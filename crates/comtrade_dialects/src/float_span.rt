//! Summarises the floats of a channel. The bits alone show that most samples change nothing.

use crate::num::num_of_float;
use crate::span::{SampleSpan, WholeBounds};
use std::alloc::{AllocError, Allocator};

/// A summary of the floats of a channel so far.
#[derive(Clone, Copy)]
pub(crate) struct FloatSpan {
    /// The order keys of the least and of the greatest.
    least: i32,
    most: i32,
    /// All are multiples of 2^step; the greatest such number while a power of ten may divide
    /// them all.
    step: i64,
    span: SampleSpan,
}

/// A number that compares as the floats do: the bits without the sign, negated if the sign is set.
fn place_of(bits: u32) -> i32 {
    let size = (bits & 0x7fff_ffff) as i32;
    if bits >> 31 == 1 { -size } else { size }
}

/// The greatest n for which a float is a multiple of 2^n; 0 is a multiple of every power.
fn step_of(bits: u32) -> i64 {
    let exponent = bits >> 23 & 0xff;
    let fraction = bits & 0x7f_ffff;
    let (mant, exponent) = if exponent == 0 {
        (fraction, 1)
    } else {
        (fraction + 0x80_0000, exponent)
    };
    if mant == 0 {
        return i64::MAX;
    }
    i64::from(exponent) + i64::from(mant.trailing_zeros()) - 150
}

impl FloatSpan {
    pub(crate) fn new() -> FloatSpan {
        FloatSpan {
            least: i32::MAX,
            most: i32::MIN,
            step: i64::MAX,
            span: SampleSpan::new(),
        }
    }

    /// Adds a sample. One between the others that is a multiple of the same power of two
    /// changes nothing.
    pub(crate) fn add(&mut self, bits: u32, bounds: WholeBounds) {
        let place = place_of(bits);
        if self.least <= place && place <= self.most && self.step <= step_of(bits) {
            return;
        }
        let Some(num) = num_of_float(bits) else {
            return;
        };
        self.least = self.least.min(place);
        self.most = self.most.max(place);
        self.span.add(num, bounds);
        if 0 <= self.span.need {
            self.step = -i64::from(self.span.need);
        }
    }

    /// The summary of the samples.
    pub(crate) fn settled(&self) -> SampleSpan {
        let mut span = self.span;
        span.settle();
        span
    }
}

/// The initial spans of so many channels.
pub(crate) fn float_spans<A: Allocator>(
    alloc: A,
    count: usize,
) -> Result<Vec<FloatSpan, A>, AllocError> {
    let mut spans = Vec::new(alloc);
    for _ in 0..count {
        spans.push(FloatSpan::new())?;
    }
    Ok(spans)
}
