//! Summarises the samples of a channel.

use crate::num::{Num, ten_to};
use crate::scale::DecimalScale;

/// The least and the greatest whole number that a form of data can hold.
#[derive(Clone, Copy)]
pub(crate) struct WholeBounds {
    pub low: i64,
    pub high: i64,
}

/// A sample, and its order key.
#[derive(Clone, Copy)]
struct OrderedSample {
    num: Num,
    place: i128,
}

/// A summary of the samples of a channel so far.
#[derive(Clone, Copy)]
pub(crate) struct SampleSpan {
    /// The first sample, if there is one.
    pub first: Option<Num>,
    /// The least and the greatest sample, while none is a multiple of a power of ten.
    ends: Option<(OrderedSample, OrderedSample)>,
    is_binary: bool,
    /// All of them are whole numbers within the bounds.
    pub fits: bool,
    pub is_whole: bool,
    /// The least and the greatest of the whole numbers.
    pub least: i64,
    pub most: i64,
    /// All are below 10^order.
    pub order: i32,
    /// The least n for which all samples times 10^n are whole.
    pub need: i32,
    pub reach: SampleReach,
    pub scale: DecimalScale,
    /// Where it is sought, the greatest number of the scale's units of which all samples are
    /// multiples from the least one; 0 before the second sample that differs.
    pub step: Option<u64>,
}

/// The most steps between the least and the greatest sample.
pub(crate) const STEPS: u64 = 65_534;

/// The greatest common divisor of two numbers; 0 if both are 0.
fn common(first: u64, second: u64) -> u64 {
    let mut larger = first;
    let mut smaller = second;
    for _ in 0..100 {
        let Some(rest) = larger.checked_rem(smaller) else {
            return larger;
        };
        larger = smaller;
        smaller = rest;
    }
    1 // (Euclid's algorithm takes fewer than 100 divisions)
}

/// The least and the greatest sample as multiples of the scale's unit.
#[derive(Clone, Copy)]
pub(crate) enum SampleReach {
    /// There is no sample yet.
    Empty,
    /// The least and the greatest.
    Within(i64, i64),
    /// 64 bits cannot hold one of them.
    Beyond,
}

impl SampleReach {
    /// The same with one more multiple, which is None if 64 bits cannot hold it.
    fn with(self, near: Option<i64>) -> SampleReach {
        match (self, near) {
            (SampleReach::Empty, Some(near)) => SampleReach::Within(near, near),
            (SampleReach::Within(low, high), Some(near)) => SampleReach::Within(
                low.min(near),
                high.max(near),
            ),
            _ => SampleReach::Beyond,
        }
    }

    /// The least and the greatest, where 64 bits hold both.
    pub(crate) fn ends(self) -> Option<(i64, i64)> {
        match self {
            SampleReach::Within(low, high) => Some((low, high)),
            SampleReach::Empty | SampleReach::Beyond => None,
        }
    }
}

fn ends_with(
    ends: Option<(OrderedSample, OrderedSample)>,
    num: Num,
) -> (OrderedSample, OrderedSample) {
    let place = num.place();
    let end = OrderedSample { num, place };
    match ends {
        Some((least, most)) if place < least.place => (end, most),
        Some((least, most)) if most.place < place => (least, end),
        Some(ends) => ends,
        None => (end, end),
    }
}

impl SampleSpan {
    pub(crate) fn new() -> SampleSpan {
        SampleSpan {
            first: None,
            ends: None,
            is_binary: true,
            fits: true,
            is_whole: true,
            least: i64::MAX,
            most: i64::MIN,
            order: -9_999,
            need: -9_999,
            reach: SampleReach::Empty,
            step: None,
            scale: DecimalScale::new(0),
        }
    }

    /// Adds a sample.
    pub(crate) fn add(&mut self, num: Num, bounds: WholeBounds) {
        if self.first.is_none() {
            self.first = Some(num);
        }
        self.is_binary = self.is_binary && num.ten == 0;
        if self.is_binary {
            self.ends = Some(ends_with(self.ends, num));
        }
        match num.whole() {
            Some(n) => {
                self.least = self.least.min(n);
                self.most = self.most.max(n);
                self.fits = self.fits && bounds.low <= n && n <= bounds.high;
            }
            None => {
                self.is_whole = false;
                self.fits = false;
            }
        }
        if num.mant == 0 {
            return;
        }
        self.order = self.order.max(num.order());
        if self.need < 0 || !self.is_whole {
            self.need = self.need.max(-num.zeros());
        }
    }

    /// Sets the scale that distinguishes eighteen digits, and the ends in this scale, if they
    /// are known.
    pub(crate) fn settle(&mut self) {
        self.scale = DecimalScale::below(self.order);
        if self.is_binary {
            if let Some((least, most)) = self.ends {
                self.widen(least.num);
                self.widen(most.num);
            }
        }
    }

    /// Whether the least and the greatest sample are still to be found.
    pub(crate) fn is_open(&self) -> bool {
        !self.fits && !self.is_binary
    }

    /// Seeks a step, if all samples are multiples of the scale's unit.
    pub(crate) fn seek_step(&mut self) {
        self.step = (self.need <= self.scale.shift).then_some(0);
    }

    /// Whether a step is sought.
    pub(crate) fn is_sought(&self) -> bool {
        self.step.is_some()
    }

    /// The step with one more sample; None if there are too many of them.
    fn step_with(&self, num: Num) -> Option<u64> {
        let (low, high) = self.reach.ends()?;
        let step = common(self.step?, self.scale.nearest(num)?.abs_diff(low));
        match high.abs_diff(low).checked_div(step) {
            Some(count) if STEPS < count => None,
            _ => Some(step),
        }
    }

    /// Narrows the step by a sample.
    pub(crate) fn narrow_step(&mut self, num: Num) {
        self.step = self.step_with(num);
    }

    /// Gives up a step that is no power of two.
    pub(crate) fn keep_power(&mut self) {
        if !self.has_power() {
            self.step = None;
        }
    }

    /// Whether the step is a power of two.
    fn has_power(&self) -> bool {
        let (Some(step), Some(one)) = (self.step, ten_to(self.scale.shift)) else {
            return false;
        };
        let one = one.unsigned_abs();
        match (step.checked_rem(one), step.checked_div(one)) {
            (Some(0), Some(times)) => times.is_power_of_two(),
            _ => false,
        }
    }

    /// Extends the least and the greatest by a sample.
    pub(crate) fn widen(&mut self, num: Num) {
        self.reach = self.reach.with(self.scale.nearest(num));
    }
}
