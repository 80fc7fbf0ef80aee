//! Sequence components of three phases.

use crate::cycles::fault::MeasureFault;
use crate::cycles::fit::measured_at;
use crate::cycles::reference::place_of;
use comtrade_analysis::{Measured, Phasor, sequences_in};
use comtrade_format::Head;
use comtrade_values::Memory;
use dfr_channels::AnalogChannel;
use std::alloc::Allocator;

/// The square root of 3, over 2.
const HALF_ROOT: f64 = 0.8660254037844386;

/// The indices of three channels of phases A, B and C.
#[derive(Clone, Copy, Debug, PartialEq, Eq)]
pub struct Three {
    pub a: usize,
    pub b: usize,
    pub c: usize,
}

/// Rms values and angles of the three sequences.
#[derive(Clone, Copy, Debug)]
pub struct Components {
    pub positive: Phasor,
    pub negative: Phasor,
    pub zero: Phasor,
}

impl Components {
    /// The greatest of the three rms values.
    pub(crate) fn greatest(self) -> f64 {
        let unbalanced = self.negative.magnitude().max(self.zero.magnitude());
        self.positive.magnitude().max(unbalanced)
    }
}

/// The channels that form three phases, by the rule of `sequences_in`.
fn threes_of<A: Allocator + Copy>(
    alloc: A,
    channels: &[AnalogChannel<A>],
) -> Result<Vec<Three, A>, Memory> {
    let sequences = sequences_in(alloc, channels)?;
    let mut threes = Vec::new(alloc);
    for sequence in sequences.iter() {
        threes.push(Three {
            a: sequence.a,
            b: sequence.b,
            c: sequence.c,
        })?;
    }
    Ok(threes)
}

/// The three channels with these names or numbers, joined by commas; None if they aren't three
/// different ones of one unit.
fn three_named<A: Allocator>(head: &Head<A>, names: &str) -> Option<Three> {
    let (first, rest) = names.split_once(',')?;
    let (second, third) = rest.split_once(',')?;
    let channels = head.analog.items();
    let a = place_of(head, first.trim())?;
    let b = place_of(head, second.trim())?;
    let c = place_of(head, third.trim())?;
    let unit = channels.get(a)?.unit.items();
    let is_one = channels.get(b)?.unit.items() == unit && channels.get(c)?.unit.items() == unit;
    if a == b || a == c || b == c || !is_one {
        return None;
    }
    Some(Three { a, b, c })
}

/// The channels that form three phases: those that are named, else those that `sequences_in` finds.
/// `NoPhases`: the names aren't those of three different channels of one unit.
pub fn threes_in<A: Allocator + Copy>(
    alloc: A,
    head: &Head<A>,
    names: Option<&str>,
) -> Result<Vec<Three, A>, MeasureFault> {
    let Some(names) = names else {
        return Ok(threes_of(alloc, head.analog.items())?);
    };
    let Some(three) = three_named(head, names) else {
        return Err(MeasureFault::NoPhases);
    };
    Ok(Vec::from_slice(alloc, &[three])?)
}

/// The phasor of one channel, if it was measured.
pub fn phasor_in<A: Allocator>(measures: &[Option<Measured<A>>], place: usize) -> Option<Phasor> {
    Some(measured_at(measures, place)?.phasor)
}

/// A third of a + turn * b + turn^2 * c, where turn is 120 degrees, leading or lagging.
fn third(a: Phasor, b: Phasor, c: Phasor, half_root: f64) -> Phasor {
    let ahead = Phasor {
        re: -0.5,
        im: half_root,
    };
    let behind = Phasor {
        re: -0.5,
        im: -half_root,
    };
    a.plus(b.times(ahead))
        .plus(c.times(behind))
        .scaled(1.0 / 3.0)
}

/// The sequence components of three phases; None where one of them was not measured.
pub fn components_of<A: Allocator>(
    measures: &[Option<Measured<A>>],
    three: Three,
) -> Option<Components> {
    let a = phasor_in(measures, three.a)?;
    let b = phasor_in(measures, three.b)?;
    let c = phasor_in(measures, three.c)?;
    Some(Components {
        positive: third(a, b, c, HALF_ROOT),
        negative: third(a, b, c, -HALF_ROOT),
        zero: a.plus(b).plus(c).scaled(1.0 / 3.0),
    })
}
