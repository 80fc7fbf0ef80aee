//! The line frequency of a signal: how far its phasor turns from one window to another.

use crate::cycles::fault::MeasureFault;
use crate::cycles::fit::{measure_at, measured_at, measures_of};
use crate::cycles::window::{Two, Window, halves_of, last_two};
use comtrade_analysis::Measured;
use comtrade_format::{File, nearest_f64};
use comtrade_values::Decimal;
use std::alloc::Allocator;
use std::num::{nearest_u64_to_f64, nearest_usize_to_f64, saturating_f64_to_i64};

/// The most steps from the frequency of the file to that of the signal.
const STEPS: usize = 8;

/// The most by which a measured frequency differs from that of the file, as a share of it.
const FARTHEST: f64 = 0.2;

/// The most by which the frequency of a steady signal differs from that of the cycle before it.
const STEADY: f64 = 0.002;

/// What two cycles of a steady signal leave of its magnitude at most: where the cycle before them
/// agrees, and where it isn't known.
const NOISY: f64 = 0.05;

const CLEAN: f64 = 0.005;

/// The line frequency of a signal, and the channel by which it was measured.
#[derive(Clone, Copy, Debug)]
pub struct Frequency {
    /// In Hz, to a ten-thousandth.
    pub hertz: Decimal,
    /// The channel's index.
    pub place: usize,
}

/// Which windows of a file's rows are compared.
#[derive(Clone, Copy, Debug, PartialEq, Eq)]
enum Pair {
    /// The last two cycles before this row.
    Last(usize),
    /// The first and the last half of all.
    Halves,
}

/// A frequency in Hz, to a ten-thousandth; None if it is not above 0.
fn hertz_of(hertz: f64) -> Option<Decimal> {
    let units = saturating_f64_to_i64(hertz * 10_000.0 + 0.5);
    if units <= 0 {
        return None;
    }
    Decimal::new(units as i128, 4)
}

/// The windows that are compared, if the rows have them.
fn windows_of<A: Allocator>(file: &File<A>, frequency: Decimal, pair: Pair) -> Option<Two> {
    let windows = match pair {
        Pair::Last(rows) => last_two(&file.head, frequency, rows),
        Pair::Halves => halves_of(&file.head, frequency, file.rows.items().len()),
    };
    windows.ok()
}

/// The cycles from the first row of one window to that of the other.
fn cycles_between(two: Two) -> f64 {
    let rows = nearest_usize_to_f64(two.last.from.abs_diff(two.first.from));
    let cycle = two.last.cycle;
    rows * nearest_u64_to_f64(cycle.cycles) / nearest_u64_to_f64(cycle.rows)
}

/// How much faster a phasor turns from one window to the other than their frequency says, as a
/// share of that.
fn faster<A: Allocator>(two: Two, first: &Measured<A>, last: &Measured<A>) -> Option<f64> {
    if !first.has_angle() || !last.has_angle() {
        return None;
    }
    let due = cycles_between(two);
    let more = last.phasor.degrees_from(first.phasor) / 360.0 - due;
    Some((more - (more + 0.5).floor()) / due)
}

/// The same for the channel at this index; None if it has no phasor in one of the windows.
fn faster_at<A: Allocator + Copy>(
    alloc: A,
    file: &File<A>,
    two: Two,
    place: usize,
) -> Result<Option<f64>, MeasureFault> {
    let first = measure_at(alloc, file, two.first, place)?;
    let last = measure_at(alloc, file, two.last, place)?;
    match (first, last) {
        (Some(first), Some(last)) => Ok(faster(two, &first, &last)),
        _ => Ok(None),
    }
}

/// The frequency of a channel in these windows, in steps from a first guess. None if the windows or
/// the phasors aren't there, or it is far from the guess.
fn refined<A: Allocator + Copy>(
    alloc: A,
    file: &File<A>,
    pair: Pair,
    guess: Decimal,
    place: usize,
) -> Result<Option<Decimal>, MeasureFault> {
    let begin = nearest_f64(alloc, guess)?;
    let mut hertz = guess;
    for _ in 0..STEPS {
        let Some(two) = windows_of(file, hertz, pair) else {
            return Ok(None);
        };
        let Some(more) = faster_at(alloc, file, two, place)? else {
            return Ok(None);
        };
        let next = nearest_f64(alloc, hertz)? * (1.0 + more);
        if begin * FARTHEST < (next - begin).abs() {
            return Ok(None);
        }
        match hertz_of(next) {
            Some(next) if next != hertz => hertz = next,
            _ => break,
        }
    }
    Ok(Some(hertz))
}

/// What the two windows together leave of a channel's magnitude, as a share of it.
fn share_left<A: Allocator + Copy>(
    alloc: A,
    file: &File<A>,
    two: Two,
    place: usize,
) -> Result<Option<f64>, MeasureFault> {
    let both = Window {
        from: two.first.from,
        to: two.last.to,
        cycles: 2,
        cycle: two.first.cycle,
    };
    match measure_at(alloc, file, both, place)? {
        Some(measured) if measured.has_angle() => {
            Ok(Some(measured.residual / measured.phasor.magnitude()))
        }
        _ => Ok(None),
    }
}

/// Whether a channel is steady at this frequency: over the last two cycles, and the cycle before
/// them, where that is known.
fn is_steady<A: Allocator + Copy>(
    alloc: A,
    file: &File<A>,
    hertz: Decimal,
    place: usize,
) -> Result<bool, MeasureFault> {
    let Some(two) = windows_of(file, hertz, Pair::Last(file.rows.items().len())) else {
        return Ok(false);
    };
    let Some(share) = share_left(alloc, file, two, place)? else {
        return Ok(false);
    };
    let Some(earlier) = windows_of(file, hertz, Pair::Last(two.last.from)) else {
        return Ok(share <= CLEAN);
    };
    match faster_at(alloc, file, earlier, place)? {
        Some(more) => Ok(share <= NOISY && more.abs() <= STEADY),
        None => Ok(false),
    }
}

/// How far a channel is from a steady one: what the windows leave of it, and how its magnitude
/// changes.
fn score_of<A: Allocator>(first: &Measured<A>, last: &Measured<A>) -> f64 {
    let (one, other) = (first.phasor.magnitude(), last.phasor.magnitude());
    let left = (first.residual / one).max(last.residual / other);
    left + (other / one - 1.0).abs()
}

/// The scores of the channels that have a phasor in both windows.
fn scores_of<A: Allocator + Copy>(
    alloc: A,
    file: &File<A>,
    two: Two,
) -> Result<Vec<(usize, f64), A>, MeasureFault> {
    let before = measures_of(alloc, file, two.first)?;
    let after = measures_of(alloc, file, two.last)?;
    let mut scores = Vec::new(alloc);
    for place in 0..after.len() {
        if let (Some(first), Some(last)) = (measured_at(&before, place), measured_at(&after, place))
            && first.has_angle()
            && last.has_angle()
        {
            scores.push((place, score_of(first, last)))?;
        }
    }
    Ok(scores)
}

/// The first channel that is hardly less steady than the steadiest one, if any has a phasor.
fn steadiest(scores: &[(usize, f64)]) -> Option<usize> {
    let mut least = f64::INFINITY;
    for (_, score) in scores {
        least = least.min(*score);
    }
    let (place, _) = scores
        .iter()
        .find(|(_, score)| *score <= least * 2.0 + 0.001)?;
    Some(*place)
}

/// The channel by which the frequency is measured: the one that is given, else a steady one.
fn channel_of<A: Allocator + Copy>(
    alloc: A,
    file: &File<A>,
    given: Option<usize>,
) -> Result<Option<usize>, MeasureFault> {
    if given.is_some() {
        return Ok(given);
    }
    let rows = file.rows.items().len();
    match windows_of(file, file.head.line_freq, Pair::Last(rows)) {
        Some(two) => Ok(steadiest(&scores_of(alloc, file, two)?)),
        None => Ok(None),
    }
}

/// The frequency of a channel: by its last two cycles; of all rows also by their halves, where both
/// agree.
fn frequency_at<A: Allocator + Copy>(
    alloc: A,
    file: &File<A>,
    place: usize,
    is_whole: bool,
) -> Result<Option<Decimal>, MeasureFault> {
    let last = Pair::Last(file.rows.items().len());
    let Some(hertz) = refined(alloc, file, last, file.head.line_freq, place)? else {
        return Ok(None);
    };
    if !is_steady(alloc, file, hertz, place)? {
        return Ok(None);
    }
    if !is_whole {
        return Ok(Some(hertz));
    }
    let near = nearest_f64(alloc, hertz)?;
    match refined(alloc, file, Pair::Halves, hertz, place)? {
        Some(all) if (nearest_f64(alloc, all)? - near).abs() <= near * STEADY => Ok(Some(all)),
        _ => Ok(Some(hertz)),
    }
}

/// The line frequency of a file's signals at its last row, or over all rows: by the channel that is
/// given, else by a steady one. None if that is not steady over the last two cycles, or the rows have
/// fewer.
pub(crate) fn frequency_of<A: Allocator + Copy>(
    alloc: A,
    file: &File<A>,
    given: Option<usize>,
    is_whole: bool,
) -> Result<Option<Frequency>, MeasureFault> {
    let found = match channel_of(alloc, file, given) {
        Ok(Some(place)) => match frequency_at(alloc, file, place, is_whole) {
            Ok(Some(hertz)) => Ok(Some(Frequency { hertz, place })),
            Ok(None) => Ok(None),
            Err(fault) => Err(fault),
        },
        Ok(None) => Ok(None),
        Err(fault) => Err(fault),
    };
    match found {
        Err(MeasureFault::Memory(error)) => Err(MeasureFault::Memory(error)),
        Err(_) => Ok(None),
        Ok(frequency) => Ok(frequency),
    }
}
