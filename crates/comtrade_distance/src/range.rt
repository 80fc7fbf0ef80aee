//! Parts of a line in which a fault is, by what one end measures.

ghost use Rattle.std.specs.Prelude.{◌≡◌};
ghost use Rattle.comtrade_distance.specs.Ranges as spec;

use crate::line::Line;
use crate::loops::Loop;
use crate::place::{Place, part_of, place_of};
use crate::turned::Three;
use comtrade_analysis::Phasor;

/// What one end measures of a fault: on the primary side and by one time base, in volts and amperes.
#[derive(Clone, Copy, Debug)]
pub struct Seen {
    /// During the fault.
    pub voltages: Three,
    pub currents: Three,
    /// The currents before it.
    pub before: Three,
}

/// Parts of the line up to a fault: 0 at the measured end, 1 at the far one.
#[derive(Clone, Copy, Debug)]
pub struct Range {
    /// By Takagi's method, for each current through the fault near the reference, and a hundredth of
    /// the line to either side.
    pub least: f64,
    pub greatest: f64,
    /// The same for the reference itself.
    pub likely: f64,
    /// By the reactance of the loop alone.
    pub reactance: f64,
}

/// Why there is no range.
#[derive(Clone, Copy, Debug, PartialEq, Eq)]
pub enum Unplaced {
    /// No current flows in the loop, or what it drops along the line is in phase with the current
    /// through the fault.
    Open,
    /// The range is wider than the line.
    Wide,
    /// It ends over a twentieth of the line before the measured end, or begins as far beyond the
    /// other one.
    Behind,
    Beyond,
}

/// What a cycle with noise and a dc part leaves open.
const MARGIN: f64 = 0.01;

/// Where a range ends at least.
const NEAREST: f64 = -0.05;

/// Where it begins at most.
const FARTHEST: f64 = 1.05;

/// How wide it is at most.
const WIDEST: f64 = 1.0;

fn lower(one: f64, other: f64) -> f64
    ensures { result ≡ spec.lower one other }
{
    if one < other { one } else { other }
}

fn upper(one: f64, other: f64) -> f64
    ensures { result ≡ spec.upper one other }
{
    if one < other { other } else { one }
}

/// On which side of a current the drop lies.
fn is_left(drop: Phasor, current: Phasor) -> bool
    ensures { result ≡ spec.is_left drop current }
{
    drop.across(current) < 0.0
}

/// Whether the drop lies on one side of two currents.
fn is_bounded(drop: Phasor, behind: Phasor, ahead: Phasor) -> bool
    ensures { result ≡ spec.is_bounded drop behind ahead }
{
    if is_left(drop, behind) {
        is_left(drop, ahead)
    } else {
        !is_left(drop, ahead)
    }
}

/// Whether the place has a bound for each current that is turned less from the reference.
fn is_bounded_by(line: Line, loop_: Loop, seen: Seen, turn: Phasor) -> bool
    ensures { result ≡ spec.is_bounded_by line loop_ seen turn }
{
    let drop = loop_.drop_along(line, seen.currents);
    let reference = loop_.reference(seen.currents, seen.before);
    is_bounded(
        drop,
        reference.times(turn.mirrored()),
        reference.times(turn),
    )
}

/// The part of the line by the reactance of the loop alone.
fn by_reactance(line: Line, loop_: Loop, seen: Seen) -> Option<f64>
    ensures { result ≡ spec.by_reactance line loop_ seen }
{
    let drop = loop_.drop_along(line, seen.currents);
    let current = drop.times(line.positive.mirrored());
    part_of(loop_.voltage(seen.voltages), drop, current)
}

fn range_in(place: Place, reactance: f64) -> Range
    ensures { result ≡ spec.range_in place reactance }
{
    Range {
        least: lower(lower(place.behind, place.ahead), place.likely) - MARGIN,
        greatest: upper(upper(place.behind, place.ahead), place.likely) + MARGIN,
        likely: place.likely,
        reactance,
    }
}

/// A range that tells where on the line a fault is.
fn judged(range: Range) -> Result<Range, Unplaced>
    ensures { result ≡ spec.judged range }
{
    if WIDEST < range.greatest - range.least {
        Err(Unplaced::Wide)
    } else if range.greatest < NEAREST {
        Err(Unplaced::Behind)
    } else if FARTHEST < range.least {
        Err(Unplaced::Beyond)
    } else {
        Ok(range)
    }
}

impl Range {
    /// The range from the lesser of two begins to the greater of two ends; what is likely is that of
    /// this one.
    pub fn joined(self, other: Range) -> Range
        ensures { result ≡ spec.joined self other }
    {
        Range {
            least: lower(self.least, other.least),
            greatest: upper(self.greatest, other.greatest),
            likely: self.likely,
            reactance: self.reactance,
        }
    }
}

/// Where on a line a fault is, by what one end measures. The current through the fault is taken for
/// at most `turn`, a phasor of magnitude 1 and less than a quarter of a turn, ahead of or behind the
/// reference of its loop.
pub fn range_of(line: Line, loop_: Loop, seen: Seen, turn: Phasor) -> Result<Range, Unplaced>
    ensures { result ≡ spec.range line loop_ seen turn }
{
    if !is_bounded_by(line, loop_, seen, turn) {
        return Err(Unplaced::Open);
    }
    let place = place_of(line, loop_, seen.voltages, seen.currents, seen.before, turn);
    match (place, by_reactance(line, loop_, seen)) {
        (Some(place), Some(reactance)) => judged(range_in(place, reactance)),
        _ => Err(Unplaced::Open),
    }
}
