//! How far the scans drift from the clock.

ghost use Rattle.std.specs.Prelude.{◌≡◌, ◌≤◌, ◌+◌, ◌*◌, ◌^◌};
ghost use Rattle.dfr_clock.specs.Courses.{IsCourse};
ghost use Rattle.dfr_clock.specs.Dating as spec;

use crate::course::Course;

/// How far the scans drift from the clock, in parts per billion.
#[derive(Clone, Copy, Debug, PartialEq, Eq)]
pub enum Drift {
    /// Scans come at a lower rate than they should.
    Slow(u128),
    /// Scans come at a higher rate than they should.
    Fast(u128),
}

/// The drift if the clock went on by `clock` and the scans by `scans`.
fn drift_over(clock: u128, scans: u128) -> Drift
    requires clock { clock ≤ 2 ^ 90 }
    requires scans { (1 ≤ scans) × (scans ≤ 2 ^ 90) }
    ensures { result ≡ spec.drift_over clock scans }
{
    if scans <= clock {
        Drift::Slow((clock - scans) * 1_000_000_000 / scans)
    } else {
        Drift::Fast((scans - clock) * 1_000_000_000 / scans)
    }
}

/// The drift from the beginning of one course to that of another; None if there is nothing between
/// them.
pub(crate) fn drift_between(window: u32, old: Course, new: Course) -> Option<Drift>
    requires old { IsCourse window old }
    requires new { IsCourse window new }
    ensures { result ≡ spec.drift_between old new }
{
    if old.at < new.at && old.from <= new.from {
        Some(drift_over(new.from - old.from, new.at - old.at))
    } else {
        None
    }
}
