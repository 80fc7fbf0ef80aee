//! The crossings of 0 of a signal, and the frequency over the last cycles.

ghost use Rattle.std.specs.Prelude.{◌≡◌, ◌≤◌, ◌+◌, ◌*◌, ◌^◌};
ghost use Rattle.dfr_detect.specs.Crossings as spec;
ghost use Rattle.dfr_detect.specs.Fitting.{FitsTest, most_of};

use crate::spans::Spans;
use crate::{FrequencyIs, FrequencyTest};
use comtrade_values::Memory;
use std::alloc::{Allocator, Global};
use std::marker::Model;

/// The time from scan to scan, in the unit of times.
const SCAN: u64 = 65_536;

/// What is known of the crossings of 0 since the last gap. Times are at most `far`, which is longer
/// than what is looked at.
#[derive(Drop)]
pub(crate) struct Crossings<A: Allocator = Global> {
    least: u64,
    far: u64,
    dips: bool,
    last: u64,
    age: u64,
    newer: Spans<A>,
    older: Spans<A>,
}

impl<A: Allocator> Model for Crossings<A> {
    ghost use Rattle.dfr_detect.specs.Paces.{Pace, pace_by, IsPace};

    ghost Value = { Pace };

    ghost view = { λ a. pace_by a.least a.far a.dips a.last a.age a.newer a.older };

    ghost invariant = { λ a. IsPace a.far a.dips a.last a.age };
}

/// How long before a sample of this size the signal met 0, if the sample before was this far below.
fn since_zero(size: u64, below: u64) -> u64
    requires size { size ≤ 2 ^ 39 }
    requires below { below ≤ 2 ^ 39 }
    requires some { 1 ≤ below }
    ensures value { result ≡ spec.since_zero size below }
    ensures bound { result ≤ 65_536 }
{
    SCAN * size / (size + below)
}

/// The two sides of the comparison with a frequency.
#[inline(always)]
fn pace(test: FrequencyTest) -> u128
    requires { FitsTest test }
    ensures { result ≡ 1000 * test.rate * spec.scans_time test.cycles }
{
    1000 * u128::from(test.rate) * (u128::from(test.cycles) * u128::from(SCAN))
}

/// The rate of change, as a comparison.
#[inline(always)]
fn is_changing(test: FrequencyTest, level: u64, newer: u64, older: u64) -> bool
    requires fits { FitsTest test }
    requires level { level ≤ 2 ^ 31 }
    requires newer { newer ≤ 2 ^ 32 }
    requires older { older ≤ 2 ^ 32 }
    requires both { newer + older ≤ 2 ^ 32 }
    ensures { result ≡ spec.is_changing test level newer older }
{
    let scale = u128::from(test.rate) * u128::from(SCAN);
    let apart = u128::from(newer.abs_diff(older));
    let (newer, older) = (u128::from(newer), u128::from(older));
    u128::from(level) * (newer * older * (newer + older))
        <= 2000 * u128::from(test.cycles) * (scale * scale) * apart
}

/// Whether times of cycles meet the level.
#[inline(always)]
fn compares(test: FrequencyTest, level: u64, newer: u64, older: u64) -> bool
    requires fits { FitsTest test }
    requires level { level ≤ most_of test.test }
    requires both { newer + older ≤ 2 ^ 32 }
    ensures { result ≡ spec.compares test.test test level newer older }
{
    match test.test {
        FrequencyIs::Over => u128::from(level) * u128::from(newer) <= pace(test),
        FrequencyIs::Under => pace(test) <= u128::from(level) * u128::from(newer),
        FrequencyIs::Changing => is_changing(test, level, newer, older),
    }
}

impl<A: Allocator> Crossings<A> {
    ghost use Rattle.std.specs.Prelude.{◌≡◌, ◌≤◌, ◌^◌, true, IfOk, unsigned_abs};
    ghost use Rattle.dfr_detect.specs.Fitting.{FitsTest, most_of};
    ghost use Rattle.dfr_detect.specs.Paces.{no_pace, pace_after, pace_on, pace_crossed, pace_gone, pace_meets};

    /// Crossings in so many scans, with places for the times of cycles.
    pub(crate) fn with_places(
        alloc: A,
        least: u64,
        scans: u32,
        newer: u32,
        older: u32,
    ) -> Result<Crossings<A>, Memory>
    where
        A: Copy,
        requires some { 1 ≤ scans }
        requires few { scans ≤ 2 ^ 16 }
        requires newer { newer ≤ 64 }
        requires older { older ≤ 64 }
        ensures { IfOk result (λ made. made ≡ no_pace least scans newer older) }
    {
        let far = u64::from(scans) * SCAN + 1;
        Ok(Crossings {
            least,
            far,
            dips: false,
            last: 0,
            age: far,
            newer: Spans::with_places(alloc, newer as usize)?,
            older: Spans::with_places(alloc, older as usize)?,
        })
    }

    /// Takes in a sample at which the signal doesn't cross 0 upward.
    fn go_on(&mut self, x: i64)
        requires { unsigned_abs x ≤ 2 ^ 39 }
        ensures { self.new ≡ pace_on self.old x }
    {
        let size = x.unsigned_abs();
        self.dips = x < 0 && (self.least <= size || self.dips);
        self.last = size;
        self.age = self.far.min(self.age + SCAN);
    }

    /// Takes in a sample of this size at which it does.
    fn cross(&mut self, size: u64)
        requires size { size ≤ 2 ^ 39 }
        requires dips { self.old.dips ≡ true }
        ensures { self.new ≡ pace_crossed self.old size }
    {
        let since = since_zero(size, self.last);
        let span = self.far.min(self.age + SCAN - since);
        self.dips = false;
        self.last = size;
        self.age = since;
        if let Some(left) = self.newer.push(span) {
            self.older.push(left);
        }
    }

    /// Takes in a sample.
    #[inline(always)]
    pub(crate) fn take_in(&mut self, x: i64)
        requires { unsigned_abs x ≤ 2 ^ 39 }
        ensures { self.new ≡ pace_after self.old x }
    {
        if x >= 0 && self.dips {
            self.cross(x.unsigned_abs());
        } else {
            self.go_on(x);
        }
    }

    /// Starts anew.
    pub(crate) fn clear(&mut self)
        ensures { self.new ≡ pace_gone self.old }
    {
        self.dips = false;
        self.last = 0;
        self.age = self.far;
        self.newer.clear();
        self.older.clear();
    }

    /// Whether the cycles that are looked at meet the level, and lie in the last scans.
    #[inline(always)]
    pub(crate) fn meet(&self, test: FrequencyTest, level: u64) -> bool
        requires fits { FitsTest test }
        requires level { level ≤ most_of test.test }
        ensures { result ≡ pace_meets test level self.now }
    {
        let (newer, older) = (self.newer.total(), self.older.total());
        self.age + newer + older < self.far && compares(test, level, newer, older)
    }
}
