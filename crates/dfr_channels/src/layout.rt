//! Valid set-ups, and whether a scan fits one.

ghost use Rattle.std.specs.Prelude.{◌≡◌, ◌<◌, ◌≤◌, ◌≤ℤ◌, ◌+ℤ◌, pos, length, Some, None, IfSome, OnOk, MatchResult, true};
ghost use Rattle.std.specs.Bool.{OnTrue};
ghost use Rattle.dfr_channels.specs.Setups.{end_of_time};
ghost use Rattle.dfr_channels.specs.Scans as spec;

use crate::channel::{AnalogChannel, StatusChannel};
use crate::setup::{Setup, SetupFault, setup_fault};
use crate::{Reading, Scan};
use comtrade_values::{Decimal, Memory};
use std::alloc::{Allocator, Global};
use std::marker::Model;
use thiserror::Error;

/// A valid set-up. Contracts see the set-up.
#[derive(Drop, Debug)]
pub struct Layout<A: Allocator = Global> {
    setup: Setup<A>,
}

impl<A: Allocator> Model for Layout<A> {
    ghost use Rattle.std.specs.Prelude.{◌≡◌, None};
    ghost use Rattle.dfr_channels.specs.Parts.{SetupParts};
    ghost use Rattle.dfr_channels.specs.Setups.{setup_fault};

    ghost Value = { SetupParts };

    ghost view = { λ l. l.setup };

    ghost invariant = { λ l. setup_fault l.setup ≡ None };
}

/// Why a scan doesn't fit a layout, in the order of the tests.
#[derive(Clone, Copy, Debug, PartialEq, Eq, Error)]
pub enum ScanFault {
    /// The number of readings or bits is not the layout's.
    #[error("the number of readings or bits is not that of the layout")]
    Shape,
    /// The lowest channel, from 0, whose value is below its `min` or above its `max`. A missing
    /// reading is always in range.
    #[error("the value of analogue channel {0} (counted from 0) is out of its range")]
    Range(u32),
}

const LAST: i64 = 253_402_300_799_999_999;

/// Whether the reading is in the channel's range. A missing one always is.
fn is_within<A: Allocator>(channel: &AnalogChannel<A>, reading: &Reading) -> bool
    ensures { result ≡ spec.is_within channel.now reading.now }
{
    match reading {
        Reading::Value(x) => channel.min <= *x && *x <= channel.max,
        Reading::Missing => true,
    }
}

/// The lowest channel whose reading is out of range.
fn lowest_out<A: Allocator>(channels: &[AnalogChannel<A>], readings: &[Reading]) -> Option<u32>
    requires same { length readings.now ≡ length channels.now }
    requires few { length channels.now ≤ 256 }
    ensures { result ≡ spec.lowest_out 0 channels.now readings.now }
{
    for (i, channel) in channels.iter().enumerate() {
        if !is_within(channel, &readings[i]) {
            return Some(i as u32);
        }
    }
    None
}

fn has_shape<A: Allocator>(setup: &Setup<A>, scan: &Scan<A>) -> bool
    ensures value { result ≡ spec.has_shape setup.now scan.now }
    ensures shape { OnTrue result ((length scan.now.analog ≡ length setup.now.analog) × (length scan.now.status ≡ length setup.now.status)) }
{
    scan.analog().len() == setup.analog.items().len()
        && scan.status().len() == setup.status.items().len()
}

/// The first fault of a scan, for a set-up of at most 256 analogue channels.
#[tactic(auto, unfolding(crate::specs::Scans::scan_fault))]
fn scan_fault<A: Allocator>(setup: &Setup<A>, scan: &Scan<A>) -> Result<(), ScanFault>
    requires { length setup.now.analog ≤ 256 }
    ensures fault { MatchResult result (λ _. spec.scan_fault setup.now scan.now ≡ None) (λ fault. spec.scan_fault setup.now scan.now ≡ Some fault) }
    ensures fits { OnOk result (spec.Fits setup.now scan.now) }
{
    if !has_shape(setup, scan) {
        return Err(ScanFault::Shape);
    }
    match lowest_out(setup.analog.items(), scan.analog()) {
        Some(i) => Err(ScanFault::Range(i)),
        None => Ok(()),
    }
}

/// The instant of scan k, given the scans a second and the instant of scan 0; None after the year
/// 9999. Whether it is None is decided without a division, the slowest part.
fn instant_at(rate: u32, start: i64, k: u64) -> Option<i64>
    requires rate { (1 ≤ rate) × (rate ≤ 1000000) }
    requires start { (pos 0 ≤ℤ start) × (start ≤ℤ pos end_of_time) }
    ensures value { result ≡ spec.within_time (start +ℤ pos (spec.micros rate k)) }
    ensures early { IfSome result (λ _. k ≤ end_of_time) }
{
    let micros = k as u128 * 1_000_000;
    let places = (LAST - start) as u128 + 1;
    if places * rate as u128 <= micros {
        return None;
    }
    Some(start + (micros / rate as u128) as i64)
}

impl<A: Allocator> Layout<A> {
    ghost use Rattle.std.specs.Prelude.{◌≡◌, ◌≤◌, Some, None, OnOk, IfOk, IfErr, IfSome, MatchResult};
    ghost use Rattle.dfr_channels.specs.Setups.{setup_fault, IsLawful, end_of_time};
    ghost use Rattle.dfr_channels.specs.Scans.{instant_of, scan_fault, Fits};

    /// Checks a set-up. A refused one is handed back with its first fault. Doesn't allocate.
    pub fn new(setup: Setup<A>) -> Result<Layout<A>, (SetupFault, Setup<A>)>
        ensures made { IfOk result (λ layout. (setup_fault setup ≡ None) × (layout ≡ setup)) }
        ensures fault { IfErr result (λ refused. setup_fault setup ≡ Some refused.0) }
        ensures back { IfErr result (λ refused. refused.1 ≡ setup) }
    {
        match setup_fault(&setup) {
            Some(fault) => Err((fault, setup)),
            None => Ok(Layout { setup }),
        }
    }

    /// The station's name.
    pub fn station(&self) -> &[u8]
        ensures { result.now ≡ self.now.station }
    {
        self.setup.station.items()
    }

    /// The recording device's name.
    pub fn device(&self) -> &[u8]
        ensures { result.now ≡ self.now.device }
    {
        self.setup.device.items()
    }

    /// The analogue channels, at most 256.
    pub fn analog(&self) -> &[AnalogChannel<A>]
        ensures { result.now ≡ self.now.analog }
    {
        self.setup.analog.items()
    }

    /// The status channels, at most 256.
    pub fn status(&self) -> &[StatusChannel<A>]
        ensures { result.now ≡ self.now.status }
    {
        self.setup.status.items()
    }

    /// The line frequency, in Hz.
    pub fn line_freq(&self) -> Decimal
        ensures { result ≡ self.now.line_freq }
    {
        self.setup.line_freq
    }

    /// The number of scans a second. Clause `lawful` states that any layout is valid.
    pub fn rate(&self) -> u32
        ensures value { result ≡ self.now.rate }
        ensures lawful { IsLawful self.now }
    {
        self.setup.rate
    }

    /// The instant of scan 0, in microseconds since 1970-01-01 00:00:00.
    pub fn start(&self) -> i64
        ensures { result ≡ self.now.start }
    {
        self.setup.start
    }

    /// The instant of scan k, in microseconds since 1970-01-01 00:00:00; None after the year 9999.
    pub fn instant(&self, k: u64) -> Option<i64>
        ensures value { result ≡ instant_of self.now k }
        ensures early { IfSome result (λ _. k ≤ end_of_time) }
    {
        instant_at(self.rate(), self.start(), k)
    }

    /// Checks that a scan has the layout's channels, and each value is in its channel's range.
    /// Doesn't allocate, and looks at each reading at most once.
    pub fn check(&self, scan: &Scan<A>) -> Result<(), ScanFault>
        ensures fault { MatchResult result (λ _. scan_fault self.now scan.now ≡ None) (λ fault. scan_fault self.now scan.now ≡ Some fault) }
        ensures fits { OnOk result (Fits self.now scan.now) }
    {
        scan_fault(&self.setup, scan)
    }
}

impl<A: Allocator + Copy> Layout<A> {
    ghost use Rattle.std.specs.Prelude.{◌≡◌, IfOk};

    /// A deep copy, on the same allocator. `Memory`: an allocation failed.
    pub fn try_clone(&self) -> Result<Layout<A>, Memory>
        ensures { IfOk result (λ copy. copy ≡ self.now) }
    {
        let setup = self.setup.try_clone()?;
        Ok(Layout { setup })
    }
}
