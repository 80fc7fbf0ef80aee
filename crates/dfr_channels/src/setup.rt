//! Set-ups, and the first fault of one.

ghost use Rattle.std.specs.Prelude.{◌≡◌, ◌≤◌, ◌<◌, ◌+◌, ◌&&◌, ℤ, pos, int_le, nat_le, length, take, position, not, IfSome};
ghost use Rattle.dfr_channels.specs.Setups as spec;

use crate::channel::{has_analog_texts, has_span, has_status_texts};
use crate::{AnalogChannel, StatusChannel};
use comtrade_values::{Decimal, Items, Memory, copies_of, is_plain};
use std::alloc::{Allocator, Global};
use std::fmt::{self, Display, Formatter, Write};
use std::marker::Model;
use thiserror::Error;

/// The set-up of a recorder. [`crate::Layout::new`] checks the lengths and ranges given here.
#[derive(Drop, Debug)]
pub struct Setup<A: Allocator = Global> {
    /// The station's name, at most 64 bytes.
    pub station: Items<u8, A>,
    /// The recording device's name, at most 64 bytes.
    pub device: Items<u8, A>,
    /// The analogue channels, at most 256; there must be at least one channel in all.
    pub analog: Items<AnalogChannel<A>, A>,
    /// The status channels, at most 256.
    pub status: Items<StatusChannel<A>, A>,
    /// The line frequency, in Hz.
    pub line_freq: Decimal,
    /// Scans a second, from 1 to 1,000,000.
    pub rate: u32,
    /// The instant of scan 0, in microseconds since 1970-01-01 00:00:00; the years 1970 to 9999.
    pub start: i64,
}

impl<A: Allocator> Model for Setup<A> {
    ghost use Rattle.dfr_channels.specs.Parts.{SetupParts};

    ghost Value = { SetupParts };

    ghost view = { λ s. record {
      station = s.station;
      device = s.device;
      analog = s.analog;
      status = s.status;
      line_freq = s.line_freq;
      rate = s.rate;
      start = s.start;
    } };
}

/// Where a text of a set-up is. Channels are numbered from 0.
#[derive(Clone, Copy, Debug, PartialEq, Eq)]
pub enum Place {
    Station,
    Device,
    Analog(u32),
    Status(u32),
}

impl Display for Place {
    fn fmt<W: Write>(&self, f: &mut Formatter<W>) -> fmt::Result {
        match self {
            Place::Station => f.write_str("the station"),
            Place::Device => f.write_str("the recording device"),
            Place::Analog(k) => write!(f, "analogue channel {k}, counted from 0"),
            Place::Status(k) => write!(f, "status channel {k}, counted from 0"),
        }
    }
}

/// Why a set-up is refused, in the order of the tests.
#[derive(Clone, Copy, Debug, PartialEq, Eq, Error)]
pub enum SetupFault {
    /// The first place with a text that a file can't hold. Only the first 256 channels of each kind
    /// are checked for this.
    #[error("a text of {0} cannot be written to a file")]
    Text(Place),
    /// There is no channel, or there are more than 256 of a kind.
    #[error("no channels, or more than 256 of one kind")]
    Channels,
    /// The lowest analogue channel, from 0, without -32767 <= min <= max <= 32767.
    #[error("min and max of analogue channel {0} (counted from 0) are not in order, or beyond 32767")]
    Span(u32),
    /// The rate is not 1 to 1,000,000 scans a second.
    #[error("the rate is not 1 to 1000000 scans a second")]
    Rate,
    /// The start is before 1970 or after the year 9999.
    #[error("the start is before 1970 or after the year 9999")]
    Start,
}

const LAST: i64 = 253_402_300_799_999_999;

fn first_256<T>(list: &[T]) -> &[T]
    ensures first { result.now ≡ take 256 list.now }
    ensures few { length result.now ≤ 256 }
{
    match list.get(..256) {
        Some(first) => first,
        None => list,
    }
}

fn unplain_analog<A: Allocator>(channels: &[AnalogChannel<A>]) -> Option<usize>
    ensures first { result ≡ position (λ c. not (spec.has_analog_texts c)) channels.now }
    ensures within { IfSome result (λ i. i < length channels.now) }
{
    channels.iter().position(|c| !has_analog_texts(c))
}

fn unplain_status<A: Allocator>(channels: &[StatusChannel<A>]) -> Option<usize>
    ensures first { result ≡ position (λ c. not (spec.has_status_texts c)) channels.now }
    ensures within { IfSome result (λ i. i < length channels.now) }
{
    channels.iter().position(|c| !has_status_texts(c))
}

fn without_span<A: Allocator>(channels: &[AnalogChannel<A>]) -> Option<usize>
    ensures first { result ≡ position (λ c. not (spec.has_span c)) channels.now }
    ensures within { IfSome result (λ i. i < length channels.now) }
{
    channels.iter().position(|c| !has_span(c))
}

/// The first place with a text that a file can't hold.
#[tactic(auto, unfolding(crate::specs::Setups::place_fault))]
fn place_fault<A: Allocator>(setup: &Setup<A>) -> Option<Place>
    ensures { result ≡ spec.place_fault setup.now }
{
    if !is_plain(0, 64, setup.station.items()) {
        return Some(Place::Station);
    }
    if !is_plain(0, 64, setup.device.items()) {
        return Some(Place::Device);
    }
    if let Some(i) = unplain_analog(first_256(setup.analog.items())) {
        return Some(Place::Analog(i as u32));
    }
    match unplain_status(first_256(setup.status.items())) {
        Some(i) => Some(Place::Status(i as u32)),
        None => None,
    }
}

/// Whether there are at most 256 channels of each kind, and at least one in all.
fn has_channels(analog: usize, status: usize) -> bool
    ensures { result ≡ spec.has_channels analog status }
{
    if analog > 256 {
        return false;
    }
    if status > 256 {
        return false;
    }
    1 <= analog + status
}

fn has_rate(rate: u32) -> bool
    ensures { result ≡ spec.has_rate rate }
{
    1 <= rate && rate <= 1_000_000
}

fn has_start(start: i64) -> bool
    ensures { result ≡ spec.has_start start }
{
    0 <= start && start <= LAST
}

/// The first fault of a rate and a start.
fn clock_fault_at(rate: u32, start: i64) -> Option<SetupFault>
    ensures { result ≡ spec.clock_fault rate start }
{
    if !has_rate(rate) {
        return Some(SetupFault::Rate);
    }
    if !has_start(start) {
        return Some(SetupFault::Start);
    }
    None
}

/// The first fault of a set-up's rate and start.
fn clock_fault<A: Allocator>(setup: &Setup<A>) -> Option<SetupFault>
    ensures { result ≡ spec.clock_fault setup.now.rate setup.now.start }
{
    clock_fault_at(setup.rate, setup.start)
}

/// The first fault of a set-up.
#[tactic(auto, unfolding(crate::specs::Setups::setup_fault))]
pub(crate) fn setup_fault<A: Allocator>(setup: &Setup<A>) -> Option<SetupFault>
    ensures { result ≡ spec.setup_fault setup.now }
{
    if let Some(place) = place_fault(setup) {
        return Some(SetupFault::Text(place));
    }
    if !has_channels(setup.analog.items().len(), setup.status.items().len()) {
        return Some(SetupFault::Channels);
    }
    if let Some(i) = without_span(setup.analog.items()) {
        return Some(SetupFault::Span(i as u32));
    }
    clock_fault(setup)
}

impl<A: Allocator + Copy> Setup<A> {
    ghost use Rattle.std.specs.Prelude.{◌≡◌, IfOk};

    /// The same set-up, with these copies of its lists.
    fn over(
        &self,
        station: Items<u8, A>,
        device: Items<u8, A>,
        analog: Items<AnalogChannel<A>, A>,
        status: Items<StatusChannel<A>, A>,
    ) -> Setup<A>
        requires station { station ≡ self.now.station }
        requires device { device ≡ self.now.device }
        requires analog { analog ≡ self.now.analog }
        requires status { status ≡ self.now.status }
        ensures { result ≡ self.now }
    {
        Setup {
            station,
            device,
            analog,
            status,
            line_freq: self.line_freq,
            rate: self.rate,
            start: self.start,
        }
    }

    /// A deep copy, on the same allocator. `Memory`: an allocation failed.
    pub fn try_clone(&self) -> Result<Setup<A>, Memory>
        ensures { IfOk result (λ copy. copy ≡ self.now) }
    {
        let alloc = *self.station.allocator();
        let station = self.station.try_clone()?;
        let device = self.device.try_clone()?;
        let analog = copies_of(alloc, self.analog.items())?;
        let status = copies_of(alloc, self.status.items())?;
        Ok(self.over(station, device, analog, status))
    }
}
