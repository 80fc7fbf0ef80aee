//! A scan: the samples of all channels at one instant.

ghost use Rattle.std.specs.Prelude.{◌≡◌, IfOk};

use comtrade_values::{Items, Memory};
use std::alloc::{Allocator, Global};
use std::marker::Model;

/// The sample of an analogue channel in a scan.
#[derive(Clone, Copy, Debug, PartialEq, Eq)]
pub enum Reading {
    /// The raw sample x; its value in the channel's unit is a·x + b.
    Value(i32),
    /// There is no sample.
    Missing,
}

/// A scan: the readings of the analogue channels and the bits of the status channels at one
/// instant.
#[derive(Drop, Debug)]
pub struct Scan<A: Allocator = Global> {
    analog: Items<Reading, A>,
    status: Items<bool, A>,
}

impl<A: Allocator> Model for Scan<A> {
    ghost use Rattle.dfr_channels.specs.Parts.{ScanParts};

    ghost Value = { ScanParts };

    ghost view = { λ s. record { analog = s.analog; status = s.status } };
}

impl<A: Allocator> Scan<A> {
    /// Makes a scan of these readings and bits. Doesn't allocate.
    pub fn new(analog: Vec<Reading, A>, status: Vec<bool, A>) -> Scan<A>
        ensures { result ≡ record { analog = analog.items; status = status.items } }
    {
        Scan {
            analog: Items::of(analog),
            status: Items::of(status),
        }
    }

    /// The readings of the analogue channels.
    pub fn analog(&self) -> &[Reading]
        ensures { result.now ≡ self.now.analog }
    {
        self.analog.items()
    }

    /// The bits of the status channels.
    pub fn status(&self) -> &[bool]
        ensures { result.now ≡ self.now.status }
    {
        self.status.items()
    }
}

impl<A: Allocator> Scan<A> {
    /// The readings and the bits. Their memory can serve another scan.
    pub fn into_parts(self) -> (Vec<Reading, A>, Vec<bool, A>)
        ensures readings { result.0.items ≡ self.analog }
        ensures bits { result.1.items ≡ self.status }
    {
        (self.analog.into_vec(), self.status.into_vec())
    }
}

impl<A: Allocator + Copy> Scan<A> {
    /// A deep copy, on the same allocator. `Memory`: an allocation failed.
    pub fn try_clone(&self) -> Result<Scan<A>, Memory>
        ensures { IfOk result (λ copy. copy ≡ self.now) }
    {
        let analog = self.analog.try_clone()?;
        let status = self.status.try_clone()?;
        Ok(Scan { analog, status })
    }
}
