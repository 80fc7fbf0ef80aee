//! A detector of the scans of all channels.

use crate::sum::sample_of;
use crate::{Settings, Watch};
use comtrade_values::{Items, Memory};
use dfr_channels::Reading;
use std::alloc::{Allocator, Global};
use std::marker::Model;

/// Computes a bit for each scan from the sum of the samples of some channels: one channel, or the
/// phases of a residual current or voltage. A sequence is that of the first three channels, and with
/// fewer its bit is never 1. Contracts see what it keeps of the scans so far.
#[derive(Drop)]
pub struct Detector<A: Allocator = Global> {
    channels: Items<usize, A>,
    watch: Watch<A>,
}

impl<A: Allocator> Model for Detector<A> {
    ghost use Rattle.std.specs.Prelude.{◌≤◌, length};
    ghost use Rattle.dfr_detect.specs.Detection.{Detected, detected_by};

    ghost Value = { Detected };

    ghost view = { λ a. detected_by a.channels a.watch };

    ghost invariant = { λ a. length a.channels ≤ 256 };
}

impl<A: Allocator + Copy> Detector<A> {
    ghost use Rattle.std.specs.Prelude.{◌≡◌, ◌≤◌, [], None, IfOk, length};
    ghost use Rattle.dfr_detect.specs.Fitting.{settings_fault};
    ghost use Rattle.dfr_detect.specs.Detection.{detected, wanted, IsDetection};

    /// A detector that has seen no scan.
    pub fn new(alloc: A, settings: Settings, channels: Vec<usize, A>) -> Result<Detector<A>, Memory>
        requires fits { settings_fault settings ≡ None }
        requires few { length channels.items ≤ 256 }
        ensures { IfOk result (λ detector. detector ≡ detected (wanted settings channels.items) []) }
    {
        let watch = Watch::new(alloc, settings)?;
        Ok(Detector {
            channels: Items::of(channels),
            watch,
        })
    }

    /// Takes in the readings of a scan and returns its bit: that of the definition over all scans
    /// taken in. A lost scan has no readings.
    #[inline(always)]
    pub fn step(&mut self, readings: &[Reading]) -> bool
        ensures { IsDetection self.old readings.now result self.new }
    {
        let sample = sample_of(self.watch.condition(), self.channels.items(), readings);
        self.watch.step(sample)
    }
}
