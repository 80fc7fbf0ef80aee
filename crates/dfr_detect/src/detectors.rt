//! Several detectors of the same scans.

ghost use Rattle.std.specs.Prelude.{◌≡◌, ◌≤◌, ◌+◌, length, vec_len, vec_capacity};
ghost use Rattle.dfr_detect.specs.Detection.{AreDetections};

use crate::Detector;
use comtrade_values::Memory;
use dfr_channels::Reading;
use std::alloc::{Allocator, Global};
use std::marker::Model;

/// Detectors of the same scans, in order. Contracts see what each keeps of the scans so far.
#[derive(Drop)]
pub struct Detectors<A: Allocator = Global> {
    pub(crate) list: Vec<Detector<A>, A>,
}

impl<A: Allocator> Model for Detectors<A> {
    ghost use Rattle.std.specs.Prelude.{List};
    ghost use Rattle.dfr_detect.specs.Detection.{Detected};

    ghost Value = { List Detected };

    ghost view = { λ a. a.list.items };
}

/// Appends the bit of each detector to those of the scan, which have room for it.
fn append_bits<A: Allocator + Copy>(
    list: &mut [Detector<A>],
    readings: &[Reading],
    bits: &mut Vec<bool, A>,
)
    requires { vec_len bits.old + length list.old ≤ vec_capacity bits.old }
    ensures { AreDetections list.old readings.now bits.old.items bits.new.items list.new }
{
    for detector in list.iter_mut() {
        let bit = detector.step(readings);
        let Ok(()) = bits.push(bit) else {
            unreachable!()
        };
    }
}

impl<A: Allocator + Copy> Detectors<A> {
    ghost use Rattle.std.specs.Prelude.{◌≡◌, OnOk, OnErr, length};
    ghost use Rattle.dfr_detect.specs.Detection.{AreDetections};

    /// These detectors, in order. Doesn't allocate.
    pub fn new(list: Vec<Detector<A>, A>) -> Detectors<A>
        ensures { result ≡ list.items }
    {
        Detectors { list }
    }

    /// How many detectors there are.
    pub fn len(&self) -> usize
        ensures { result ≡ length self.now }
    {
        self.list.len()
    }

    /// Takes in the readings of a scan, and appends the bits of the detectors to its status bits:
    /// those of their definitions over all scans taken in. After `Memory` nothing has changed.
    pub fn step(&mut self, readings: &[Reading], status: &mut Vec<bool, A>) -> Result<(), Memory>
        ensures ok { OnOk result (AreDetections self.old readings.now status.old.items status.new.items self.new) }
        ensures err { OnErr result (self.new ≡ self.old) }
        ensures err_status { OnErr result (status.new.items ≡ status.old.items) }
    {
        status.try_reserve(self.list.len())?;
        append_bits(&mut self.list, readings, status);
        Ok(())
    }
}
