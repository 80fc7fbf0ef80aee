//! Several detectors, and lost scans.

ghost use Rattle.dfr_detect.specs.Lost.{AreAfterLoss};

use crate::{Detector, Detectors};
use std::alloc::Allocator;

/// Each detector takes in a lost scan.
fn lose_each<A: Allocator + Copy>(list: &mut [Detector<A>])
    ensures { AreAfterLoss list.old list.new }
{
    for detector in list.iter_mut() {
        detector.step(&[]);
    }
}

impl<A: Allocator + Copy> Detectors<A> {
    ghost use Rattle.dfr_detect.specs.Lost.{AreAfterLoss};

    /// Takes in a lost scan, which has no readings. Doesn't allocate.
    pub fn lose(&mut self)
        ensures { AreAfterLoss self.old self.new }
    {
        lose_each(&mut self.list);
    }
}
