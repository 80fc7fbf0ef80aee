//! The detectors that lines ask for, over the channels of a record.

ghost use Rattle.std.specs.Prelude.{◌≡◌, [], IfOk, map};
ghost use Rattle.comtrade_values.specs.Lines.{cut_lines};
ghost use Rattle.dfr_detect.specs.Detection.{all_detected};
ghost use Rattle.dfr_setup.specs.Plans.{wanted_of, with_lines};
ghost use Rattle.dfr_setup.specs.Refusing.{IsAt};

use crate::DetectorRefusal;
use crate::plan::Plan;
use crate::plans::plans_of;
use crate::prepared::detectors_of;
use dfr_channels::Setup;
use dfr_detect::Detectors;
use std::alloc::{Allocator, Global};

/// Detectors that have seen no scan.
#[derive(Drop)]
pub struct Planned<A: Allocator = Global> {
    /// The detectors, in the order of their lines.
    pub plans: Vec<Plan<A>, A>,
    /// The same, ready for the first scan.
    pub detectors: Detectors<A>,
}

/// The detectors of the lines `detect` of a text, over these channels. Other lines are skipped. An
/// error has the number of its line, from 1.
pub fn detectors_over<A: Allocator + Copy>(
    alloc: A,
    setup: &Setup<A>,
    text: &[u8],
) -> Result<Planned<A>, (u64, DetectorRefusal)>
    ensures plans { IsAt (λ p. p.plans.items) (with_lines setup.now 1 [] (cut_lines text.now)) result }
    ensures fresh { IfOk result (λ p. p.detectors ≡ all_detected (map wanted_of p.plans.items) []) }
{
    let plans = plans_of(alloc, setup, text)?;
    let Ok(detectors) = detectors_of(alloc, &plans) else {
        return Err((0, DetectorRefusal::Memory));
    };
    Ok(Planned { plans, detectors })
}
