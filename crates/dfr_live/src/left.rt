//! What the queue carries, and one step of it.

ghost use Rattle.std.specs.Prelude.{◌≡◌, MatchResult};
ghost use Rattle.dfr_live.specs.Calls.{StepsNext};

use crate::returned::hand_back;
use dfr_channels::Scan;
use dfr_recorder::{LostRefusal, Recorder, ScanRefusal, Scanned};
use rtrb::Producer;
use std::alloc::{Allocator, Global};
use std::marker::Model;

/// A scan, after a number of lost scans.
#[derive(Drop, Debug)]
pub struct Left<A: Allocator = Global> {
    /// How many scans were lost between the scan before and this one.
    pub lost: u32,
    /// The scan.
    pub scan: Scan<A>,
}

impl<A: Allocator> Model for Left<A> {
    ghost use Rattle.dfr_live.specs.Parts.{LeftParts};

    ghost Value = { LeftParts };

    ghost view = { λ l. record { lost = l.lost; scan = l.scan } };
}

/// Makes the next step of a scan after `lost` lost scans. Returns the answer and what is left, or
/// all of it where an allocation failed. A scan that leaves the pre-trigger memory is handed back.
pub(crate) fn step_next<A: Allocator + Copy>(
    recorder: &mut Recorder<A>,
    back: &mut Producer<Scan<A>, A>,
    lost: u32,
    scan: Scan<A>,
) -> Result<(Result<Scanned, ScanRefusal>, Option<Left<A>>), Left<A>>
    ensures { MatchResult result
        (λ r. StepsNext recorder.old (record { lost = lost; scan = scan }) r.0 r.1 recorder.new)
        (λ back. (back ≡ record { lost = lost; scan = scan })
        × (recorder.new ≡ recorder.old)) }
{
    if lost > 0 {
        return match recorder.lost() {
            Ok(scanned) => Ok((
                Ok(scanned),
                Some(Left {
                    lost: lost - 1,
                    scan,
                }),
            )),
            Err(LostRefusal::ClockEnd) => Ok((
                Err(ScanRefusal::ClockEnd),
                Some(Left {
                    lost: lost - 1,
                    scan,
                }),
            )),
            Err(LostRefusal::Memory) => Err(Left { lost, scan }),
        };
    }
    let mut leaves = None;
    let scanned = recorder.scan_leaving(scan, &mut leaves);
    hand_back(back, leaves);
    match scanned {
        Ok(scanned) => Ok((Ok(scanned), None)),
        Err((ScanRefusal::Memory, scan)) => Err(Left { lost, scan }),
        Err((ScanRefusal::Shape, _)) => Ok((Err(ScanRefusal::Shape), None)),
        Err((ScanRefusal::Range(i), _)) => Ok((Err(ScanRefusal::Range(i)), None)),
        Err((ScanRefusal::ClockEnd, _)) => Ok((Err(ScanRefusal::ClockEnd), None)),
    }
}
