//! Frames that are skipped, by reason.

ghost use Rattle.std.specs.Prelude.{◌≡◌, ◌<◌};
ghost use Rattle.dfr_look.specs.Faults as spec;

use crate::counter::up;
use dfr_bus::Wrong;

/// How many reasons there are.
pub const REASONS: usize = 13;

/// How many frames are skipped for each reason.
pub type Tally = [u64; REASONS];

/// The number of a reason in a tally.
pub fn number_of(wrong: Wrong) -> usize
    ensures value { result ≡ spec.number_of wrong }
    ensures bound { result < 13 }
{
    match wrong {
        Wrong::CutShort => 0,
        Wrong::Tag(_) => 1,
        Wrong::IndefiniteLength => 2,
        Wrong::ReservedLength => 3,
        Wrong::TooLong => 4,
        Wrong::Size => 5,
        Wrong::Length => 6,
        Wrong::Asdus => 7,
        Wrong::Uneven => 8,
        Wrong::Number => 9,
        Wrong::Kind => 10,
        Wrong::Trailing => 11,
        Wrong::Magic | Wrong::Version | Wrong::Link | Wrong::Packet => 12,
    }
}

/// The tally with one frame more that is skipped for this reason.
pub(crate) fn noted(tally: Tally, wrong: Wrong) -> Tally
    ensures { result ≡ spec.noted wrong tally }
{
    let mut tally = tally;
    let number = number_of(wrong);
    tally[number] = up(tally[number], 1);
    tally
}
