//! How grave events are, as the system's log counts it.

ghost use Rattle.std.specs.Prelude.{◌≡◌};
ghost use Rattle.dfr_health.specs.Levels as spec;

use dfr_recorder::Hit;
use dfr_station::{Event, Replied, Trouble};

/// How grave an event is.
#[derive(Clone, Copy, Debug, PartialEq, Eq)]
pub enum Level {
    /// Records or all scans are in danger.
    Trouble,
    /// Something was lost or refused.
    Loss,
    /// Anything else.
    Plain,
}

impl Level {
    ghost use Rattle.std.specs.Prelude.{◌≡◌};
    ghost use Rattle.dfr_health.specs.Levels.{prefix_text};

    /// What a line of this level begins with, as journald reads it: the number of the syslog level.
    pub fn prefix(self) -> &'static str
        ensures { result.now ≡ prefix_text self }
    {
        match self {
            Level::Trouble => "<3>",
            Level::Loss => "<4>",
            Level::Plain => "<6>",
        }
    }
}

/// The level of the answer to an order.
fn level_of_reply(reply: Replied) -> Level
    ensures { result ≡ spec.level_of_reply reply }
{
    match reply {
        Replied::Trigger(Ok(Hit::ShelfFull)) => Level::Loss,
        Replied::Trigger(Ok(_)) => Level::Plain,
        Replied::Trigger(Err(_)) => Level::Loss,
        Replied::Rules(true) => Level::Plain,
        Replied::Rules(false) => Level::Loss,
        Replied::Stop => Level::Plain,
    }
}

/// The level of an event.
pub fn level_of(event: Event) -> Level
    ensures { result ≡ spec.level event }
{
    match event {
        Event::Unwritten {
            why: Trouble::Storm,
            ..
        } => Level::Loss,
        Event::Trouble(_)
        | Event::Unwritten { .. }
        | Event::Unfinished
        | Event::ShelfFull(_)
        | Event::Silent(_)
        | Event::Broken
        | Event::Memory => Level::Trouble,
        Event::Lost { .. }
        | Event::Line { .. }
        | Event::Order(_)
        | Event::Unopened(_)
        | Event::Missed(_)
        | Event::Cut(_)
        | Event::Noise(_)
        | Event::Undated
        | Event::ClockSet(_)
        | Event::Record { is_cut: true, .. } => Level::Loss,
        Event::Reply { reply, .. } => level_of_reply(reply),
        Event::Started { .. }
        | Event::Record { is_cut: false, .. }
        | Event::ShelfFree
        | Event::Over
        | Event::Removed(_)
        | Event::Heard
        | Event::Minute { .. }
        | Event::Ended { .. } => Level::Plain,
    }
}
