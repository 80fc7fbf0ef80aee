//! How a recording stands, by the events that were printed.

ghost use Rattle.std.specs.Prelude.{◌≡◌, List, [], ◌∷◌};
ghost use Rattle.dfr_station.specs.declared.event.Event.{Event as Told};
ghost use Rattle.dfr_health.specs.Counts as spec;

use crate::counts::{Lost, Tally, Unwritten, plus};
use crate::state::State;
use dfr_station::Event;

/// How a recording stands.
#[derive(Clone, Copy, Debug, PartialEq, Eq)]
pub struct Standing {
    /// How many scans were lost, by the reason.
    pub lost: Lost,
    /// How many records were given up, by the reason.
    pub unwritten: Unwritten,
    /// How many records were stored.
    pub records: Tally,
    /// At how many scans a rule fired while the shelf was full.
    pub unopened: Tally,
    /// How many old pairs were deleted.
    pub removed: u64,
    /// How many events were not printed.
    pub missed: u64,
    pub state: State,
}

fn records_in(event: Event) -> u64
    ensures { result ≡ spec.records_in event }
{
    match event {
        Event::Record { .. } => 1,
        _ => 0,
    }
}

fn all_records_in(event: Event) -> Option<u64>
    ensures { result ≡ spec.all_records_in event }
{
    match event {
        Event::Minute { records, .. } | Event::Ended { records, .. } => Some(records),
        _ => None,
    }
}

fn unopened_in(event: Event) -> u64
    ensures { result ≡ spec.unopened_in event }
{
    match event {
        Event::Unopened(count) => count,
        _ => 0,
    }
}

fn all_unopened_in(event: Event) -> Option<u64>
    ensures { result ≡ spec.all_unopened_in event }
{
    match event {
        Event::Minute { missed, .. } => Some(missed),
        _ => None,
    }
}

fn removed_in(event: Event) -> u64
    ensures { result ≡ spec.removed_in event }
{
    match event {
        Event::Removed(count) => count,
        _ => 0,
    }
}

fn missed_in(event: Event) -> u64
    ensures { result ≡ spec.missed_in event }
{
    match event {
        Event::Missed(count) => count,
        _ => 0,
    }
}

impl Standing {
    /// Before any event.
    pub fn new() -> Standing
        ensures { spec.IsStandingOf [] result }
    {
        Standing {
            lost: Lost::NONE,
            unwritten: Unwritten::NONE,
            records: Tally::NONE,
            unopened: Tally::NONE,
            removed: 0,
            missed: 0,
            state: State::NONE,
        }
    }

    /// How it stands after one more event.
    pub fn after(self, event: Event) -> Standing
        ensures { (events : List Told) → spec.IsStandingOf events self
            → spec.IsStandingOf (event ∷ events) result }
    {
        Standing {
            lost: self.lost.after(event),
            unwritten: self.unwritten.after(event),
            records: self.records.after(records_in(event), all_records_in(event)),
            unopened: self
                .unopened
                .after(unopened_in(event), all_unopened_in(event)),
            removed: plus(self.removed, removed_in(event)),
            missed: plus(self.missed, missed_in(event)),
            state: self.state.after(event),
        }
    }
}
