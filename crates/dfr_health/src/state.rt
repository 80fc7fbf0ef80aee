//! What the newest events say of a recording.

ghost use Rattle.std.specs.Prelude.{◌≡◌, List, ◌∷◌};
ghost use Rattle.dfr_station.specs.declared.event.Event.{Event as Told};
ghost use Rattle.dfr_health.specs.Counts as spec;

use dfr_station::{ClockState, Event, Trouble};

/// What the newest events say of a recording.
#[derive(Clone, Copy, Debug, PartialEq, Eq)]
pub struct State {
    /// How many scans have come. None while that isn't known.
    pub scans: Option<u64>,
    /// How many records wait on the shelf. None while that isn't known.
    pub waiting: Option<u64>,
    pub is_shelf_full: bool,
    /// Why the store takes no pair.
    pub trouble: Option<Trouble>,
    /// How the wall clock and the scans stand to each other.
    pub clock: Option<ClockState>,
    /// For how many seconds no scan had come when that was reported, while none comes.
    pub silence: Option<u64>,
    /// A scan has come.
    pub has_scan: bool,
    /// Between the first scan and the end of the input.
    pub is_recording: bool,
}

fn scans_in(event: Event) -> Option<Option<u64>>
    ensures { result ≡ spec.scans_in event }
{
    match event {
        Event::Started { .. } => Some(None),
        Event::Minute { scans, .. } | Event::Ended { scans, .. } => Some(Some(scans)),
        _ => None,
    }
}

fn waiting_in(event: Event) -> Option<Option<u64>>
    ensures { result ≡ spec.waiting_in event }
{
    match event {
        Event::Started { .. } | Event::ShelfFree => Some(None),
        Event::Minute { waiting, .. } => Some(Some(waiting)),
        Event::ShelfFull(waiting) => Some(Some(waiting as u64)),
        Event::Ended { .. } => Some(Some(0)),
        _ => None,
    }
}

fn shelf_full_in(event: Event) -> Option<bool>
    ensures { result ≡ spec.shelf_full_in event }
{
    match event {
        Event::ShelfFull(_) => Some(true),
        Event::ShelfFree | Event::Ended { .. } => Some(false),
        _ => None,
    }
}

fn trouble_in(event: Event) -> Option<Option<Trouble>>
    ensures { result ≡ spec.trouble_in event }
{
    match event {
        Event::Trouble(why) => Some(Some(why)),
        Event::Over | Event::Record { .. } => Some(None),
        _ => None,
    }
}

fn clock_in(event: Event) -> Option<Option<ClockState>>
    ensures { result ≡ spec.clock_in event }
{
    match event {
        Event::Minute {
            clock: Some(clock),
            ..
        }
        | Event::Record {
            clock: Some(clock),
            ..
        } => Some(Some(clock)),
        _ => None,
    }
}

fn silence_in(event: Event) -> Option<Option<u64>>
    ensures { result ≡ spec.silence_in event }
{
    match event {
        Event::Silent(seconds) => Some(Some(seconds)),
        Event::Heard => Some(None),
        _ => None,
    }
}

fn has_scan_in(event: Event) -> Option<bool>
    ensures { result ≡ spec.has_scan_in event }
{
    match event {
        Event::Started { .. } => Some(true),
        Event::Minute { scans, .. } | Event::Ended { scans, .. } => Some(0 < scans),
        _ => None,
    }
}

fn recording_in(event: Event) -> Option<bool>
    ensures { result ≡ spec.recording_in event }
{
    match event {
        Event::Started { .. } => Some(true),
        Event::Ended { .. } => Some(false),
        _ => None,
    }
}

impl State {
    /// Before any event.
    pub(crate) const NONE: State = State {
        scans: Some(0),
        waiting: Some(0),
        is_shelf_full: false,
        trouble: None,
        clock: None,
        silence: None,
        has_scan: false,
        is_recording: false,
    };

    /// The state after one more event.
    pub(crate) fn after(self, event: Event) -> State
        ensures { (events : List Told) → spec.IsStateOf events self → spec.IsStateOf (event ∷ events) result }
    {
        State {
            scans: scans_in(event).unwrap_or(self.scans),
            waiting: waiting_in(event).unwrap_or(self.waiting),
            is_shelf_full: shelf_full_in(event).unwrap_or(self.is_shelf_full),
            trouble: trouble_in(event).unwrap_or(self.trouble),
            clock: clock_in(event).unwrap_or(self.clock),
            silence: silence_in(event).unwrap_or(self.silence),
            has_scan: has_scan_in(event).unwrap_or(self.has_scan),
            is_recording: recording_in(event).unwrap_or(self.is_recording),
        }
    }
}
