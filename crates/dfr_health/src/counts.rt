//! Counts of events, each kind apart. They stop at the greatest `u64`.

ghost use Rattle.std.specs.Prelude.{◌≡◌, ◌+◌, ◌-◌, ◌^◌, min, max, unwrap_or, List, ◌∷◌};
ghost use Rattle.dfr_station.specs.declared.event.Event.{Event as Told};
ghost use Rattle.dfr_health.specs.Counts as spec;

use dfr_station::{Event, Trouble, Why};

/// Why scans are lost.
#[derive(Clone, Copy, Debug, PartialEq, Eq)]
pub enum Reason {
    Told,
    Unread,
    Shape,
    Range,
    Full,
    Memory,
    Counted,
    Silent,
}

/// How many scans were lost, by the reason.
#[derive(Clone, Copy, Debug, PartialEq, Eq)]
pub struct Lost {
    pub told: u64,
    pub unread: u64,
    pub shape: u64,
    pub range: u64,
    pub full: u64,
    pub memory: u64,
    pub counted: u64,
    pub silent: u64,
}

/// How many records were given up, by the reason.
#[derive(Clone, Copy, Debug, PartialEq, Eq)]
pub struct Unwritten {
    pub full: u64,
    pub gone: u64,
    pub denied: u64,
    pub memory: u64,
    pub other: u64,
    pub storm: u64,
    /// Records that were open at the end and could not be closed.
    pub unfinished: u64,
}

/// A count of which one kind of event reports what is new, and another the sum. Events that report
/// what is new may be missed, and come later than the sum. So the greater number is known to be
/// true.
#[derive(Clone, Copy, Debug, PartialEq, Eq)]
pub struct Tally {
    pub(crate) new: u64,
    pub(crate) sum: u64,
}

/// The sum of two counts.
pub(crate) fn plus(count: u64, more: u64) -> u64
    ensures { result ≡ min (count + more) (2 ^ 64 - 1) }
{
    count.saturating_add(more)
}

/// Whether scans that are lost for `why` count for a reason.
fn is_for(reason: Reason, why: Why) -> bool
    ensures { result ≡ spec.is_for reason why }
{
    match why {
        Why::Told => matches!(reason, Reason::Told),
        Why::Unread => matches!(reason, Reason::Unread),
        Why::Shape => matches!(reason, Reason::Shape),
        Why::Range(_) => matches!(reason, Reason::Range),
        Why::Full => matches!(reason, Reason::Full),
        Why::Memory => matches!(reason, Reason::Memory),
        Why::Counted => matches!(reason, Reason::Counted),
        Why::Silent => matches!(reason, Reason::Silent),
    }
}

/// How many scans an event reports as lost for a reason.
fn lost_in(reason: Reason, event: Event) -> u64
    ensures { result ≡ spec.lost_in reason event }
{
    match event {
        Event::Lost { count, why, .. } => { if is_for(reason, why) { count } else { 0 } }
        _ => 0,
    }
}

/// Whether two reasons for which a store takes no pair are the same.
fn is_same(one: Trouble, other: Trouble) -> bool
    ensures { result ≡ spec.is_same one other }
{
    match one {
        Trouble::Full => matches!(other, Trouble::Full),
        Trouble::Gone => matches!(other, Trouble::Gone),
        Trouble::Denied => matches!(other, Trouble::Denied),
        Trouble::Memory => matches!(other, Trouble::Memory),
        Trouble::Other => matches!(other, Trouble::Other),
        Trouble::Storm => matches!(other, Trouble::Storm),
    }
}

/// How many records an event reports as given up for a reason.
fn unwritten_in(trouble: Trouble, event: Event) -> u64
    ensures { result ≡ spec.unwritten_in trouble event }
{
    match event {
        Event::Unwritten { why, .. } => u64::from(is_same(trouble, why)),
        _ => 0,
    }
}

/// How many records an event reports that could not be closed.
fn unfinished_in(event: Event) -> u64
    ensures { result ≡ spec.unfinished_in event }
{
    match event {
        Event::Unfinished => 1,
        _ => 0,
    }
}

impl Lost {
    /// No scan is lost.
    pub(crate) const NONE: Lost = Lost {
        told: 0,
        unread: 0,
        shape: 0,
        range: 0,
        full: 0,
        memory: 0,
        counted: 0,
        silent: 0,
    };

    /// The counts after one more event.
    pub(crate) fn after(self, event: Event) -> Lost
        ensures { (events : List Told) → spec.IsLostOf events self → spec.IsLostOf (event ∷ events) result }
    {
        Lost {
            told: plus(self.told, lost_in(Reason::Told, event)),
            unread: plus(self.unread, lost_in(Reason::Unread, event)),
            shape: plus(self.shape, lost_in(Reason::Shape, event)),
            range: plus(self.range, lost_in(Reason::Range, event)),
            full: plus(self.full, lost_in(Reason::Full, event)),
            memory: plus(self.memory, lost_in(Reason::Memory, event)),
            counted: plus(self.counted, lost_in(Reason::Counted, event)),
            silent: plus(self.silent, lost_in(Reason::Silent, event)),
        }
    }
}

impl Unwritten {
    /// No record is given up.
    pub(crate) const NONE: Unwritten = Unwritten {
        full: 0,
        gone: 0,
        denied: 0,
        memory: 0,
        other: 0,
        storm: 0,
        unfinished: 0,
    };

    /// The counts after one more event.
    pub(crate) fn after(self, event: Event) -> Unwritten
        ensures { (events : List Told) → spec.IsUnwrittenOf events self → spec.IsUnwrittenOf (event ∷ events) result }
    {
        Unwritten {
            full: plus(self.full, unwritten_in(Trouble::Full, event)),
            gone: plus(self.gone, unwritten_in(Trouble::Gone, event)),
            denied: plus(self.denied, unwritten_in(Trouble::Denied, event)),
            memory: plus(self.memory, unwritten_in(Trouble::Memory, event)),
            other: plus(self.other, unwritten_in(Trouble::Other, event)),
            storm: plus(self.storm, unwritten_in(Trouble::Storm, event)),
            unfinished: plus(self.unfinished, unfinished_in(event)),
        }
    }
}

impl Tally {
    pub(crate) const NONE: Tally = Tally { new: 0, sum: 0 };

    /// The count after so many more, and the sum, if it is said.
    pub(crate) fn after(self, more: u64, sum: Option<u64>) -> Tally
        ensures new { result.new ≡ min (self.new + more) (2 ^ 64 - 1) }
        ensures sum { result.sum ≡ unwrap_or sum self.sum }
    {
        Tally {
            new: plus(self.new, more),
            sum: sum.unwrap_or(self.sum),
        }
    }

    /// The count.
    pub fn total(self) -> u64
        ensures { result ≡ max self.new self.sum }
    {
        self.new.max(self.sum)
    }
}
