//! Lost scans that are reported together: those of each reason apart.

ghost use Rattle.std.specs.Prelude.{◌≡◌, Some, if◌then◌else◌};
ghost use Rattle.dfr_station.specs.declared.intake.feed.Why.{Why};
ghost use Rattle.dfr_station.specs.Reported as spec;

use crate::event::Event;
use crate::intake::Why;

/// How many kinds of reasons there are.
pub(crate) const KINDS: usize = 8;

/// Lost scans: the places of the first and the last, how many there are, and why the first was
/// lost.
#[derive(Clone, Copy, Debug, PartialEq, Eq)]
pub(crate) struct Losses {
    pub(crate) first: u64,
    pub(crate) last: u64,
    pub(crate) count: u64,
    pub(crate) why: Why,
}

/// The losses that the event reports, if it is such an event.
pub(crate) fn losses_in(event: Event) -> Option<Losses> {
    match event {
        Event::Lost {
            first,
            last,
            count,
            why,
        } => Some(Losses {
            first,
            last,
            count,
            why,
        }),
        _ => None,
    }
}

impl Losses {
    /// The event that reports them.
    pub(crate) fn event(self) -> Event {
        Event::Lost {
            first: self.first,
            last: self.last,
            count: self.count,
            why: self.why,
        }
    }
}

/// Losses, and later ones.
fn joined(losses: Option<Losses>, later: Losses) -> Losses
    ensures { result ≡ spec.joined losses later }
{
    match losses {
        Some(before) => Losses {
            last: later.last,
            count: before.count.saturating_add(later.count),
            ..before
        },
        None => later,
    }
}

/// Losses that wait to be reported, those of each reason apart.
#[derive(Clone, Copy, Debug, PartialEq, Eq)]
pub(crate) struct Pending {
    told: Option<Losses>,
    unread: Option<Losses>,
    shape: Option<Losses>,
    range: Option<Losses>,
    full: Option<Losses>,
    memory: Option<Losses>,
    counted: Option<Losses>,
    silent: Option<Losses>,
}

impl Pending {
    /// None wait.
    pub(crate) const NONE: Pending = Pending {
        told: None,
        unread: None,
        shape: None,
        range: None,
        full: None,
        memory: None,
        counted: None,
        silent: None,
    };

    /// Adds losses to those of the same reason.
    pub(crate) fn add(&mut self, later: Losses)
        ensures { (why : Why) → spec.waiting self.new why ≡ (if spec.is_alike why later.why
            then Some (spec.joined (spec.waiting self.old why) later) else spec.waiting self.old why) }
    {
        match later.why {
            Why::Told => self.told = Some(joined(self.told, later)),
            Why::Unread => self.unread = Some(joined(self.unread, later)),
            Why::Shape => self.shape = Some(joined(self.shape, later)),
            Why::Range(_) => self.range = Some(joined(self.range, later)),
            Why::Full => self.full = Some(joined(self.full, later)),
            Why::Memory => self.memory = Some(joined(self.memory, later)),
            Why::Counted => self.counted = Some(joined(self.counted, later)),
            Why::Silent => self.silent = Some(joined(self.silent, later)),
        }
    }

    /// Takes the losses of one reason, if any wait.
    #[tactic(auto, using(crate::proofs::Taking::none_there, crate::proofs::Taking::some_there, crate::proofs::Taking::last_there))]
    pub(crate) fn take(&mut self) -> Option<Losses>
        ensures { spec.Takes (spec.all_of self.old) result (spec.all_of self.new) }
    {
        if self.told.is_some() {
            return self.told.take();
        }
        if self.unread.is_some() {
            return self.unread.take();
        }
        if self.shape.is_some() {
            return self.shape.take();
        }
        if self.range.is_some() {
            return self.range.take();
        }
        if self.full.is_some() {
            return self.full.take();
        }
        if self.memory.is_some() {
            return self.memory.take();
        }
        if self.counted.is_some() {
            return self.counted.take();
        }
        self.silent.take()
    }
}
