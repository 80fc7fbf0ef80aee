//! Which of many records, and of their events, are meant.

ghost use Rattle.std.specs.Prelude.{◌≡◌, ◌≤ℤ◌, ◌↔◌, IfSome, IsTrue};

use crate::cycles::amperes_of;
use crate::events::{Event, EventKind};
use crate::part::{Moment, fits, moment_of};
use crate::summary::Summary;
use comtrade_format::nearest_f64;
use comtrade_io::Surveyed;
use comtrade_values::{Decimal, Memory};
use std::alloc::{AllocError, Allocator};
use thiserror::Error;

/// Why options don't say which records and events are meant.
#[derive(Clone, Copy, Debug, PartialEq, Eq, Error)]
pub enum FilterFault {
    /// A text is no instant.
    #[error("--from and --to expect an instant, such as 2024-07-01T10:30")]
    Instant,
    /// A text is no current.
    #[error("--min-current expects a current in A, such as 2000")]
    Current,
    /// A text is no kind of events.
    #[error("--type expects trigger, change or gap, joined by commas")]
    Kind,
}

/// The kinds of events that are meant.
#[derive(Clone, Copy, Debug, PartialEq, Eq)]
pub(crate) struct Kinds {
    pub(crate) trigger: bool,
    pub(crate) change: bool,
    pub(crate) gap: bool,
}

/// Which records and events are meant.
#[derive(Clone, Copy, Debug)]
pub struct Filter<'a> {
    /// The first and the last instant, in nanoseconds since 1970-01-01 00:00:00.
    pub(crate) from: Option<i128>,
    pub(crate) to: Option<i128>,
    /// The station's name, in which * stands for any characters.
    station: Option<&'a str>,
    /// The least size of the greatest current, in A.
    least: Option<Decimal>,
    pub(crate) kinds: Kinds,
}

/// The instant that a text gives, if there is one.
fn instant_in(text: Option<&str>) -> Result<Option<i128>, FilterFault> {
    let Some(text) = text else {
        return Ok(None);
    };
    match moment_of(text) {
        Some(Moment::Instant(nanos)) => Ok(Some(nanos)),
        _ => Err(FilterFault::Instant),
    }
}

/// The current that a text gives, if there is one.
fn current_in(text: Option<&str>) -> Result<Option<Decimal>, FilterFault> {
    let Some(text) = text else {
        return Ok(None);
    };
    match Decimal::read(text.as_bytes()) {
        Some(current) if 0 <= current.units() => Ok(Some(current)),
        _ => Err(FilterFault::Current),
    }
}

/// The kinds that a text names; all of them without one.
fn kinds_in(text: Option<&str>) -> Result<Kinds, FilterFault> {
    let is_all = text.is_none();
    let mut kinds = Kinds {
        trigger: is_all,
        change: is_all,
        gap: is_all,
    };
    let Some(text) = text else {
        return Ok(kinds);
    };
    for name in text.split(',') {
        match name.trim() {
            "trigger" => kinds.trigger = true,
            "change" => kinds.change = true,
            "gap" => kinds.gap = true,
            _ => return Err(FilterFault::Kind),
        }
    }
    Ok(kinds)
}

impl Kinds {
    /// Whether events of a kind are meant.
    pub(crate) fn has(self, kind: EventKind) -> bool
        ensures trigger { kind ≡ EventKind.Trigger → result ≡ self.trigger }
        ensures change { kind ≡ EventKind.Change → result ≡ self.change }
        ensures gap { kind ≡ EventKind.Gap → result ≡ self.gap }
    {
        match kind {
            EventKind::Trigger => self.trigger,
            EventKind::Change => self.change,
            EventKind::Gap => self.gap,
        }
    }
}

/// Whether an instant is neither before the first nor after the last one, where these are given.
pub(crate) fn is_within(from: Option<i128>, to: Option<i128>, at: i128) -> bool
    ensures { IsTrue result ↔ (IfSome from (λ first. first ≤ℤ at) × IfSome to (λ last. at ≤ℤ last)) }
{
    if let Some(first) = from
        && at < first
    {
        return false;
    }
    match to {
        Some(last) => at <= last,
        None => true,
    }
}

impl<'a> Filter<'a> {
    /// What the options of a list of many records choose. Errors in this order: `Instant`,
    /// `Current`, `Kind`.
    pub fn of(asked: &Surveyed<'a>) -> Result<Filter<'a>, FilterFault> {
        Ok(Filter {
            from: instant_in(asked.from)?,
            to: instant_in(asked.to)?,
            station: asked.station,
            least: current_in(asked.least_current)?,
            kinds: kinds_in(asked.kinds)?,
        })
    }

    /// Whether a station of this name is meant.
    pub fn has_station(&self, name: &[u8]) -> bool {
        match self.station {
            Some(station) => fits(station.as_bytes(), name),
            None => true,
        }
    }

    /// Whether a current of this size in A is meant.
    fn has_current<A: Allocator + Copy>(&self, alloc: A, amperes: f64) -> Result<bool, Memory> {
        match self.least {
            Some(least) => Ok(nearest_f64(alloc, least)? <= amperes),
            None => Ok(true),
        }
    }

    /// Whether a record is meant, by its trigger, its station and its greatest current. One that
    /// cannot be read always is.
    pub fn has_record<A: Allocator + Copy>(
        &self,
        alloc: A,
        record: &Summary<A>,
    ) -> Result<bool, Memory> {
        let Some(facts) = &record.facts else {
            return Ok(true);
        };
        let trigger = facts.trigger as i128 * 1000;
        if !is_within(self.from, self.to, trigger) || !self.has_station(&facts.station) {
            return Ok(false);
        }
        let Some(current) = &facts.greatest else {
            return Ok(self.least.is_none());
        };
        match current.value.decimal() {
            Some(value) => {
                let amperes = nearest_f64(alloc, value)?.abs() * amperes_of(&current.unit);
                self.has_current(alloc, amperes)
            }
            None => Ok(true),
        }
    }

    /// Whether an event is meant, by its kind and its instant. One without an instant is within
    /// all times.
    pub(crate) fn has_event<A: Allocator>(&self, event: &Event<A>) -> bool {
        let is_in_time = match event.at {
            Some(at) => is_within(self.from, self.to, at),
            None => true,
        };
        is_in_time && self.kinds.has(event.kind)
    }
}

/// The events that are meant, in their order.
pub fn chosen_events<A: Allocator + Copy>(
    alloc: A,
    filter: &Filter<'_>,
    events: Vec<Event<A>, A>,
) -> Result<Vec<Event<A>, A>, AllocError> {
    let mut chosen = Vec::new(alloc);
    for event in events {
        if filter.has_event(&event) {
            chosen.push(event)?;
        }
    }
    Ok(chosen)
}
