//! The events of records, in one list: triggers, changes of status channels, gaps.

ghost use Rattle.std.specs.Prelude.{◌≡◌, ◌+◌, ◌-◌, ◌++◌, ◌==◌, [], OnOk, codes, decimal, if◌then◌else◌};
ghost use Rattle.comtrade_io.specs.Safe.{safe};

use crate::number::put_ordinal;
use crate::times::{time_at, times_since_trigger};
use comtrade_analysis::{Outage, events_of, outages_of};
use comtrade_format::File;
use comtrade_io::{ToolFault, put_safe};
use comtrade_values::{put, put_count, put_with};
use std::alloc::{AllocError, Allocator, Global};

/// What an event is.
#[derive(Clone, Copy, Debug, PartialEq, Eq)]
pub(crate) enum EventKind {
    /// The trigger of a record.
    Trigger,
    /// A change of a status channel.
    Change,
    /// A run of rows with missing readings, or changes that a file of events lacks.
    Gap,
}

/// An event, with its text.
#[derive(Debug, Drop)]
pub struct Event<A: Allocator = Global> {
    pub(crate) kind: EventKind,
    /// Nanoseconds since 1970-01-01 00:00:00; None where the time of the row is not known.
    pub(crate) at: Option<i128>,
    /// Nanoseconds since the trigger of the record.
    pub(crate) since: Option<i128>,
    /// The record's index in the list, from 0.
    pub(crate) record: usize,
    /// The index of the row, from 0; None for a trigger.
    pub(crate) row: Option<usize>,
    pub(crate) text: Vec<u8, A>,
}

/// A record, when its rows were taken, and the memory for its texts.
#[derive(Drop)]
struct Source<'a, A: Allocator> {
    alloc: A,
    file: &'a File<A>,
    /// Its index in the list, from 0.
    record: usize,
    /// The trigger, in microseconds since 1970-01-01 00:00:00.
    trigger: i64,
    /// Nanoseconds since the trigger.
    times: &'a [Option<i64>],
}

/// An event at a row, with the text that follows.
fn event_at<A: Allocator + Copy>(source: &Source<'_, A>, kind: EventKind, row: usize) -> Event<A>
    ensures kind { result.kind ≡ kind }
    ensures place { result.record ≡ source.now.record }
    ensures text { result.text.items ≡ [] }
{
    let (at, since) = match time_at(source.times, row) {
        Some(nanos) => (
            Some(source.trigger as i128 * 1000 + nanos as i128),
            Some(nanos as i128),
        ),
        None => (None, None),
    };
    Event {
        kind,
        at,
        since,
        record: source.record,
        row: Some(row),
        text: Vec::new(source.alloc),
    }
}

/// The text of a change of a status channel.
fn put_change<A: Allocator>(
    text: &mut Vec<u8, A>,
    place: usize,
    id: &[u8],
    bit: bool,
) -> Result<(), AllocError>
    ensures { OnOk result (text.new.items ≡ text.old.items ++ (codes "D" ++ decimal (place + 1)) ++ codes " " ++ safe id.now
        ++ (if bit then codes " 1" else codes " 0")) }
{
    put_ordinal(text, "D", place)?;
    put(text, " ")?;
    put_safe(text, id)?;
    put(text, if bit { " 1" } else { " 0" })
}

/// The changes of status channels.
fn add_changes<A: Allocator + Copy>(
    events: &mut Vec<Event<A>, A>,
    source: &Source<'_, A>,
) -> Result<(), ToolFault> {
    let file = source.file;
    let contacts = file.head.status.items();
    for change in events_of(source.alloc, file.rows.items(), contacts.len())?.iter() {
        if let Some(contact) = contacts.get(change.channel) {
            let mut event = event_at(source, EventKind::Change, change.row);
            put_change(
                &mut event.text,
                change.channel,
                contact.id.items(),
                change.closed,
            )?;
            events.push(event)?;
        }
    }
    Ok(())
}

/// The text of a run of rows with missing readings.
fn put_outage<A: Allocator>(text: &mut Vec<u8, A>, outage: Outage) -> Result<(), AllocError>
    ensures { OnOk result (text.new.items ≡ text.old.items ++ codes "readings of " ++ decimal outage.channels
        ++ (if outage.channels == 1 then codes " channel" else codes " channels")
        ++ (codes " missing, rows " ++ decimal (outage.first + 1))
        ++ (codes " to " ++ decimal (outage.first + outage.rows))) }
{
    put(text, "readings of ")?;
    put_count(text, outage.channels as u64, " channel", " channels")?;
    put_ordinal(text, " missing, rows ", outage.first)?;
    put_with(text, " to ", (outage.first + outage.rows) as u64)
}

/// The runs of rows with missing readings.
fn add_outages<A: Allocator + Copy>(
    events: &mut Vec<Event<A>, A>,
    source: &Source<'_, A>,
) -> Result<(), ToolFault> {
    let file = source.file;
    for outage in outages_of(source.alloc, file.rows.items())?.iter() {
        let mut event = event_at(source, EventKind::Gap, outage.first);
        put_outage(&mut event.text, *outage)?;
        events.push(event)?;
    }
    Ok(())
}

/// The text of a trigger: the names of its record.
fn put_trigger<A: Allocator>(text: &mut Vec<u8, A>, file: &File<A>) -> Result<(), AllocError>
    ensures { OnOk result (text.new.items ≡ text.old.items ++ codes "trigger of " ++ safe file.now.head.station
        ++ codes ", " ++ safe file.now.head.device) }
{
    put(text, "trigger of ")?;
    put_safe(text, file.head.station.items())?;
    put(text, ", ")?;
    put_safe(text, file.head.device.items())
}

/// The trigger, with the names of its record.
fn add_trigger<A: Allocator + Copy>(
    events: &mut Vec<Event<A>, A>,
    source: &Source<'_, A>,
) -> Result<(), ToolFault> {
    let mut text = Vec::new(source.alloc);
    put_trigger(&mut text, source.file)?;
    events.push(Event {
        kind: EventKind::Trigger,
        at: Some(source.trigger as i128 * 1000),
        since: Some(0),
        record: source.record,
        row: None,
        text,
    })?;
    Ok(())
}

/// Adds the events of a record, which has this index in the list.
pub fn add_events<A: Allocator + Copy>(
    alloc: A,
    events: &mut Vec<Event<A>, A>,
    file: &File<A>,
    record: usize,
) -> Result<(), ToolFault> {
    let times = times_since_trigger(alloc, file)?;
    let source = Source {
        alloc,
        file,
        record,
        trigger: file.head.trigger,
        times: &times,
    };
    add_trigger(events, &source)?;
    add_changes(events, &source)?;
    add_outages(events, &source)
}

/// Sorts the events by time; those without an instant come last.
pub fn sort_events<A: Allocator + Copy>(events: &mut Vec<Event<A>, A>) -> Result<(), ToolFault> {
    events.sort_by_key(|event| {
        let is_late = event.at.is_none();
        (is_late, event.at, event.record, event.row)
    })?;
    Ok(())
}
