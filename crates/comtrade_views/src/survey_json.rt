//! Events and lists of records as JSON.

use crate::event_table::{micros_at, since_before};
use crate::events::Event;
use crate::facts::{Facts, Greatest};
use crate::head_json::instant_text;
use crate::json::{plain_text_of, put_json, text_of};
use crate::json_number::{JsonNumber, exact_json, millis_json, number_json};
use crate::number::put_ordinal;
use crate::summary::Summary;
use comtrade_io::ToolFault;
use comtrade_values::Memory;
use serde::Serialize;
use std::alloc::{AllocError, Global};

/// An event; the record is left out where there is one only.
#[derive(Drop, Serialize)]
struct EventMembers {
    instant: String,
    ms: Option<JsonNumber>,
    since_before_ms: Option<JsonNumber>,
    #[serde(skip_serializing_if = "Option::is_none")]
    record: Option<String>,
    what: String,
}

/// The events of records, and records that cannot be read.
#[derive(Drop, Serialize)]
struct EventLists {
    events: Vec<EventMembers>,
    faults: Vec<FaultMembers>,
}

/// The numbers of channels.
#[derive(Drop, Serialize)]
struct ChannelMembers {
    analog: u64,
    status: u64,
}

/// A record; nothing for a current where there is none.
#[derive(Drop, Serialize)]
struct RecordMembers {
    trigger: String,
    ms: Option<JsonNumber>,
    rate: Option<JsonNumber>,
    channels: ChannelMembers,
    changed: u64,
    greatest_current: Option<JsonNumber>,
    current_id: Option<String>,
    current_unit: Option<String>,
    nominal: Option<JsonNumber>,
    station: String,
    device: String,
    record: String,
}

/// A pair that cannot be read.
#[derive(Drop, Serialize)]
struct FaultMembers {
    record: String,
    fault: String,
}

/// Records, and pairs that cannot be read.
#[derive(Drop, Serialize)]
struct RecordLists {
    records: Vec<RecordMembers>,
    faults: Vec<FaultMembers>,
}

/// Nanoseconds in milliseconds, if they are known.
fn millis_of(alloc: Global, nanos: Option<i128>) -> Result<Option<JsonNumber>, Memory> {
    match nanos {
        Some(nanos) => Ok(Some(millis_json(alloc, nanos)?)),
        None => Ok(None),
    }
}

/// When an event was; its row, where that is not known.
fn instant_of(alloc: Global, event: &Event) -> Result<String, AllocError> {
    match (event.at, event.row) {
        (Some(nanos), _) => instant_text(alloc, micros_at(nanos)),
        (None, Some(row)) => {
            let mut text = Vec::new(alloc);
            put_ordinal(&mut text, "row ", row)?;
            plain_text_of(alloc, &text)
        }
        (None, None) => Ok(String::new(alloc)),
    }
}

/// The name of an event's record, of several.
fn record_of(alloc: Global, event: &Event, names: &[String]) -> Result<Option<String>, AllocError> {
    match names.get(event.record) {
        Some(name) if 1 < names.len() => Ok(Some(text_of(alloc, name.as_bytes())?)),
        _ => Ok(None),
    }
}

fn event_members(
    alloc: Global,
    event: &Event,
    before: Option<i128>,
    names: &[String],
) -> Result<EventMembers, Memory> {
    Ok(EventMembers {
        instant: instant_of(alloc, event)?,
        ms: millis_of(alloc, event.since)?,
        since_before_ms: millis_of(alloc, since_before(before, event.at))?,
        record: record_of(alloc, event, names)?,
        what: plain_text_of(alloc, &event.text)?,
    })
}

/// The errors of the records that cannot be read, with their names.
fn fault_members(alloc: Global, records: &[Summary]) -> Result<Vec<FaultMembers>, AllocError> {
    let mut faults = Vec::new(alloc);
    for record in records {
        if record.facts.is_none() {
            faults.push(FaultMembers {
                record: text_of(alloc, &record.name)?,
                fault: text_of(alloc, record.fault.trim_ascii_end())?,
            })?;
        }
    }
    Ok(faults)
}

/// The events of the records with these names, and the errors of those that cannot be read, as a JSON
/// object.
pub fn put_events_json(
    alloc: Global,
    out: &mut Vec<u8>,
    events: &[Event],
    names: &[String],
    records: &[Summary],
) -> Result<(), ToolFault> {
    let mut list = Vec::new(alloc);
    let mut before = None;
    for event in events {
        list.push(event_members(alloc, event, before, names)?)?;
        before = event.at.or(before);
    }
    let lists = EventLists {
        events: list,
        faults: fault_members(alloc, records)?,
    };
    put_json(alloc, out, &lists)?;
    Ok(())
}

/// A record without its current.
fn without_current(alloc: Global, facts: &Facts, name: &[u8]) -> Result<RecordMembers, Memory> {
    Ok(RecordMembers {
        trigger: instant_text(alloc, facts.trigger as i128)?,
        ms: millis_of(alloc, facts.length)?,
        rate: match facts.rate {
            Some(rate) => Some(number_json(alloc, rate)?),
            None => None,
        },
        channels: ChannelMembers {
            analog: facts.analog as u64,
            status: facts.status as u64,
        },
        changed: facts.changed as u64,
        greatest_current: None,
        current_id: None,
        current_unit: None,
        nominal: None,
        station: text_of(alloc, &facts.station)?,
        device: text_of(alloc, &facts.device)?,
        record: text_of(alloc, name)?,
    })
}

fn with_current(
    alloc: Global,
    record: RecordMembers,
    current: &Greatest,
) -> Result<RecordMembers, Memory> {
    Ok(RecordMembers {
        greatest_current: exact_json(alloc, current.value)?,
        current_id: Some(text_of(alloc, &current.id)?),
        current_unit: Some(text_of(alloc, &current.unit)?),
        nominal: Some(number_json(alloc, current.nominal)?),
        ..record
    })
}

fn record_members(alloc: Global, facts: &Facts, name: &[u8]) -> Result<RecordMembers, Memory> {
    let record = without_current(alloc, facts, name)?;
    match &facts.greatest {
        Some(current) => with_current(alloc, record, current),
        None => Ok(record),
    }
}

/// Records as a JSON object: those that can be read, and the errors of the others with the names of
/// their pairs.
pub fn put_summaries_json(
    alloc: Global,
    out: &mut Vec<u8>,
    records: &[Summary],
) -> Result<(), ToolFault> {
    let mut lists = RecordLists {
        records: Vec::new(alloc),
        faults: fault_members(alloc, records)?,
    };
    for record in records {
        if let Some(facts) = &record.facts {
            lists
                .records
                .push(record_members(alloc, facts, &record.name)?)?;
        }
    }
    put_json(alloc, out, &lists)?;
    Ok(())
}
