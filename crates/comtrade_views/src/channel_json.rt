//! The channels of a file as JSON, with their extremes and changes.

use crate::json::text_of;
use crate::json_number::{JsonNumber, exact_json, millis_json, number_json};
use crate::number::{ordinal, scale_of, value_of};
use crate::show_analog::surveys_in;
use crate::times::time_at;
use comtrade_analysis::{
    Event, Extreme, Extremes, Factors, Survey, bit_at, event_counts_of, first_events_of,
};
use comtrade_format::File;
use comtrade_values::Memory;
use dfr_channels::{AnalogChannel, Side, StatusChannel};
use serde::Serialize;
use std::alloc::{Allocator, Global};

/// An analogue channel; nothing for extremes where all its readings are missing.
#[derive(Drop, Serialize)]
pub(crate) struct AnalogMembers {
    n: u128,
    id: String,
    phase: String,
    component: String,
    unit: String,
    a: JsonNumber,
    b: JsonNumber,
    min: i32,
    max: i32,
    primary: JsonNumber,
    secondary: JsonNumber,
    side: &'static str,
    least: Option<JsonNumber>,
    least_ms: Option<JsonNumber>,
    greatest: Option<JsonNumber>,
    greatest_ms: Option<JsonNumber>,
    missing: u64,
}

/// A change of a status channel: when and where, and the new bit.
#[derive(Drop, Serialize)]
pub(crate) struct ChangeMembers {
    ms: Option<JsonNumber>,
    row: u128,
    bit: u8,
}

/// A status channel.
#[derive(Drop, Serialize)]
pub(crate) struct StatusMembers {
    n: u128,
    id: String,
    phase: String,
    component: String,
    normal: u8,
    first: Option<u8>,
    changes: Vec<ChangeMembers>,
}

/// When a row was taken, in milliseconds since the trigger, if that is known.
fn row_millis(
    alloc: Global,
    times: &[Option<i64>],
    row: usize,
) -> Result<Option<JsonNumber>, Memory> {
    match time_at(times, row) {
        Some(nanos) => Ok(Some(millis_json(alloc, nanos as i128)?)),
        None => Ok(None),
    }
}

/// The value of an extreme to six digits, as in the text output.
fn extreme_value<A: Allocator>(
    alloc: Global,
    channel: &AnalogChannel<A>,
    extreme: Extreme,
) -> Result<Option<JsonNumber>, Memory> {
    let value = value_of(scale_of(channel), extreme.sample);
    exact_json(alloc, value.to_six_digits())
}

/// A channel without its extremes.
fn unmeasured<A: Allocator>(
    alloc: Global,
    place: usize,
    channel: &AnalogChannel<A>,
    missing: usize,
) -> Result<AnalogMembers, Memory> {
    Ok(AnalogMembers {
        n: ordinal(place),
        id: text_of(alloc, channel.id.items())?,
        phase: text_of(alloc, channel.phase.items())?,
        component: text_of(alloc, channel.component.items())?,
        unit: text_of(alloc, channel.unit.items())?,
        a: number_json(alloc, channel.a)?,
        b: number_json(alloc, channel.b)?,
        min: channel.min,
        max: channel.max,
        primary: number_json(alloc, channel.primary)?,
        secondary: number_json(alloc, channel.secondary)?,
        side: match channel.side {
            Side::Primary => "primary",
            Side::Secondary => "secondary",
        },
        least: None,
        least_ms: None,
        greatest: None,
        greatest_ms: None,
        missing: missing as u64,
    })
}

/// A channel with its extremes.
fn with_extremes<A: Allocator>(
    alloc: Global,
    members: AnalogMembers,
    channel: &AnalogChannel<A>,
    extremes: Extremes,
    times: &[Option<i64>],
) -> Result<AnalogMembers, Memory> {
    let Extremes { least, greatest } = extremes.by_value(&Factors::of(channel));
    Ok(AnalogMembers {
        least: extreme_value(alloc, channel, least)?,
        least_ms: row_millis(alloc, times, least.row)?,
        greatest: extreme_value(alloc, channel, greatest)?,
        greatest_ms: row_millis(alloc, times, greatest.row)?,
        ..members
    })
}

/// A channel of which the rows hold this.
fn surveyed<A: Allocator>(
    alloc: Global,
    (place, channel): (usize, &AnalogChannel<A>),
    survey: Survey,
    times: &[Option<i64>],
) -> Result<AnalogMembers, Memory> {
    let members = unmeasured(alloc, place, channel, survey.missing)?;
    match survey.extremes {
        Some(extremes) => with_extremes(alloc, members, channel, extremes, times),
        None => Ok(members),
    }
}

/// The analogue channels of a file.
pub(crate) fn analog_members<A: Allocator + Copy>(
    alloc: Global,
    lists: A,
    file: &File<A>,
    times: &[Option<i64>],
) -> Result<Vec<AnalogMembers>, Memory> {
    let surveys = surveys_in(lists, file)?;
    let mut list = Vec::new(alloc);
    let channels = file.head.analog.items().iter();
    for (place, (channel, survey)) in channels.zip(surveys.iter()).enumerate() {
        list.push(surveyed(alloc, (place, channel), *survey, times)?)?;
    }
    Ok(list)
}

/// These changes of a contact.
fn change_members(
    alloc: Global,
    events: &[Event],
    times: &[Option<i64>],
) -> Result<Vec<ChangeMembers>, Memory> {
    let mut list = Vec::new(alloc);
    for event in events {
        list.push(ChangeMembers {
            ms: row_millis(alloc, times, event.row)?,
            row: ordinal(event.row),
            bit: event.closed as u8,
        })?;
    }
    Ok(list)
}

/// A status channel, which has so many changes.
fn contact_members<A: Allocator + Copy>(
    alloc: Global,
    lists: A,
    file: &File<A>,
    times: &[Option<i64>],
    (place, channel): (usize, &StatusChannel<A>),
    count: usize,
) -> Result<StatusMembers, Memory> {
    let rows = file.rows.items();
    let events = if count == 0 {
        Vec::new(lists)
    } else {
        first_events_of(lists, rows, place, count)?
    };
    Ok(StatusMembers {
        n: ordinal(place),
        id: text_of(alloc, channel.id.items())?,
        phase: text_of(alloc, channel.phase.items())?,
        component: text_of(alloc, channel.component.items())?,
        normal: channel.normal as u8,
        first: bit_at(rows, place, 0).map(|bit| bit as u8),
        changes: change_members(alloc, &events, times)?,
    })
}

/// The status channels of a file.
pub(crate) fn status_members<A: Allocator + Copy>(
    alloc: Global,
    lists: A,
    file: &File<A>,
    times: &[Option<i64>],
) -> Result<Vec<StatusMembers>, Memory> {
    let contacts = file.head.status.items();
    let counts = event_counts_of(lists, file.rows.items(), contacts.len())?;
    let mut list = Vec::new(alloc);
    for (place, (channel, count)) in contacts.iter().zip(counts.iter()).enumerate() {
        list.push(contact_members(alloc, lists, file, times, (place, channel), *count)?)?;
    }
    Ok(list)
}
