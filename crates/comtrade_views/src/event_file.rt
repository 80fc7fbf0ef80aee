//! Files of events, as `dfrd` writes them: a line for each change of a contact.

use crate::events::{Event, EventKind};
use crate::filter::Filter;
use comtrade_io::put_safe;
use comtrade_values::{fields_of, numeral_of, put, put_count, put_with};
use jiff_core::civil::Date;
use std::alloc::{AllocError, Allocator, Global};

/// The first line, by which such a file is known.
pub const EVENT_HEAD: &str = "instant,station,device,channel,id,state,is,changes,lost,scan";

/// The length of an instant, `yyyy-mm-dd hh:mm:ss.ssssss`.
const INSTANT: usize = 26;

/// A day, in microseconds.
const DAY: i64 = 86_400_000_000;

/// A whole number of digits alone.
fn number_in(text: &[u8]) -> Option<u64> {
    u64::try_from(numeral_of(text)?).ok()
}

/// The number between two places of a text.
fn number_at(text: &[u8], from: usize, to: usize) -> Option<u64> {
    number_in(text.get(from..to)?)
}

/// The microseconds in a day of a time, `hh:mm:ss.ssssss`, at the end of an instant.
fn time_in(text: &[u8]) -> Option<u64> {
    let hours = number_at(text, 11, 13)?;
    let minutes = number_at(text, 14, 16)?;
    let seconds = number_at(text, 17, 19)?;
    let micros = number_at(text, 20, INSTANT)?;
    if 23 < hours || 59 < minutes || 59 < seconds || 999_999 < micros {
        return None;
    }
    Some(((hours * 60 + minutes) * 60 + seconds) * 1_000_000 + micros)
}

/// Whether a text has the length and the signs of an instant.
fn has_signs(text: &[u8]) -> bool {
    let signs = [
        (4usize, b'-'),
        (7, b'-'),
        (10, b' '),
        (13, b':'),
        (16, b':'),
        (19, b'.'),
    ];
    for (at, sign) in signs {
        if text.get(at) != Some(&sign) {
            return false;
        }
    }
    text.len() == INSTANT
}

/// An instant, in microseconds since 1970-01-01 00:00:00.
fn instant_in(text: &[u8]) -> Option<i64> {
    if !has_signs(text) {
        return None;
    }
    let year = i16::try_from(number_at(text, 0, 4)?).ok()?;
    let month = i8::try_from(number_at(text, 5, 7)?).ok()?;
    let day = i8::try_from(number_at(text, 8, 10)?).ok()?;
    let date = Date::new(year, month, day).ok()?;
    let days = i64::from(date.to_unix_epoch_day());
    let time = i64::try_from(time_in(text)?).ok()?;
    days.checked_mul(DAY)?.checked_add(time)
}

/// What a line tells of a contact.
#[derive(Clone, Copy, Debug)]
struct Change<'a> {
    instant: i64,
    channel: u64,
    id: &'a [u8],
    on: bool,
    changes: u64,
    lost: u64,
}

/// What a line tells.
#[derive(Clone, Copy, Debug)]
enum Told<'a> {
    Change(Change<'a>),
    /// So many changes are missing before the next line.
    Missing(u64),
}

/// The state that a field names.
fn state_in(text: &[u8]) -> Option<bool> {
    match text {
        b"0" => Some(false),
        b"1" => Some(true),
        _ => None,
    }
}

/// What these fields tell of a contact.
fn change_in<'a>(fields: &[&'a [u8]]) -> Option<Change<'a>> {
    let [instant, _, _, channel, id, state, is, changes, lost, scan] = fields else {
        return None;
    };
    if *is != b"normal".as_slice() && *is != b"off-normal".as_slice() {
        return None;
    }
    number_in(scan)?;
    Some(Change {
        instant: instant_in(instant)?,
        channel: number_in(channel)?,
        id,
        on: state_in(state)?,
        changes: number_in(changes)?,
        lost: number_in(lost)?,
    })
}

/// What these fields tell.
fn told_in<'a>(fields: &[&'a [u8]]) -> Option<Told<'a>> {
    match fields {
        [b"", _, _, b"", b"", b"", b"missing", changes, b"", b""] => {
            Some(Told::Missing(number_in(changes)?))
        }
        _ => Some(Told::Change(change_in(fields)?)),
    }
}

/// The text of what is told.
fn put_told<A: Allocator>(text: &mut Vec<u8, A>, told: Told<'_>) -> Result<(), AllocError> {
    match told {
        Told::Missing(count) => put_count(
            text,
            count,
            " change is missing",
            " changes are missing",
        ),
        Told::Change(change) => {
            put_with(text, "D", change.channel)?;
            put(text, " ")?;
            put_safe(text, change.id)?;
            put(text, if change.on { " 1" } else { " 0" })?;
            if change.changes != 1 {
                put_with(text, ", the last of ", change.changes)?;
                put(text, " changes")?;
            }
            if change.lost != 0 {
                put(text, ", after ")?;
                put_count(text, change.lost, " lost scan", " lost scans")?;
            }
            Ok(())
        }
    }
}

/// What a line of such a file is.
#[derive(Debug, Drop)]
pub enum EventLine<A: Allocator = Global> {
    Event(Event<A>),
    /// An event of a station that isn't meant.
    Other,
    /// No line of a file of events.
    Broken,
}

/// What a line of such a file tells, for the file of this index in the list of names.
pub fn event_in_line<A: Allocator + Copy>(
    alloc: A,
    filter: &Filter<'_>,
    line: &[u8],
    record: usize,
) -> Result<EventLine<A>, AllocError> {
    let fields = fields_of(alloc, line)?;
    let Some(told) = told_in(&fields) else {
        return Ok(EventLine::Broken);
    };
    match fields.get(1) {
        Some(station) if filter.has_station(station) => {}
        _ => return Ok(EventLine::Other),
    }
    let mut text = Vec::new(alloc);
    put_told(&mut text, told)?;
    let (kind, at) = match told {
        Told::Change(change) => (EventKind::Change, Some(change.instant as i128 * 1000)),
        Told::Missing(_) => (EventKind::Gap, None),
    };
    Ok(EventLine::Event(Event {
        kind,
        at,
        since: None,
        record,
        row: None,
        text,
    }))
}
