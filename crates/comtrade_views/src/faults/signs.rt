//! The signs of the status channels in one fault: start, trip, breaker, reclose.

use crate::faults::contacts::{Sign, Told, first_told};
use crate::faults::known::{Known, Source};
use crate::faults::members::{ContactMembers, RecloseMembers};
use crate::faults::parts::{millis_at, millis_between};
use crate::json::text_of;
use crate::number::ordinal;
use std::alloc::{AllocError, Allocator};

/// For how many cycles a reclosed line is watched.
const WATCHED: usize = 5;

/// The first signs from an inception on.
#[derive(Clone, Copy)]
struct Signs {
    start: Option<Told>,
    trip: Option<Told>,
    breaker: Option<Told>,
    reclose: Option<Told>,
}

/// What the status channels told in a fault, as values.
#[derive(Drop)]
pub(crate) struct SignMembers {
    pub(crate) start: Option<ContactMembers>,
    pub(crate) trip: Option<ContactMembers>,
    pub(crate) breaker: Option<ContactMembers>,
    pub(crate) breaker_ms: Option<f64>,
    pub(crate) reclose: Option<RecloseMembers>,
}

/// The rows of some cycles.
fn rows_of(known: &Known, cycles: usize) -> Option<usize> {
    known.found.cycle.checked_mul(cycles)
}

/// The row before which a breaker is looked for that closes again: some cycles after the next fault
/// begins, since its contact follows the current.
fn reclose_limit(known: &Known) -> usize {
    match (known.next, rows_of(known, WATCHED)) {
        (Some(next), Some(rows)) => match next.checked_add(rows) {
            Some(limit) => limit,
            None => usize::MAX,
        },
        _ => usize::MAX,
    }
}

/// The signs of a fault: those of the next one are not this one's.
fn signs_in(told: &[Told], known: &Known) -> Signs {
    let from = known.inception;
    let to = match known.next {
        Some(next) => next,
        None => usize::MAX,
    };
    Signs {
        start: first_told(told, Sign::Start, from, to),
        trip: first_told(told, Sign::Trip, from, to),
        breaker: first_told(told, Sign::Opened, from, to),
        reclose: match known.cleared_row() {
            Some(end) => first_told(told, Sign::Reclosed, end, reclose_limit(known)),
            None => None,
        },
    }
}

/// A sign, with how long it was after the inception.
fn contact_members<A: Allocator + Copy>(
    source: &Source<'_, A>,
    inception: usize,
    told: Option<Told>,
) -> Result<Option<ContactMembers>, AllocError> {
    let Some(told) = told else {
        return Ok(None);
    };
    let file = source.file;
    let Some(channel) = file.head.status.items().get(told.channel) else {
        return Ok(None);
    };
    Ok(Some(ContactMembers {
        n: ordinal(told.channel),
        id: text_of(source.alloc, channel.id.items())?,
        row: ordinal(told.row),
        ms: millis_at(source.times, told.row),
        after_ms: millis_between(source.times, inception, told.row),
    }))
}

/// Whether a line holds that was reclosed in a row: false where a fault begins before the watch
/// ends, None where the record ends before.
fn holds<A: Allocator>(source: &Source<'_, A>, known: &Known, row: usize) -> Option<bool> {
    let file = source.file;
    let rows = file.rows.items().len();
    let watched = row.checked_add(rows_of(known, WATCHED)?)?;
    match known.next {
        Some(next) if next < watched => Some(false),
        _ if watched <= rows => Some(true),
        _ => None,
    }
}

/// How a reclosing went.
fn reclose_members<A: Allocator + Copy>(
    source: &Source<'_, A>,
    known: &Known,
    told: Option<Told>,
) -> Result<Option<RecloseMembers>, AllocError> {
    let Some(told) = told else {
        return Ok(None);
    };
    let Some(contact) = contact_members(source, known.inception, Some(told))? else {
        return Ok(None);
    };
    Ok(Some(RecloseMembers {
        contact,
        holds: holds(source, known, told.row),
    }))
}

/// How long the breaker takes: from the trip command to the end of the current.
fn breaker_millis<A: Allocator>(
    source: &Source<'_, A>,
    known: &Known,
    trip: Option<Told>,
) -> Option<f64> {
    let trip = trip?.row;
    let end = known.cleared_row()?;
    if end < trip {
        return None;
    }
    millis_between(source.times, trip, end)
}

/// What the status channels told in a fault.
pub(crate) fn signs_of<A: Allocator + Copy>(
    source: &Source<'_, A>,
    known: &Known,
) -> Result<SignMembers, AllocError> {
    let signs = signs_in(source.told, known);
    let inception = known.inception;
    Ok(SignMembers {
        start: contact_members(source, inception, signs.start)?,
        trip: contact_members(source, inception, signs.trip)?,
        breaker: contact_members(source, inception, signs.breaker)?,
        breaker_ms: breaker_millis(source, known, signs.trip),
        reclose: reclose_members(source, known, signs.reclose)?,
    })
}
