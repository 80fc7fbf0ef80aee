//! The lines with the times of the first row and of the trigger.

use crate::dates::{Order, instant_of};
use crate::draft::Revision;
use crate::fault::{ImportFault, Why};
use crate::key::Key;
use crate::lines::{LineReader, at};
use crate::note::{Notes, Place};
use crate::said_instant::{InstantLine, said_of};
use comtrade_values::has_date;
use std::alloc::Allocator;

/// Both times, in microseconds since 1970-01-01.
#[derive(Clone, Copy)]
pub(crate) struct Instants {
    pub first: i64,
    pub trigger: i64,
    pub has_nanos: bool,
}

fn other_of(order: Order) -> Order {
    match order {
        Order::DayFirst => Order::MonthFirst,
        Order::MonthFirst => Order::DayFirst,
    }
}

fn both_fit(said: (InstantLine, InstantLine), order: Order) -> bool {
    said.0.fits(order) && said.1.fits(order)
}

/// The order of day and month in both dates: the one requested, else that of the revision, unless
/// only the other gives valid dates.
fn order_of<A: Allocator + Copy>(
    notes: &mut Notes<A>,
    said: (InstantLine, InstantLine),
    revision: Revision,
    asked: Option<Order>,
) -> Result<Order, ImportFault> {
    let usual = if revision == Revision::Of1991 {
        Order::MonthFirst
    } else {
        Order::DayFirst
    };
    let (first, trigger) = said;
    let is_ambiguous = both_fit(said, usual)
        && both_fit(said, other_of(usual))
        && !(first.is_same_in_both() && trigger.is_same_in_both());
    let order = match asked {
        Some(order) => order,
        None if both_fit(said, usual) => usual,
        None => other_of(usual),
    };
    if !both_fit(said, order) {
        let line = if first.fits(order) {
            trigger.line
        } else {
            first.line
        };
        return Err(at(line, Why::NoDate));
    }
    if !first.is_open() && !trigger.is_open() {
        return Ok(order);
    }
    let place = Place::Cfg(first.line);
    if order == Order::MonthFirst {
        notes.tell(Key::DatesMdy, place, &[])?;
    } else if revision == Revision::Of1991 {
        notes.tell(Key::DatesDmy, place, &[])?;
    }
    if is_ambiguous && revision == Revision::Of1991 && asked.is_none() {
        notes.tell(Key::DatesAmbiguous, place, b"the month is read first")?;
    }
    Ok(order)
}

/// The time in a line, if a date is set.
fn time_of(said: InstantLine, order: Order) -> Result<Option<i64>, ImportFault> {
    let Some(date) = said.date() else {
        return Ok(None);
    };
    let Some(day) = date.day_in(order) else {
        return Err(at(said.line, Why::NoDate));
    };
    match instant_of(day, said.micros()) {
        Some(time) => Ok(Some(time)),
        None => Err(at(said.line, Why::NoDate)),
    }
}

/// The times in both lines, read in one order.
fn settled<A: Allocator + Copy>(
    notes: &mut Notes<A>,
    first: InstantLine,
    trigger: InstantLine,
    order: Order,
) -> Result<Instants, ImportFault> {
    let has_nanos = first.is_long() || trigger.is_long();
    let start = match time_of(first, order)? {
        Some(time) => time,
        None => {
            notes.tell(Key::InstantUnset, Place::Cfg(first.line), b"first row")?;
            first.micros()
        }
    };
    let end = match time_of(trigger, order)? {
        Some(time) => time,
        None if first.date().is_some() => {
            notes.tell(Key::TriggerUnset, Place::Cfg(trigger.line), &[])?;
            start
        }
        None => {
            notes.tell(Key::InstantUnset, Place::Cfg(trigger.line), b"trigger")?;
            trigger.micros().max(start)
        }
    };
    if end < start {
        notes.tell(Key::TriggerBeforeFirst, Place::Cfg(trigger.line), &[])?;
    }
    Ok(Instants {
        first: start,
        trigger: end,
        has_nanos,
    })
}

/// The times of the first row and of the trigger.
pub(crate) fn instants_of<A: Allocator + Copy>(
    reader: &mut LineReader<'_, '_, A>,
    revision: Revision,
    asked: Option<Order>,
) -> Result<Instants, ImportFault> {
    let first = said_of(reader)?;
    let trigger = said_of(reader)?;
    let order = order_of(reader.notes, (first, trigger), revision, asked)?;
    let instants = settled(reader.notes, first, trigger, order)?;
    for (instant, line) in [
        (instants.first, first.line),
        (instants.trigger, trigger.line),
    ] {
        if !has_date(instant) {
            return Err(at(line, Why::NoDate)); // 24:00 on the last day of the year 9999
        }
    }
    Ok(instants)
}
