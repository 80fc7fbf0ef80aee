//! Fault inception: where a current departs from its earlier waveform, and for how long it is
//! above. The rows of a long record lie far apart in memory, so all currents are followed in one
//! pass over them, after a first pass that finds how large they are.

use crate::cycles::current::{Current, Followed, Place};
use crate::cycles::fault::MeasureFault;
use crate::cycles::length::Length;
use crate::cycles::unit::is_current_unit;
use crate::cycles::window::Window;
use comtrade_format::{File, Row, scale_of};
use std::alloc::Allocator;

/// The currents of a file.
fn currents_of<A: Allocator + Copy>(
    alloc: A,
    file: &File<A>,
) -> Result<Vec<Current<A>, A>, MeasureFault> {
    let mut currents = Vec::new(alloc);
    for (place, channel) in file.head.analog.items().iter().enumerate() {
        if is_current_unit(channel.unit.items()) {
            currents.push(Current::new(alloc, place, scale_of(alloc, channel)?))?;
        }
    }
    Ok(currents)
}

/// Finds how large the currents are: in the first cycle that is measured, and in all rows.
fn look_over<A: Allocator>(
    currents: &mut [Current<A>],
    rows: &[Row<A>],
    begin: usize,
    length: Length,
) {
    for (row, now) in rows.iter().enumerate() {
        let is_begun = begin <= row && row.abs_diff(begin) <= length.last_within();
        for current in currents.iter_mut() {
            current.look(now, is_begun);
        }
    }
    for current in currents.iter_mut() {
        current.settle();
    }
}

/// Begins each current anew, at a change of rate.
fn restart_all<A: Allocator>(currents: &mut [Current<A>]) {
    for current in currents.iter_mut() {
        current.restart();
    }
}

/// Follows the currents to one more row.
fn follow_row<A: Allocator>(
    currents: &mut [Current<A>],
    place: &Place<'_, A>,
    length: Length,
) -> Result<(), MeasureFault> {
    for current in currents.iter_mut() {
        current.follow(place, length)?;
    }
    Ok(())
}

/// Follows the currents over the rows of one rate.
fn follow_over<A: Allocator>(
    currents: &mut [Current<A>],
    rows: &[Row<A>],
    span: Window,
) -> Result<(), MeasureFault> {
    let length = Length::of(span)?;
    let Some(rows) = rows.get(span.from..span.to) else {
        return Ok(());
    };
    restart_all(currents);
    for (index, (row, now)) in (span.from..span.to).zip(rows.iter().enumerate()) {
        let place = Place::new(rows, row, now, length, index);
        follow_row(currents, &place, length)?;
    }
    Ok(())
}

/// The fault inceptions of each current in a record, measured within its rates.
pub fn courses_of<A: Allocator + Copy>(
    alloc: A,
    file: &File<A>,
    spans: &[Window],
) -> Result<Vec<Followed<A>, A>, MeasureFault> {
    let rows = file.rows.items();
    let mut currents = currents_of(alloc, file)?;
    if let Some(first) = spans.first() {
        look_over(&mut currents, rows, first.from, Length::of(*first)?);
    }
    for span in spans {
        follow_over(&mut currents, rows, *span)?;
    }
    let mut list = Vec::new(alloc);
    for current in currents {
        list.push(current.followed()?)?;
    }
    Ok(list)
}
