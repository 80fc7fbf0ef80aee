//! The part of a record that a user asks for.

use crate::part::cut::{First, cut_head, cut_of, cut_piece};
use crate::part::fault::PartFault;
use crate::part::names::{Channels, channels_of};
use crate::part::rows::{rows_among, rows_between};
use crate::part::side::turn;
use comtrade_format::{Border, File, Head, Row};
use comtrade_io::Part;
use comtrade_values::{Items, Memory};
use dfr_channels::{AnalogChannel, Side};
use std::alloc::{Allocator, Global};
use std::mem;

/// Whether the whole record is asked for, unchanged.
pub fn is_whole(part: Part<'_>) -> bool {
    let has_words = part.from.is_some() || part.to.is_some() || part.channels.is_some();
    !(has_words || part.changed || part.primary || part.secondary)
}

/// The side that is asked for.
fn side_of<'a>(part: Part<'a>) -> Result<Option<Side>, PartFault<'a>> {
    match (part.primary, part.secondary) {
        (false, false) => Ok(None),
        (true, false) => Ok(Some(Side::Primary)),
        (false, true) => Ok(Some(Side::Secondary)),
        (true, true) => Err(PartFault::Sides),
    }
}

/// Converts each channel to this side. Refused with the number of the first one, from 1, whose
/// ratio does not allow it.
fn turn_all<A: Allocator>(channels: &mut [AnalogChannel<A>], side: Side) -> Result<(), u64> {
    for (number, channel) in (1..=u64::MAX).zip(channels.iter_mut()) {
        if !turn(channel, side) {
            return Err(number);
        }
    }
    Ok(())
}

/// The head with all values on the side that is asked for.
fn on_side<'a, A: Allocator>(
    alloc: A,
    head: Head<A>,
    side: Option<Side>,
) -> Result<Head<A>, PartFault<'a>> {
    let Some(side) = side else {
        return Ok(head);
    };
    let mut head = head;
    let mut analog = mem::replace(&mut head.analog, Items::of(Vec::new(alloc))).into_vec();
    let turned = turn_all(&mut analog, side);
    head.analog = Items::of(analog);
    match turned {
        Ok(()) => Ok(head),
        Err(number) => Err(PartFault::Ratio(number)),
    }
}

/// A part of a record, as a record of its own.
#[derive(Debug, Drop)]
pub struct Cut<A: Allocator = Global> {
    pub file: File<A>,
    /// The index, from 0, of its first row in the whole record.
    pub from: usize,
    /// The index after its last row.
    pub to: usize,
}

/// The part of a record that is asked for: the rows between two moments, numbered from 1, with
/// their instants; channels by name; values of one side of the transformers. Refused for the first
/// error found: both sides, the moments, the names, no channel, a ratio.
pub fn part_of<'a, A: Allocator + Copy>(
    alloc: A,
    file: &File<A>,
    part: Part<'a>,
) -> Result<Cut<A>, PartFault<'a>> {
    let side = side_of(part)?;
    let rows = rows_between(file, part.from, part.to)?;
    let kept = match file.rows.items().get(rows.from..rows.to) {
        Some(kept) => kept,
        None => &[],
    };
    let channels = channels_of(alloc, &file.head, kept, part.channels, part.changed)?;
    if channels.analog.is_empty() && channels.status.is_empty() {
        return Err(PartFault::Empty);
    }
    let File { head, rows: kept } = cut_of(alloc, file, rows, &channels)?;
    let head = on_side(alloc, head, side)?;
    Ok(Cut {
        file: File { head, rows: kept },
        from: rows.from,
        to: rows.to,
    })
}

/// A part of a record whose rows come piece by piece: its head, and what it takes of the rows.
#[derive(Drop)]
pub struct CutPlan<A: Allocator = Global> {
    pub head: Head<A>,
    channels: Channels<A>,
    /// The index, from 0, of its first row in the whole record.
    pub from: usize,
    /// The index after its last row.
    pub to: usize,
}

/// The part that is asked for, as `part_of` has it, of a record with this head and so many rows,
/// whose times the rates give, this one the interval across each border. It cannot be asked for only
/// the contacts that change.
pub fn plan_of<'a, A: Allocator + Copy>(
    alloc: A,
    head: &Head<A>,
    border: Border,
    count: usize,
    part: Part<'a>,
) -> Result<CutPlan<A>, PartFault<'a>> {
    let side = side_of(part)?;
    let unread: Vec<Row<A>, A> = Vec::new(alloc);
    let rows = rows_among(head, border, count, &unread, (part.from, part.to))?;
    let channels = channels_of(alloc, head, &unread, part.channels, false)?;
    if channels.analog.is_empty() && channels.status.is_empty() {
        return Err(PartFault::Empty);
    }
    let first = First {
        border,
        stamp: None,
    };
    let cut = cut_head(alloc, head, first, rows, &channels)?;
    Ok(CutPlan {
        head: on_side(alloc, cut, side)?,
        channels,
        from: rows.from,
        to: rows.to,
    })
}

impl<A: Allocator + Copy> CutPlan<A> {
    /// What the part has of these rows, numbered from `first` on. They have no stamps: the rates
    /// give their times.
    pub fn rows(&self, alloc: A, rows: &[Row<A>], first: u64) -> Result<Items<Row<A>, A>, Memory> {
        cut_piece(alloc, rows, &self.channels, first, None)
    }
}
