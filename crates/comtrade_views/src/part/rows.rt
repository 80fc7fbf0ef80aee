//! The rows between two moments.

use crate::part::fault::PartFault;
use crate::part::moment::{Moment, moment_of};
use comtrade_format::{Border, File, Head, Row, border_of, clock_with};
use std::alloc::Allocator;

/// Rows by their indices from 0: from `from` up to but without `to`.
#[derive(Clone, Copy)]
pub(crate) struct Rows {
    pub(crate) from: usize,
    pub(crate) to: usize,
}

/// A bound of the rows.
#[derive(Clone, Copy)]
enum Bound {
    None,
    /// An index from 0.
    Index(u64),
    /// Nanoseconds since the first row.
    Time(i128),
}

/// The bound that a text gives.
fn bound_of<'a, A: Allocator>(
    head: &Head<A>,
    text: Option<&'a str>,
) -> Result<Bound, PartFault<'a>> {
    let Some(text) = text else {
        return Ok(Bound::None);
    };
    let first = head.first as i128 * 1000;
    let trigger = head.trigger as i128 * 1000;
    let bound = match moment_of(text) {
        Some(Moment::Row(index)) => Some(Bound::Index(index)),
        Some(Moment::SinceTrigger(nanos)) => nanos.checked_add(trigger - first).map(Bound::Time),
        Some(Moment::Instant(nanos)) => nanos.checked_sub(first).map(Bound::Time),
        None => None,
    };
    bound.ok_or(PartFault::Moment(text))
}

/// Whether a row is neither before the first bound nor after the second.
fn is_between(from: Bound, to: Bound, index: u64, time: Option<i128>) -> bool {
    let is_after = match (from, time) {
        (Bound::None, _) => true,
        (Bound::Index(first), _) => first <= index,
        (Bound::Time(first), Some(time)) => first <= time,
        (Bound::Time(_), None) => false,
    };
    let is_before = match (to, time) {
        (Bound::None, _) => true,
        (Bound::Index(last), _) => index <= last,
        (Bound::Time(last), Some(time)) => time <= last,
        (Bound::Time(_), None) => false,
    };
    is_after && is_before
}

/// The rows between both bounds, both included, of so many; None where there are none. Also whether
/// any of them has a time. A row that is not among `rows` has no stamp.
fn between<A: Allocator>(
    (head, border): (&Head<A>, Border),
    (count, rows): (usize, &[Row<A>]),
    from: Bound,
    to: Bound,
) -> (Option<Rows>, bool) {
    let mut clock = clock_with(head, border);
    let mut found: Option<Rows> = None;
    let mut has_times = false;
    for i in 0..count {
        let index = i as u64;
        let stamp = rows.get(i).and_then(|row| row.stamp);
        clock = clock.at(index);
        let time = match clock.nanos(index, stamp) {
            Some(nanos) => i128::try_from(nanos).ok(),
            None => None,
        };
        has_times = has_times || time.is_some();
        if is_between(from, to, index, time) {
            let first = match found {
                Some(rows) => rows.from,
                None => i,
            };
            found = Some(Rows {
                from: first,
                to: i + 1,
            });
        }
    }
    (found, has_times)
}

/// The rows between two moments, both included, of a record with this head and so many rows, if this
/// rate gives the interval across each border. If the rates give the times, no rows are needed; else
/// all of them.
pub(crate) fn rows_among<'a, A: Allocator>(
    head: &Head<A>,
    border: Border,
    count: usize,
    rows: &[Row<A>],
    (from, to): (Option<&'a str>, Option<&'a str>),
) -> Result<Rows, PartFault<'a>> {
    let from = bound_of(head, from)?;
    let to = bound_of(head, to)?;
    let (found, has_times) = between((head, border), (count, rows), from, to);
    let needs_times = matches!(from, Bound::Time(_)) || matches!(to, Bound::Time(_));
    match found {
        Some(rows) => Ok(rows),
        None if needs_times && !has_times => Err(PartFault::Timeless),
        None => Err(PartFault::NoRow),
    }
}

/// The rows between two moments, both included.
pub(crate) fn rows_between<'a, A: Allocator>(
    file: &File<A>,
    from: Option<&'a str>,
    to: Option<&'a str>,
) -> Result<Rows, PartFault<'a>> {
    let rows = file.rows.items();
    let border = border_of(file);
    rows_among(&file.head, border, rows.len(), rows, (from, to))
}
