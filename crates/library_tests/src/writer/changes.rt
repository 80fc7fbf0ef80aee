//! Changes of a file of five rows, one analogue channel and one contact, a place at a time.

use comtrade_write::{File, Rate, Row};
use dfr_channels::{AnalogChannel, Decimal, Items, Reading, StatusChannel};
use std::alloc::Global;
use std::mem;

/// A change of such a file.
#[derive(Clone, Copy)]
pub enum Change {
    Station(&'static [u8]),
    Device(&'static [u8]),
    /// The analogue channel's phase and unit.
    Analog(&'static [u8], &'static [u8]),
    /// The contact's phase.
    Status(&'static [u8]),
    /// The least and the greatest sample.
    Span(i32, i32),
    /// The instants of the first row and of the trigger.
    Instants(i64, i64),
    /// How many rates the head says.
    Nrates(u32),
    /// So many rates, the first up to this row and the others up to that.
    Rates(u32, u64, u64),
    /// The number, stamp and value of the row at this place.
    Row(usize, u64, u64, i32),
    /// The second row has no stamp.
    NoStamp,
    /// How many values and bits the second row has.
    Width(usize, usize),
    /// The last row goes.
    Short,
    /// No row, one rate up to row 0, and of each kind one channel or none.
    Bare(usize, usize),
}

fn no_items<T>(alloc: Global) -> Items<T> {
    Items::of(Vec::new(alloc))
}

/// Puts a list there, where it was made.
fn put<T: Drop>(place: &mut Items<T>, list: Option<Vec<T>>) -> bool {
    match list {
        Some(list) => {
            *place = Items::of(list);
            true
        }
        None => false,
    }
}

/// Puts this text there.
pub fn give_text(place: &mut Items<u8>, alloc: Global, text: &[u8]) -> bool {
    put(place, Vec::from_slice(alloc, text).ok())
}

/// What changes an item of a list.
trait Edit<T> {
    fn edit(self, alloc: Global, item: &mut T) -> bool;
}

impl Edit<AnalogChannel> for Change {
    fn edit(self, alloc: Global, channel: &mut AnalogChannel) -> bool {
        match self {
            Change::Span(min, max) => {
                channel.min = min;
                channel.max = max;
                true
            }
            Change::Analog(phase, unit) => {
                give_text(&mut channel.phase, alloc, phase)
                    && give_text(&mut channel.unit, alloc, unit)
            }
            _ => false,
        }
    }
}

impl Edit<StatusChannel> for Change {
    fn edit(self, alloc: Global, channel: &mut StatusChannel) -> bool {
        match self {
            Change::Status(phase) => give_text(&mut channel.phase, alloc, phase),
            _ => false,
        }
    }
}

fn repeated<T: Clone + Drop>(alloc: Global, item: T, count: usize) -> Option<Vec<T>> {
    vec![in alloc; item; count].ok()
}

impl Edit<Row> for Change {
    fn edit(self, alloc: Global, row: &mut Row) -> bool {
        match self {
            Change::Row(_, number, stamp, value) => {
                row.number = number;
                row.stamp = Some(stamp);
                put(&mut row.values, repeated(alloc, Reading::Value(value), 1))
            }
            Change::NoStamp => {
                row.stamp = None;
                true
            }
            Change::Width(values, bits) => {
                put(&mut row.values, repeated(alloc, Reading::Value(12), values))
                    && put(&mut row.bits, repeated(alloc, false, bits))
            }
            _ => false,
        }
    }
}

/// Changes the item at a place of a list.
fn edit_at<T: Drop>(
    alloc: Global,
    list: &mut Items<T>,
    at: usize,
    edit: impl Edit<T> + Drop,
) -> bool {
    let mut items = mem::replace(list, no_items(alloc)).into_vec();
    let is_edited = match items.get_mut(at) {
        Some(item) => edit.edit(alloc, item),
        None => false,
    };
    *list = Items::of(items);
    is_edited
}

/// So many rates of 1,000 rows a second.
fn rates(alloc: Global, count: u32, first: u64, last: u64) -> Option<Vec<Rate>> {
    let samp = Decimal::new(1000, 0)?;
    let rate = Rate {
        samp,
        endsamp: last,
    };
    let mut rates = repeated(alloc, rate, count as usize)?;
    if let Some(rate) = rates.first_mut() {
        rate.endsamp = first;
    }
    Some(rates)
}

/// Leaves so many items of a list at most.
fn keep<T: Drop>(list: &mut Items<T>, count: usize, alloc: Global) {
    let mut items = mem::replace(list, no_items(alloc)).into_vec();
    items.truncate(count);
    *list = Items::of(items);
}

/// Changes a file; false where that can't be.
pub fn is_changed(alloc: Global, file: &mut File, change: Change) -> bool {
    let head = &mut file.head;
    match change {
        Change::Station(text) => give_text(&mut head.station, alloc, text),
        Change::Device(text) => give_text(&mut head.device, alloc, text),
        Change::Analog(..) | Change::Span(..) => edit_at(alloc, &mut head.analog, 0, change),
        Change::Status(_) => edit_at(alloc, &mut head.status, 0, change),
        Change::Instants(first, trigger) => {
            head.first = first;
            head.trigger = trigger;
            true
        }
        Change::Nrates(count) => {
            head.nrates = count;
            true
        }
        Change::Rates(count, first, last) => {
            head.nrates = count;
            put(&mut head.rates, rates(alloc, count, first, last))
        }
        Change::Row(at, ..) => edit_at(alloc, &mut file.rows, at, change),
        Change::NoStamp | Change::Width(..) => edit_at(alloc, &mut file.rows, 1, change),
        Change::Short => {
            keep(&mut file.rows, 4, alloc);
            true
        }
        Change::Bare(analogs, statuses) => {
            keep(&mut file.rows, 0, alloc);
            keep(&mut head.analog, analogs, alloc);
            keep(&mut head.status, statuses, alloc);
            put(&mut head.rates, rates(alloc, 1, 0, 0))
        }
    }
}
