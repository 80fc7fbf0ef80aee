//! The changes of contacts.

ghost use Rattle.std.specs.Prelude.{◌≡◌, ◌++◌, ◌<◌, length, IfOk, OnOk};
ghost use Rattle.comtrade_analysis.specs.Events as spec;

use comtrade_format::Row;
use comtrade_values::Memory;
use std::alloc::Allocator;

/// A contact that has another state than in the row before. Rows and channels count from 0.
#[derive(Clone, Copy, Debug, PartialEq, Eq)]
pub struct Event {
    pub row: usize,
    pub channel: usize,
    /// The new state: whether the bit is 1.
    pub closed: bool,
}

/// The state of a contact in a row; None where the row has none. Both count from 0.
pub fn bit_at<A: Allocator>(rows: &[Row<A>], channel: usize, row: usize) -> Option<bool>
    ensures { result ≡ spec.bit_at rows.now channel row }
{
    rows.get(row)?.bits.items().get(channel).copied()
}

/// The new state, if it is another one.
fn change(before: Option<bool>, now: Option<bool>) -> Option<bool>
    ensures { result ≡ spec.change before now }
{
    match (before, now) {
        (Some(true), Some(false)) => Some(false),
        (Some(false), Some(true)) => Some(true),
        _ => None,
    }
}

/// The event of a contact in a row, if it changes there.
pub(crate) fn event_at<A: Allocator>(rows: &[Row<A>], row: usize, channel: usize) -> Option<Event>
    requires { 0 < row }
    ensures { result ≡ spec.event_at rows.now row channel }
{
    let before = bit_at(rows, channel, row - 1);
    match change(before, bit_at(rows, channel, row)) {
        Some(closed) => Some(Event {
            row,
            channel,
            closed,
        }),
        None => None,
    }
}

/// Adds the events of a row, contact by contact. `Memory`: an allocation failed.
fn add_row<A: Allocator, B: Allocator>(
    events: &mut Vec<Event, B>,
    rows: &[Row<A>],
    contacts: usize,
    row: usize,
) -> Result<(), Memory>
    requires { 0 < row }
    ensures { OnOk result (events.new.items ≡ events.old.items ++ spec.row_events rows.now contacts row) }
{
    for channel in 0..contacts {
        if let Some(event) = event_at(rows, row, channel) {
            events.push(event)?;
        }
    }
    Ok(())
}

/// The events of so many contacts, row by row, and contact by contact. A contact's state before its
/// first event is what `bit_at` says of row 0. `Memory`: an allocation failed.
pub fn events_of<A: Allocator, B: Allocator + Copy>(
    alloc: B,
    rows: &[Row<A>],
    contacts: usize,
) -> Result<Vec<Event, B>, Memory>
    ensures { IfOk result (λ events. events.items ≡ spec.events rows.now contacts) }
{
    let mut events = Vec::new(alloc);
    for row in 1..rows.len() {
        add_row(&mut events, rows, contacts, row)?;
    }
    Ok(events)
}

/// The first event of a contact, if it changes at all.
pub fn first_event_of<A: Allocator>(rows: &[Row<A>], channel: usize) -> Option<Event>
    ensures { spec.IsFirstEvent rows.now channel (length rows.now) result }
{
    for row in 1..rows.len() {
        if let Some(event) = event_at(rows, row, channel) {
            return Some(event);
        }
    }
    None
}
