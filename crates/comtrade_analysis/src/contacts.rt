//! The changes of single contacts.

ghost use Rattle.std.specs.Prelude.{◌≡◌, ◌+◌, ◌<◌, ℕ, length, take, IsFalse, IfOk, None, option_to_list};
ghost use Rattle.comtrade_analysis.specs.Events as events;
ghost use Rattle.comtrade_analysis.specs.Contacts as spec;

use crate::events::{Event, event_at};
use comtrade_format::Row;
use comtrade_values::Memory;
use std::alloc::Allocator;

/// The first events of a contact, at most so many. `Memory`: an allocation failed.
pub fn first_events_of<A: Allocator, B: Allocator + Copy>(
    alloc: B,
    rows: &[Row<A>],
    contact: usize,
    most: usize,
) -> Result<Vec<Event, B>, Memory>
    ensures { IfOk result (λ events. events.items ≡ take most (spec.contact_events rows.now contact (length rows.now))) }
{
    let mut events = Vec::new(alloc);
    for row in 1..rows.len() {
        if let Some(event) = event_at(rows, row, contact) {
            if events.len() < most {
                events.push(event)?;
            }
        }
    }
    Ok(events)
}

/// Whether a row has other bits than the row before.
fn has_other_bits<A: Allocator>(rows: &[Row<A>], row: usize) -> bool
    requires some { 0 < row }
    requires within { row < length rows.now }
    ensures { IsFalse result → (contact : ℕ) → events.event_at rows.now row contact ≡ None }
{
    let before = &rows[row - 1];
    let now = &rows[row];
    now.bits.items() != before.bits.items()
}

/// A number of events with one more, if there is one.
fn counted(count: usize, event: Option<Event>) -> usize
    requires { count < usize.MAX }
    ensures { result ≡ count + length (option_to_list event) }
{
    match event {
        Some(_) => count + 1,
        None => count,
    }
}

/// Adds the events of a row to the numbers of those before it.
fn count_row<A: Allocator>(counts: &mut [usize], rows: &[Row<A>], row: usize)
    requires some { 0 < row }
    requires within { row < length rows.now }
    requires before { spec.AreCounts rows.now row counts.old }
    ensures { spec.AreCounts rows.now (row + 1) counts.new }
{
    if !has_other_bits(rows, row) {
        return;
    }
    for contact in 0..counts.len() {
        counts[contact] = counted(counts[contact], event_at(rows, row, contact));
    }
}

/// How many events each of so many contacts has, in order. `Memory`: an allocation failed.
pub fn event_counts_of<A: Allocator, B: Allocator + Copy>(
    alloc: B,
    rows: &[Row<A>],
    contacts: usize,
) -> Result<Vec<usize, B>, Memory>
    ensures count { IfOk result (λ counts. length counts.items ≡ contacts) }
    ensures each { IfOk result (λ counts. spec.AreCounts rows.now (length rows.now) counts.items) }
{
    let mut counts = vec![in alloc; 0usize; contacts]?;
    for row in 1..rows.len() {
        count_row(&mut counts, rows, row);
    }
    Ok(counts)
}
