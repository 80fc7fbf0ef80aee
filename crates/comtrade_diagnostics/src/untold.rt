//! Compares what is written with what the data have.

ghost use Rattle.std.specs.Prelude.{◌≡◌, ◌↔◌, IsTrue, IfSome, length, slice_get};
ghost use Rattle.comtrade_diagnostics.specs.Told as spec;

use crate::covers::{Said, is_told};
use comtrade_format::Row;
use comtrade_values::Items;
use dfr_channels::Reading;
use std::alloc::Allocator;

/// A sample as the data have it.
#[derive(Clone, Copy, Debug, PartialEq, Eq)]
pub enum Sample {
    /// A whole number that can be held as it is.
    Whole(i32),
    /// No number.
    Absent,
    /// A number that cannot be held as it is.
    Beyond,
}

/// A sample, by its row and channel, counted from 0.
#[derive(Clone, Copy, Debug, PartialEq, Eq)]
pub struct Place {
    pub row: usize,
    pub channel: usize,
}

/// The item with this index, if there is one.
fn at<T: Copy>(items: &[T], index: usize) -> Option<T>
    ensures { result ≡ slice_get items.now index }
{
    items.get(index).copied()
}

/// Whether a sample is written as it is.
fn is_kept(own: Sample, written: Reading) -> bool
    ensures { IsTrue result ↔ spec.IsKept own written }
{
    match (own, written) {
        (Sample::Whole(x), Reading::Value(y)) => x == y,
        (Sample::Absent, Reading::Missing) => true,
        _ => false,
    }
}

/// Whether what is written in this row and channel is the sample of the data, or a note covers it;
/// or neither has such a channel.
fn is_told_at<A: Allocator>(
    place: (usize, usize),
    own: Option<Sample>,
    written: Option<Reading>,
    notes: &[Said<A>],
    unfit: &[bool],
) -> bool
    ensures { IsTrue result ↔ spec.IsToldAt notes.now unfit.now place.0 place.1 own written }
{
    match (own, written) {
        (Some(x), Some(y)) => is_kept(x, y) || is_told(notes, place, y, unfit),
        (None, None) => true,
        _ => false,
    }
}

/// The first channel of a row whose sample differs from the data where no note covers it; also the
/// first that only one of them has.
fn first_in_row<A: Allocator>(
    own: &[Sample],
    written: &[Reading],
    row: usize,
    notes: &[Said<A>],
    unfit: &[bool],
) -> Option<usize>
    ensures none { result ≡ None → spec.IsRowTold notes.now unfit.now row own.now written.now }
    ensures some { IfSome result (λ channel. spec.IsToldAt notes.now unfit.now row channel
        (slice_get own.now channel) (slice_get written.now channel) → ⊥) }
{
    for channel in 0..own.len().max(written.len()) {
        let (x, y) = (at(own, channel), at(written, channel));
        if !is_told_at((row, channel), x, y, notes, unfit) {
            return Some(channel);
        }
    }
    None
}

/// The first sample that differs from the data where no note covers it.
pub fn first_untold<A: Allocator>(
    own: &[Items<Sample, A>],
    rows: &[Row<A>],
    notes: &[Said<A>],
    unfit: &[bool],
) -> Option<Place>
    requires { length own.now ≡ length rows.now }
    ensures none { result ≡ None → spec.IsAllTold notes.now unfit.now own.now rows.now }
    ensures some { IfSome result (spec.IsUntold notes.now unfit.now own.now rows.now) }
{
    for row in 0..rows.len() {
        let samples: &Items<Sample, A> = &own[row];
        let written: &Row<A> = &rows[row];
        let (xs, ys) = (samples.items(), written.values.items());
        if let Some(channel) = first_in_row(xs, ys, row, notes, unfit) {
            return Some(Place { row, channel });
        }
    }
    None
}
