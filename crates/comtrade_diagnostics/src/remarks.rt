//! Notes on oddities of a pair that can be read: one line for each kind, with the first place.

use crate::check::Pair;
use comtrade_dialects::{Doubt, doubts_of};
use comtrade_format::{Border, File, border_of};
use comtrade_io::put_safe;
use comtrade_values::{put, put_number, put_with};
use dfr_channels::Reading;
use std::alloc::{AllocError, Allocator};

/// Appends the start of a note: the file, and the number of the first place.
fn put_front<A: Allocator>(
    out: &mut Vec<u8, A>,
    name: &[u8],
    place: &str,
    number: u64,
) -> Result<(), AllocError> {
    put(out, "note: ")?;
    put_safe(out, name)?;
    put_with(out, place, number)
}

/// Appends the end of a note: the number of such places.
fn put_end<A: Allocator>(out: &mut Vec<u8, A>, doubt: Doubt, noun: &str) -> Result<(), AllocError> {
    put_with(out, "; ", doubt.count)?;
    put(out, noun)?;
    put(out, if doubt.count == 1 { "\n" } else { "s\n" })
}

/// Appends a note on rows or on lines of the configuration file, if there are any.
fn put_places<A: Allocator>(
    out: &mut Vec<u8, A>,
    (name, place): (&[u8], &str),
    doubt: Doubt,
    words: &str,
    noun: &str,
) -> Result<(), AllocError> {
    if doubt.count == 0 {
        return Ok(());
    }
    put_front(out, name, place, doubt.row)?;
    put(out, words)?;
    put_end(out, doubt, noun)
}

/// Appends the min and the max of a channel.
fn put_range<A: Allocator>(
    out: &mut Vec<u8, A>,
    file: &File<A>,
    number: u64,
    between: &str,
) -> Result<(), AllocError> {
    let at = usize::try_from(number.saturating_sub(1)).unwrap_or(usize::MAX);
    match file.head.analog.items().get(at) {
        Some(channel) => {
            put_number(out, i64::from(channel.min))?;
            put(out, between)?;
            put_number(out, i64::from(channel.max))
        }
        None => Ok(()),
    }
}

/// The sample in a row and a channel, both counted from 1.
pub(crate) fn sample_in<A: Allocator>(file: &File<A>, row: u64, channel: u64) -> Option<i32> {
    let row = usize::try_from(row.checked_sub(1)?).ok()?;
    let at = usize::try_from(channel.checked_sub(1)?).ok()?;
    match file.rows.items().get(row)?.values.items().get(at)? {
        Reading::Value(sample) => Some(*sample),
        Reading::Missing => None,
    }
}

/// Appends a note on samples outside or at the limits of a channel's range, if there are any, with
/// these words before and after the sample.
fn put_samples<A: Allocator>(
    out: &mut Vec<u8, A>,
    pair: Pair<'_>,
    file: &File<A>,
    doubt: Doubt,
    (before, after): (&str, &str),
    noun: &str,
) -> Result<(), AllocError> {
    let Some(sample) = sample_in(file, doubt.row, doubt.channel) else {
        return Ok(());
    };
    put_front(out, pair.dat_name, ": row ", doubt.row)?;
    put_with(out, " (analogue channel ", doubt.channel)?;
    put(out, before)?;
    put_number(out, i64::from(sample))?;
    put(out, after)?;
    put_range(out, file, doubt.channel, " to ")?;
    put_end(out, doubt, noun)
}

/// Appends a note on channels whose min is above their max, if there are any.
fn put_turned<A: Allocator>(
    out: &mut Vec<u8, A>,
    pair: Pair<'_>,
    file: &File<A>,
    doubt: Doubt,
) -> Result<(), AllocError> {
    if doubt.count == 0 {
        return Ok(());
    }
    let channel = doubt.channel;
    put_front(out, pair.cfg_name, ": analogue channel ", channel)?;
    put(out, ": min ")?;
    put_range(out, file, channel, " is above max ")?;
    put_end(out, doubt, " such channel")
}

/// Appends a note if the stamps put the first row of each later rate one interval of that rate after
/// the row before.
fn put_border<A: Allocator>(
    out: &mut Vec<u8, A>,
    pair: Pair<'_>,
    file: &File<A>,
) -> Result<(), AllocError> {
    match border_of(file) {
        Border::Old => Ok(()),
        Border::New => {
            put(out, "note: ")?;
            put_safe(out, pair.dat_name)?;
            put(
                out,
                ": the stamps put the first row of each later rate one interval of the new rate after the row before; times follow them\n",
            )
        }
    }
}

/// Appends a note for each kind of oddity (not an error) of a pair that reads to this file, such as
/// `note: x.dat: row 2 ..`.
pub fn put_remarks<A: Allocator + Copy>(
    out: &mut Vec<u8, A>,
    pair: Pair<'_>,
    file: &File<A>,
) -> Result<(), AllocError> {
    let doubts = doubts_of(*out.allocator(), file)?;
    put_places(
        out,
        (pair.cfg_name, ": line "),
        doubts.foreign,
        ": non-ASCII text (the standard requires ASCII)",
        " such line",
    )?;
    put_turned(out, pair, file, doubts.turned)?;
    for (doubt, words) in [
        (
            doubts.repeated,
            ": row number is not above that of the previous row",
        ),
        (
            doubts.falling,
            ": time stamp is below that of the previous row",
        ),
        (
            doubts.off,
            ": time stamp and rate disagree by more than half an interval; times come from the rate",
        ),
    ] {
        put_places(out, (pair.dat_name, ": row "), doubt, words, " such row")?;
    }
    put_border(out, pair, file)?;
    let outside = ("): sample ", " is outside its range, ");
    put_samples(out, pair, file, doubts.outside, outside, " such sample")?;
    let flat = (
        "): three or more consecutive samples are ",
        ", a limit of the range ",
    );
    put_samples(out, pair, file, doubts.flat, flat, " such run")
}
