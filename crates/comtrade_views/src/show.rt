//! What a pair of files contains, as text.

ghost use Rattle.std.specs.Prelude.{◌≡◌, ◌+◌, ◌-◌, ◌++◌, ◌∷◌, [], OnOk, codes, decimal};
ghost use Rattle.comtrade_views.specs.Texts.{row_time};

use crate::instant::{put_instant, put_millis};
use crate::number::{put_decimal, put_ordinal};
use crate::show_analog::{put_analog, surveys_in};
use crate::show_status::{LISTED, put_more, put_status};
use crate::times::{time_at, trigger_since_first};
use comtrade_analysis::{Gap, Survey, gaps_of};
use comtrade_format::{File, Head, Row};
use comtrade_io::{ToolFault, kind_name, put_safe, write_out};
use comtrade_values::{Memory, put, put_count, put_with};
use std::alloc::{AllocError, Allocator};
use std::io::Write;

/// When the rows were taken, in nanoseconds since the trigger, and when the trigger was, in
/// nanoseconds since the first row.
#[derive(Clone, Copy)]
pub(crate) struct Clock<'a> {
    pub(crate) times: &'a [Option<i64>],
    pub(crate) trigger: i128,
}

/// When a row was taken, in milliseconds since the trigger.
pub(crate) fn put_row_time<A: Allocator>(
    out: &mut Vec<u8, A>,
    clock: Clock<'_>,
    row: usize,
) -> Result<(), AllocError>
    ensures { OnOk result (out.new.items ≡ out.old.items ++ row_time clock.entry.times.now row) }
{
    match time_at(clock.times, row) {
        Some(nanos) => put_millis(out, nanos as i128),
        None => put_ordinal(out, "row ", row),
    }
}

/// The station, the device, the instants and the frequency.
fn put_head<A: Allocator>(
    out: &mut Vec<u8, A>,
    head: &Head<A>,
    trigger: i128,
) -> Result<(), AllocError> {
    put(out, "station    ")?;
    put_safe(out, head.station.items())?;
    put(out, "\ndevice     ")?;
    put_safe(out, head.device.items())?;
    put(out, "\nfirst row  ")?;
    put_instant(out, head.first as i128)?;
    put(out, "\ntrigger    ")?;
    put_instant(out, head.trigger as i128)?;
    put(out, ", ")?;
    put_millis(out, trigger)?;
    put(out, " ms after the first row\nfrequency  ")?;
    put_decimal(out, head.line_freq)?;
    put(out, " Hz\n")
}

/// The rates, as the file gives them.
fn put_rates<A: Allocator>(out: &mut Vec<u8, A>, head: &Head<A>) -> Result<(), AllocError> {
    if head.nrates == 0 {
        return put(
            out,
            "rate       none; row times come from the stamps, if any\n",
        );
    }
    for rate in head.rates.items() {
        put(out, "rate       ")?;
        put_decimal(out, rate.samp)?;
        put_with(out, " scans/s to row ", rate.endsamp)?;
        put(out, "\n")?;
    }
    Ok(())
}

/// The number of rows, their data format, and how long the record is.
fn put_data<A: Allocator>(
    out: &mut Vec<u8, A>,
    file: &File<A>,
    clock: Clock<'_>,
) -> Result<(), AllocError> {
    put(out, "data       ")?;
    put(out, kind_name(file.head.kind))?;
    put(out, ", ")?;
    put_count(out, file.rows.items().len() as u64, " row", " rows")?;
    put(out, ", stamps in ")?;
    put_decimal(out, file.head.timemult)?;
    put(out, " us")?;
    if let (Some(Some(first)), Some(Some(last))) = (clock.times.first(), clock.times.last()) {
        put(out, ", ")?;
        put_millis(out, *last as i128 - *first as i128)?;
        put(out, " ms long")?;
    }
    put(out, "\n")
}

/// Prints the first and the last row of a gap, with their times.
fn put_gap<A: Allocator>(out: &mut Vec<u8, A>, clock: Clock<'_>, gap: Gap) -> Result<(), AllocError>
    ensures { OnOk result (out.new.items ≡ out.old.items
        ++ codes "  " ++ row_time clock.entry.times.now gap.first
        ++ codes " to " ++ row_time clock.entry.times.now (gap.first + (gap.rows - 1))
        ++ (codes ", rows " ++ decimal (gap.first + 1))
        ++ (codes " to " ++ decimal (gap.first + (gap.rows - 1) + 1)) ++ 10 ∷ []) }
{
    let last = gap.first + (gap.rows - 1);
    put(out, "  ")?;
    put_row_time(out, clock, gap.first)?;
    put(out, " to ")?;
    put_row_time(out, clock, last)?;
    put_ordinal(out, ", rows ", gap.first)?;
    put_ordinal(out, " to ", last)?;
    put(out, "\n")
}

/// Prints the first gaps of a channel, and how many more there are.
fn put_gaps_of<A: Allocator + Copy>(
    out: &mut Vec<u8, A>,
    rows: &[Row<A>],
    clock: Clock<'_>,
    channel: usize,
) -> Result<(), Memory> {
    let gaps = gaps_of(*out.allocator(), rows, channel)?;
    for gap in gaps.iter().take(LISTED) {
        put_gap(out, clock, *gap)?;
    }
    if LISTED < gaps.len() {
        put(out, " ")?;
        put_more(out, gaps.len())?;
        put(out, "\n")?;
    }
    Ok(())
}

/// Prints the gaps of each channel that has any, under a line with its name.
fn put_gaps<A: Allocator + Copy>(
    out: &mut Vec<u8, A>,
    file: &File<A>,
    clock: Clock<'_>,
    surveys: &[Survey],
) -> Result<(), Memory> {
    for (i, channel) in file.head.analog.items().iter().enumerate() {
        if matches!(surveys.get(i), Some(survey) if survey.missing != 0) {
            put_ordinal(out, "\nmissing readings of analogue channel ", i)?;
            put(out, ", ")?;
            put_safe(out, channel.id.items())?;
            put(out, ", ms since the trigger\n")?;
            put_gaps_of(out, file.rows.items(), clock, i)?;
        }
    }
    Ok(())
}

/// Everything that `show` prints.
fn put_all<A: Allocator + Copy>(
    alloc: A,
    out: &mut Vec<u8, A>,
    file: &File<A>,
    clock: Clock<'_>,
) -> Result<(), Memory> {
    put_head(out, &file.head, clock.trigger)?;
    put_rates(out, &file.head)?;
    put_data(out, file, clock)?;
    let surveys = surveys_in(alloc, file)?;
    put_analog(out, file, clock, &surveys)?;
    put_status(out, file, clock)?;
    put_gaps(out, file, clock, &surveys)
}

/// Prints what a file contains. The rows were taken at these times, in nanoseconds since the
/// trigger.
pub fn show_over<A: Allocator + Copy, W: Write>(
    alloc: A,
    file: &File<A>,
    times: &[Option<i64>],
    w: &mut W,
) -> Result<(), ToolFault> {
    let clock = Clock {
        times,
        trigger: trigger_since_first(file),
    };
    let mut out = Vec::new(alloc);
    put_all(alloc, &mut out, file, clock)?;
    write_out(w, &out)
}
