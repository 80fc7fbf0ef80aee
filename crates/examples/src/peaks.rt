//! Prints the least and the greatest value of each analogue channel of a pair of COMTRADE files. An
//! example of a program over `comtrade_read` and `comtrade_format`.

mod span;

use crate::peaks::span::span_of;
use anyhow::{Context, Result, anyhow};
use comtrade_format::{File, Row, civil_of, scale_of};
use comtrade_read::read;
use dfr_channels::AnalogChannel;
use std::fs;
use std::rt::Files;

/// Reads both files. A pair that isn't valid has a first fault, and the part of the pair that has it.
fn file_in<R: Files + AllocGlobal>(rt: &R, cfg: &str, dat: &str) -> Result<File> {
    let cfg = fs::read(rt, cfg).context("the configuration file")?;
    let dat = fs::read(rt, dat).context("the data file")?;
    read(rt.alloc(), &cfg, &dat).map_err(|(part, fault)| anyhow!("{part}: {fault}"))
}

/// Prints the instant of the first row, as a date and a time of day.
fn print_first<R: Print>(rt: &R, file: &File) -> Result<()> {
    let first = civil_of(file.head.first).context("a date of the calendar")?;
    let (date, time) = (first.date, first.time);
    println!(rt;
        "first row {}-{:02}-{:02} {:02}:{:02}:{:02}.{:06}",
        date.year,
        date.month,
        date.day,
        time.hour,
        time.minute,
        time.second,
        time.subsec_nanosecond / 1000
    )?;
    Ok(())
}

/// Prints a channel's line. The id may have any bytes; `{:?}` keeps them from reaching a
/// terminal unchanged.
fn print_peaks<R: Print + AllocGlobal>(
    rt: &R,
    rows: &[Row],
    number: usize,
    channel: &AnalogChannel,
) -> Result<()> {
    let id = str::from_utf8(channel.id.items()).unwrap_or("?");
    let unit = str::from_utf8(channel.unit.items()).unwrap_or("?");
    let scale = scale_of(rt.alloc(), channel)?;
    match span_of(rows, number) {
        None => println!(rt; "{id:?}: no sample")?,
        Some(span) => {
            let (x, y) = (scale.value(span.least), scale.value(span.greatest));
            println!(rt; "{id:?}: {:.3} to {:.3} {unit:?}", x.min(y), x.max(y))?;
        }
    }
    Ok(())
}

fn print_all<R: Print + AllocGlobal>(rt: &R, file: &File) -> Result<()> {
    print_first(rt, file)?;
    let rows = file.rows.items();
    for (number, channel) in file.head.analog.items().iter().enumerate() {
        print_peaks(rt, rows, number, channel)?;
    }
    Ok(())
}

/// Prints the first instant, and a line for each analogue channel.
pub fn print<R: Files + Print + AllocGlobal>(rt: &R, cfg: &str, dat: &str) -> Result<()> {
    print_all(rt, &file_in(rt, cfg, dat)?)
}
