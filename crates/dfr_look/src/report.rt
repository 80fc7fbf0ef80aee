//! What a capture has, in words.

use crate::block_text::put_block;
use crate::look::Counts;
use crate::setup_text::put_setup;
use crate::skipped::Tally;
use crate::stream_text::put_stream;
use crate::through::Looked;
use dfr_bus::{Capture, Unit};
use std::alloc::Allocator;
use std::io;
use std::io::Write;

/// The reasons for which a frame is skipped, by their numbers.
const REASONS: [&str; 13] = [
    "a field goes on where the frame ends",
    "another field than the standard's",
    "an indefinite length",
    "a length that begins with 255",
    "a length beyond the end",
    "a field of a wrong size",
    "the length in the head is below 8",
    "not 1 to 8 units",
    "data not of values and qualities of 4 bytes each",
    "a number above 4294967295",
    "an unknown element of data",
    "bytes after the last field",
    "a fault of the capture",
];

/// The frames that are skipped.
fn put_skipped<W: Write>(out: &mut W, protocol: &str, tally: &Tally) -> io::Result<()> {
    for (i, frames) in tally.iter().enumerate() {
        if *frames > 0 && i < 13 {
            writeln!(
                out,
                "# skipped: {frames} frames of {protocol}: {}",
                REASONS[i]
            )?;
        }
    }
    Ok(())
}

/// How long the capture is, in seconds.
fn put_times<W: Write>(out: &mut W, times: Option<(u64, u64)>) -> io::Result<()> {
    match times {
        Some((first, last)) if first <= last => {
            let ms = (last - first) / 1_000_000;
            write!(out, " in {}.{:03} s", ms / 1000, ms % 1000)
        }
        _ => Ok(()),
    }
}

/// The head of the report.
fn put_head<W: Write>(
    out: &mut W,
    capture: Capture,
    counts: &Counts,
    times: Option<(u64, u64)>,
) -> io::Result<()> {
    let unit = match capture.unit {
        Unit::Micro => "microseconds",
        Unit::Nano => "nanoseconds",
    };
    write!(out, "# capture: {} frames", counts.frames)?;
    put_times(out, times)?;
    writeln!(out, "; Ethernet, times in {unit}")?;
    if counts.others > 0 {
        writeln!(
            out,
            "# skipped: {} frames of other protocols",
            counts.others
        )?;
    }
    if counts.short > 0 {
        writeln!(
            out,
            "# skipped: {} frames that end within their Ethernet head",
            counts.short
        )?;
    }
    put_skipped(out, "sampled values", &counts.sampled)?;
    put_skipped(out, "GOOSE", &counts.goose)?;
    if counts.units > 0 {
        writeln!(
            out,
            "# more streams than 256: {} units are of the others",
            counts.units
        )?;
    }
    if counts.messages > 0 {
        writeln!(
            out,
            "# more control blocks than 256: {} messages are of the others",
            counts.messages
        )?;
    }
    Ok(())
}

/// Prints what a capture has: a block of lines for each stream and for each control block, as
/// comments of a set-up, and the lines of a set-up to start from.
pub fn put_report<A: Allocator, W: Write>(out: &mut W, looked: &Looked<A>) -> io::Result<()> {
    let counts = looked.look.counts();
    put_head(out, looked.capture, &counts, looked.times)?;
    if let Some(fault) = looked.fault {
        writeln!(
            out,
            "# the capture is damaged: {fault}; the rest is not read"
        )?;
    }
    for (i, entry) in looked.look.streams().iter().enumerate() {
        writeln!(out, "#")?;
        put_stream(out, i + 1, entry)?;
    }
    for (i, entry) in looked.look.blocks().iter().enumerate() {
        writeln!(out, "#")?;
        put_block(out, i + 1, entry)?;
    }
    put_setup(out, &looked.look)
}
