//! Describes what a file of a kind cannot hold.

ghost use Rattle.std.specs.Prelude.{◌≡◌, OnErr, OnOk};
ghost use Rattle.comtrade_diagnostics.specs.Puts.{PutsLine};

use crate::check::Pair;
use crate::describe::put_line_of;
use crate::line::put_line;
use crate::remarks::sample_in;
use comtrade_format::{File, Kind, WriteFault};
use comtrade_io::put_safe;
use comtrade_values::{put, put_number, put_with};
use std::alloc::{AllocError, Allocator};

/// The name of a text field, and what a file can hold there.
fn text_field(line: u64, field: u32) -> (&'static str, &'static str) {
    const NAME: &str = "at most 64 printable ASCII characters";
    match (line, field) {
        (1, 1) => ("station", NAME),
        (1, _) => ("device", NAME),
        (_, 2) => ("id", NAME),
        (_, 3) => ("phase", "at most 2 printable ASCII characters"),
        (_, 4) => ("component", NAME),
        _ => ("unit", "1 to 32 printable ASCII characters"),
    }
}

fn put_text<A: Allocator + Copy>(
    alloc: A,
    out: &mut Vec<u8, A>,
    cfg: &[u8],
    (line, field): (u64, u32),
) -> Result<(), AllocError> {
    let (name, wanted) = text_field(line, field);
    put_line_of(alloc, out, cfg, line, field, name)?;
    put(out, "; expected ")?;
    put(out, wanted)?;
    put(out, " in this field")
}

/// Appends the sample in a row and a channel, both counted from 1.
fn put_sample<A: Allocator, B: Allocator>(
    out: &mut Vec<u8, A>,
    file: &File<B>,
    (row, channel): (u64, u32),
) -> Result<(), AllocError> {
    put_with(out, "row ", row)?;
    put_with(out, " (analogue channel ", channel as u64)?;
    put(out, "): ")?;
    if let Some(sample) = sample_in(file, row, u64::from(channel)) {
        put(out, "sample ")?;
        put_number(out, sample as i64)?;
        put(out, " cannot be written; ")?;
    }
    Ok(())
}

/// Describes what cannot be written of a file that a pair reads to, and where it is.
fn put_refused<A: Allocator + Copy, B: Allocator>(
    alloc: A,
    out: &mut Vec<u8, A>,
    pair: Pair<'_>,
    file: &File<B>,
    fault: WriteFault,
) -> Result<(), AllocError> {
    let kind = file.head.kind;
    match fault {
        WriteFault::Text(line, field) => {
            put_safe(out, pair.cfg_name)?;
            put(out, ": ")?;
            put_text(alloc, out, pair.cfg, (line, field))?;
        }
        WriteFault::Value(row, channel) => {
            put_safe(out, pair.dat_name)?;
            put(out, ": ")?;
            put_sample(out, file, (row, channel))?;
            let held = match kind {
                Kind::Ascii => "ASCII data can hold -99999 to 99998",
                Kind::Binary => "BINARY data can hold -32767 to 32767",
            };
            put(out, held)?;
        }
        WriteFault::Stamp(row) => {
            put_safe(out, pair.dat_name)?;
            put_with(out, ": row ", row)?;
            put(
                out,
                ": the row number or time stamp exceeds the limit of the data type: ",
            )?;
            let most = match kind {
                Kind::Ascii => "9999999999",
                Kind::Binary => "4294967295 (row number), 4294967294 (time stamp)",
            };
            put(out, most)?;
        }
        _ => put(out, "the parts of the file do not fit each other")?,
    }
    Ok(())
}

/// Appends a line on what cannot be written, in the kind of the file's head, of a file that a pair
/// reads to, and where it is.
pub fn put_refusal<A: Allocator + Copy, B: Allocator>(
    alloc: A,
    out: &mut Vec<u8, A>,
    pair: Pair<'_>,
    file: &File<B>,
    fault: WriteFault,
) -> Result<(), AllocError>
    ensures line { OnOk result (PutsLine out.old.items out.new.items) }
    ensures kept { OnErr result (out.new.items ≡ out.old.items) }
{
    let mut line = Vec::new(alloc);
    put_refused(alloc, &mut line, pair, file, fault)?;
    put_line(out, &mut line)
}
