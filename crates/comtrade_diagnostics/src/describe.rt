//! Describes an error of a pair of files: the line, the field's name, what was found and what
//! was expected.

ghost use Rattle.std.specs.Prelude.{◌<◌, IfOk};
ghost use Rattle.comtrade_diagnostics.specs.Places.{AreFew};

use crate::counts::Counts;
use crate::forms::put_other_form;
use crate::names::{
    Place, field_at, fields_wanted, place_at, place_name, rate_count_line, type_line,
};
use comtrade_io::put_quoted;
use comtrade_read::ReadFault;
use comtrade_values::{
    fields_of, integer_of, lines_of, put, put_count, put_number, put_with, without_blank_end,
};
use std::alloc::{AllocError, Allocator};

/// The line with this number, counted from 1; empty if there is none.
pub(crate) fn line_at<'a>(lines: &[&'a [u8]], line: u64) -> &'a [u8] {
    let Ok(at) = usize::try_from(line.saturating_sub(1)) else {
        return b"";
    };
    match lines.get(at) {
        Some(line) => line,
        None => b"",
    }
}

/// The field with this number, counted from 1; empty if there is none.
fn field_of<'a, A: Allocator + Copy>(
    alloc: A,
    line: &'a [u8],
    field: u32,
) -> Result<&'a [u8], AllocError> {
    let fields = fields_of(alloc, line)?;
    match fields.get((field as usize).saturating_sub(1)) {
        Some(text) => Ok(text),
        None => Ok(b""),
    }
}

/// A whole number below a million; 0 if the text is not one.
fn number_in(text: &[u8]) -> u64
    ensures { result < 1_000_000 }
{
    match integer_of(text) {
        Some(n) if 0 <= n && n < 1_000_000 => n as u64,
        _ => 0,
    }
}

/// The number before the last letter of a field.
fn lettered<A: Allocator + Copy>(alloc: A, line: &[u8], field: u32) -> Result<u64, AllocError>
    ensures { IfOk result (λ n. n < 1_000_000) }
{
    match field_of(alloc, line, field)? {
        [digits @ .., _] => Ok(number_in(digits)),
        [] => Ok(0),
    }
}

/// The counts that the configuration file declares, as far as they can be read.
fn counts_in<A: Allocator + Copy>(alloc: A, lines: &[&[u8]]) -> Result<Counts, AllocError>
    ensures { IfOk result AreFew }
{
    let line = line_at(lines, 2);
    let channels = Counts {
        analog: lettered(alloc, line, 2)?,
        status: lettered(alloc, line, 3)?,
        rates: 1,
    };
    let rates = field_of(alloc, line_at(lines, rate_count_line(channels)), 1)?;
    Ok(Counts {
        rates: number_in(rates).max(1),
        ..channels
    })
}

pub(crate) fn put_place<A: Allocator>(
    out: &mut Vec<u8, A>,
    place: Place,
) -> Result<(), AllocError> {
    let (name, number) = place_name(place);
    match number {
        Some(n) => put_with(out, name, n),
        None => put(out, name),
    }
}

/// `line 3 (analogue channel 1)`.
pub(crate) fn put_line<A: Allocator>(
    out: &mut Vec<u8, A>,
    line: u64,
    place: Place,
) -> Result<(), AllocError> {
    put_with(out, "line ", line)?;
    put(out, " (")?;
    put_place(out, place)?;
    put(out, ")")
}

/// Appends what was found and what was expected.
fn put_wanted<A: Allocator>(
    out: &mut Vec<u8, A>,
    text: &[u8],
    wanted: &str,
) -> Result<(), AllocError> {
    put(out, ": found ")?;
    put_quoted(out, text)?;
    put(out, ", expected ")?;
    put(out, wanted)
}

/// Describes a field that cannot be read.
pub(crate) fn put_field<A: Allocator + Copy>(
    alloc: A,
    out: &mut Vec<u8, A>,
    text: &[u8],
    field: u32,
    named: (&'static str, &'static str),
) -> Result<(), AllocError> {
    put_with(out, ", field ", field as u64)?;
    put(out, " (")?;
    put(out, named.0)?;
    put(out, ")")?;
    let text = field_of(alloc, text, field)?;
    put_wanted(out, text, named.1)
}

/// Describes a wrong number of fields.
pub(crate) fn put_field_count<A: Allocator + Copy>(
    alloc: A,
    out: &mut Vec<u8, A>,
    text: &[u8],
    wanted: u64,
    names: &str,
) -> Result<(), AllocError> {
    put(out, ": found ")?;
    let count = fields_of(alloc, text)?.len();
    put_count(out, count as u64, " field", " fields")?;
    put(
        out,
        if wanted == 1 {
            ", expected only "
        } else {
            ", expected "
        },
    )?;
    put_number(out, wanted)?;
    put(out, ": ")?;
    put(out, names)
}

/// Describes numbers that contradict each other.
fn put_disagreement<A: Allocator + Copy>(
    alloc: A,
    out: &mut Vec<u8, A>,
    text: &[u8],
    place: Place,
) -> Result<(), AllocError> {
    match place {
        Place::Analog(n) | Place::Status(n) => {
            put_field(alloc, out, text, 1, ("channel number", ""))?;
            put_number(out, n)
        }
        Place::Rate(_) => {
            let wanted = "a number not below that of the previous rate";
            put_field(alloc, out, text, 2, ("last row at this rate", wanted))
        }
        _ => put_wanted(
            out,
            text,
            "a total that is the sum of both counts and not 0",
        ),
    }
}

/// Describes a first line of another revision.
fn put_revision<A: Allocator + Copy>(
    alloc: A,
    out: &mut Vec<u8, A>,
    text: &[u8],
) -> Result<(), AllocError> {
    put_line(out, 1, Place::Station)?;
    if fields_of(alloc, text)?.len() < 3 {
        return put(
            out,
            ": found no revision (as in files of 1991), expected 1999 as field 3",
        );
    }
    put_field(alloc, out, text, 3, ("revision", "1999"))
}

/// Describes a missing line, or text after the last line.
fn put_end<A: Allocator>(
    out: &mut Vec<u8, A>,
    line: u64,
    place: Place,
    text: &[u8],
) -> Result<(), AllocError> {
    put_line(out, line, place)?;
    match place {
        Place::After => put_wanted(out, text, "the end of the file"),
        _ => put(out, ": the file ends before this line"),
    }
}

fn put_at_line<A: Allocator + Copy>(
    alloc: A,
    out: &mut Vec<u8, A>,
    text: &[u8],
    line: u64,
    place: Place,
    fault: ReadFault,
) -> Result<(), AllocError> {
    put_line(out, line, place)?;
    match fault {
        ReadFault::Fields(_) => {
            let (wanted, names) = fields_wanted(place);
            put_field_count(alloc, out, text, wanted, names)
        }
        ReadFault::Number(_, field) => {
            put_field(alloc, out, text, field, field_at(place, field))
        }
        ReadFault::Counts(_) => put_disagreement(alloc, out, text, place),
        ReadFault::Instant(_) => put_wanted(
            out,
            text,
            "a valid date and time as dd/mm/yyyy,hh:mm:ss.ssssss (years 1 to 9999, no leap second)",
        ),
        _ => put_wanted(out, text, "ASCII or BINARY"),
    }
}

/// Describes an error of a configuration file.
pub(crate) fn put_cfg_fault<A: Allocator + Copy>(
    alloc: A,
    out: &mut Vec<u8, A>,
    cfg: &[u8],
    fault: ReadFault,
) -> Result<(), AllocError> {
    let all = lines_of(alloc, cfg)?;
    let lines = without_blank_end(&all);
    let counts = counts_in(alloc, lines)?;
    let line = match fault {
        ReadFault::Revision => return put_revision(alloc, out, line_at(lines, 1)),
        ReadFault::Missing(line) | ReadFault::Extra(line) => {
            return put_end(out, line, place_at(counts, line), line_at(lines, line));
        }
        ReadFault::Fields(line)
        | ReadFault::Number(line, _)
        | ReadFault::Counts(line)
        | ReadFault::Instant(line) => line,
        _ => type_line(counts),
    };
    put_at_line(
        alloc,
        out,
        line_at(lines, line),
        line,
        place_at(counts, line),
        fault,
    )?;
    put_other_form(alloc, out, lines, counts, line)
}

/// Appends `line 3 (analogue channel 1), field 2 (id): "IA" cannot be written` for a field in the
/// lines of a configuration file.
fn put_field_there<A: Allocator + Copy>(
    alloc: A,
    out: &mut Vec<u8, A>,
    lines: &[&[u8]],
    line: u64,
    field: u32,
    name: &str,
) -> Result<(), AllocError> {
    let counts = counts_in(alloc, lines)?;
    let text = field_of(alloc, line_at(lines, line), field)?;
    put_line(out, line, place_at(counts, line))?;
    put_with(out, ", field ", field as u64)?;
    put(out, " (")?;
    put(out, name)?;
    put(out, "): ")?;
    put_quoted(out, text)?;
    put(out, " cannot be written")
}

/// The same for the bytes of a configuration file that can be read.
pub(crate) fn put_line_of<A: Allocator + Copy>(
    alloc: A,
    out: &mut Vec<u8, A>,
    cfg: &[u8],
    line: u64,
    field: u32,
    name: &str,
) -> Result<(), AllocError> {
    let lines = lines_of(alloc, cfg)?;
    put_field_there(alloc, out, &lines, line, field, name)
}
