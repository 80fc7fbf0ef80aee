//! Recognises lines of a configuration file by their form. Where a line of another kind was
//! expected, names the kind found and the counts to check.

ghost use Rattle.comtrade_diagnostics.specs.Places.{AreFew, IsPlace};

use crate::counts::Counts;
use crate::describe::{line_at, put_line};
use crate::names::{Place, place_at, rate_count_line};
use comtrade_io::put_quoted;
use comtrade_values::{Decimal, fields_of, put};
use std::alloc::{AllocError, Allocator};

/// The kind of a line, judging by its fields alone.
#[derive(Clone, Copy, PartialEq, Eq)]
enum Form {
    Analog,
    Status,
    Number,
    Rate,
    Instant,
    Type,
}

/// The form expected at a place, if no other kind of line has the same form.
fn form_wanted(place: Place) -> Option<Form> {
    match place {
        Place::Analog(_) => Some(Form::Analog),
        Place::Status(_) => Some(Form::Status),
        Place::Frequency | Place::RateCount | Place::TimeMultiplier => Some(Form::Number),
        Place::Rate(_) => Some(Form::Rate),
        Place::First | Place::Trigger => Some(Form::Instant),
        Place::DataType => Some(Form::Type),
        Place::Station | Place::Channels | Place::After => None,
    }
}

fn is_number(text: &[u8]) -> bool {
    Decimal::read(text).is_some()
}

/// The form of a line with these fields, if only one kind of line has that form.
fn form_of(fields: &[&[u8]]) -> Option<Form> {
    match fields {
        [text] if text.starts_with(b"ASCII") || text.starts_with(b"BINARY") => Some(Form::Type),
        [text] if is_number(text) => Some(Form::Number),
        [date, time] if date.contains(&b'/') && time.contains(&b':') => Some(Form::Instant),
        [samp, endsamp] if is_number(samp) && is_number(endsamp) => Some(Form::Rate),
        _ => match fields.len() {
            5 => Some(Form::Status),
            13 => Some(Form::Analog),
            _ => None,
        },
    }
}

/// The form of a line with these fields, if a line of another form was expected.
fn other_form(fields: &[&[u8]], place: Place) -> Option<Form> {
    let wanted = form_wanted(place)?;
    let form = form_of(fields)?;
    // whether wrong counts misplaced the line: a frequency that looks like a rate has a decimal
    // comma, and a rate that looks like a number has no last row
    let is_misplaced = match place {
        Place::Analog(_) | Place::Status(_) => true,
        Place::Frequency | Place::TimeMultiplier => form != Form::Rate,
        _ => form != Form::Number,
    };
    if form != wanted && is_misplaced {
        Some(form)
    } else {
        None
    }
}

/// What a line of this form is called in messages.
fn form_name(form: Form) -> &'static str {
    match form {
        Form::Analog => "an analogue channel",
        Form::Status => "a status channel",
        Form::Number => "a single number",
        Form::Rate => "a rate",
        Form::Instant => "a date and time",
        Form::Type => "a data file type",
    }
}

/// The line whose counts decide which kind of line is expected at this place.
fn counting_line(counts: Counts, place: Place) -> (u64, Place)
    requires { AreFew counts }
    ensures { IsPlace counts result.0 result.1 }
{
    match place {
        Place::Analog(_) | Place::Status(_) | Place::Frequency | Place::RateCount => {
            (2, Place::Channels)
        }
        _ => (rate_count_line(counts), Place::RateCount),
    }
}

/// If a line of another kind was expected, appends what the line looks like and which counts
/// to check.
pub(crate) fn put_other_form<A: Allocator + Copy>(
    alloc: A,
    out: &mut Vec<u8, A>,
    lines: &[&[u8]],
    counts: Counts,
    line: u64,
) -> Result<(), AllocError>
    requires { AreFew counts }
{
    let place = place_at(counts, line);
    let Some(form) = other_form(&fields_of(alloc, line_at(lines, line))?, place) else {
        return Ok(());
    };
    put(out, "; this line looks like ")?;
    put(out, form_name(form))?;
    put(out, ", so check ")?;
    let (line, place) = counting_line(counts, place);
    put_line(out, line, place)?;
    put(out, ": ")?;
    put_quoted(out, line_at(lines, line))
}
