//! Why a record has no fault.

use crate::cycles::{MeasureFault, Window, spans_of};
use crate::faults::known::Source;
use crate::faults::members::OtherMembers;
use crate::faults::missing::{are_blind, names_of_lacking};
use comtrade_fault::places_in;
use comtrade_values::Memory;
use std::alloc::Allocator;

/// The fewest rows of a cycle in which a fault is looked for.
const LEAST: u128 = 8;

const NO_CURRENTS: &str =
    "not examined: it has no three currents of phases A, B and C with one unit and component";

const TOO_SHORT: &str = "not examined: no rate has three whole cycles";

const QUIET: &str = "no current departs from its waveform";

/// Whether a rate has the three cycles in which a fault is looked for.
fn is_long(span: &Window) -> bool {
    3 <= span.cycles
}

/// Why faults cannot be looked for; None where they can.
fn hindrance_of<A: Allocator + Copy>(source: &Source<'_, A>) -> Result<Option<String>, Memory> {
    let alloc = source.alloc;
    let file = source.file;
    if places_in(source.lists, file.head.analog.items())?.is_empty() {
        return Ok(Some(String::from_str(alloc, NO_CURRENTS)?));
    }
    let spans = match spans_of(source.lists, file, LEAST) {
        Ok(spans) => spans,
        Err(MeasureFault::Memory(_)) => return Err(Memory),
        Err(fault) => return Ok(Some(format!(in alloc; "not examined: {fault}")?)),
    };
    if spans.iter().any(is_long) {
        return Ok(None);
    }
    Ok(Some(String::from_str(alloc, TOO_SHORT)?))
}

/// That nothing was found, and of which currents samples are missing.
fn quiet_text<A: Allocator + Copy>(source: &Source<'_, A>) -> Result<String, Memory> {
    let alloc = source.alloc;
    let file = source.file;
    let places = places_in(source.lists, file.head.analog.items())?;
    let names = names_of_lacking(source, &places)?;
    let names = names.as_str();
    if names.is_empty() {
        return Ok(String::from_str(alloc, QUIET)?);
    }
    if are_blind(file, &places) {
        return Ok(format!(in alloc; "not examined: samples of {names} are missing")?);
    }
    Ok(format!(in alloc; "{QUIET}, as far as examined: samples of {names} are missing")?)
}

/// What happened in place of a fault: the first such disturbance, and how many there are.
fn others_text<A: Allocator + Copy>(
    source: &Source<'_, A>,
    others: &[OtherMembers],
) -> Result<String, Memory> {
    let [first, rest @ ..] = others else {
        return quiet_text(source);
    };
    let alloc = source.alloc;
    let what = first.what.as_str();
    let doubt = if first.doubtful { ", doubtful" } else { "" };
    let row = first.row;
    let more = rest.len();
    Ok(match first.ms {
        Some(ms) if more == 0 => format!(in alloc; "{what} (at {ms} ms{doubt})")?,
        Some(ms) => format!(in alloc; "{what} (at {ms} ms{doubt}, and {more} more)")?,
        None => format!(in alloc; "{what} (row {row}{doubt})")?,
    })
}

/// Why a record has no fault.
pub(crate) fn reason_of<A: Allocator + Copy>(
    source: &Source<'_, A>,
    others: &[OtherMembers],
) -> Result<String, Memory> {
    match hindrance_of(source)? {
        Some(text) => Ok(text),
        None => others_text(source, others),
    }
}
