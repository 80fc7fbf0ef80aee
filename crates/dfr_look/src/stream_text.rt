//! The report of a stream of sampled values.

use crate::entry::Entry;
use crate::flow::Flow;
use crate::words::{head_of, put_part, put_source, put_text};
use dfr_bus::{Asdu, Ethernet, read_sampled_values};
use std::alloc::Allocator;
use std::io;
use std::io::Write;

/// The rate by its sample counts, if a second ended.
pub(crate) fn rate_of(flow: &Flow) -> Option<u32> {
    if flow.track.tops() == 0 {
        return None;
    }
    Some(u32::from(flow.track.high()) + 1)
}

/// What the units declare of the rate.
fn put_declared<W: Write>(out: &mut W, flow: &Flow) -> io::Result<()> {
    let Some(rate) = flow.first.rate else {
        return write!(out, "smpRate is not sent");
    };
    match flow.first.modulus {
        Some(1) => write!(out, "smpRate {rate} per second"),
        Some(2) => write!(out, "smpRate: {rate} seconds per sample"),
        Some(0) => write!(out, "smpRate {rate} per period"),
        _ => write!(out, "smpRate {rate} (smpMod is not sent)"),
    }
}

/// The rate.
fn put_rate<W: Write>(out: &mut W, flow: &Flow) -> io::Result<()> {
    match rate_of(flow) {
        Some(rate) => write!(out, "#   rate: {rate} samples per second by smpCnt; ")?,
        None => write!(
            out,
            "#   rate: not seen, smpCnt did not begin anew (highest {}); ",
            flow.track.high()
        )?,
    }
    put_declared(out, flow)?;
    writeln!(out, "")
}

/// How the clock is synchronised.
fn put_synchs<W: Write>(out: &mut W, flow: &Flow) -> io::Result<()> {
    write!(out, "#   clock (smpSynch), units:")?;
    let all = [
        (flow.synchs.global, "global"),
        (flow.synchs.local, "local"),
        (flow.synchs.none, "not synchronised"),
        (flow.synchs.clock, "a numbered clock"),
    ];
    let mut is_first = true;
    for (units, name) in all {
        if units > 0 {
            let comma = if is_first { "" } else { "," };
            write!(out, "{comma} {name} {units}")?;
            is_first = false;
        }
    }
    writeln!(out, "")
}

/// The unit with this name.
fn named_unit<'a>(units: &'a [Asdu], bytes: &[u8], name: &[u8]) -> Option<&'a Asdu> {
    for unit in units {
        if let Some(text) = unit.sv_id.of(bytes)
            && text == name
        {
            return Some(unit);
        }
    }
    None
}

/// The names and the form of a stream, from its first frame.
fn put_names<W: Write>(
    out: &mut W,
    bytes: &[u8],
    frame: &Ethernet,
    name: &[u8],
    flow: &Flow,
) -> io::Result<()> {
    if frame.payload.from > frame.payload.to || frame.payload.to > bytes.len() {
        return Ok(());
    }
    let Ok(sampled) = read_sampled_values(bytes, frame.payload.from, frame.payload.to) else {
        return Ok(());
    };
    put_source(out, bytes, frame, sampled.app_id, sampled.reserved_1)?;
    let units = sampled.asdus();
    write!(out, "#   dataset ")?;
    match named_unit(units, bytes, name) {
        Some(unit) => match unit.dat_set {
            Some(span) => put_part(out, bytes, span)?,
            None => write!(out, "not sent")?,
        },
        None => write!(out, "not sent")?,
    }
    writeln!(
        out,
        ", revision {}, {} values, {} in a frame",
        flow.first.revision,
        flow.first.values,
        units.len()
    )
}

/// The counts of a stream.
fn put_counts<W: Write>(out: &mut W, flow: &Flow) -> io::Result<()> {
    let track = &flow.track;
    writeln!(
        out,
        "#   units: {}; lost {}, repeated {}, out of order {}",
        flow.units,
        track.lost(),
        track.repeated(),
        track.late()
    )?;
    if flow.changed > 0 {
        writeln!(
            out,
            "#   units that differ from the first in values, rate or revision: {}",
            flow.changed
        )?;
    }
    put_synchs(out, flow)?;
    if flow.bad == 0 {
        return writeln!(out, "#   quality: 0 in all units");
    }
    writeln!(
        out,
        "#   quality: not 0 in {} units, bits 0x{:08x}",
        flow.bad, flow.quality
    )
}

/// A stream, with its number.
pub(crate) fn put_stream<A: Allocator, W: Write>(
    out: &mut W,
    number: usize,
    entry: &Entry<Flow, A>,
) -> io::Result<()> {
    let flow = entry.content();
    write!(out, "# stream {number}: ")?;
    put_text(out, entry.name())?;
    writeln!(out, "")?;
    if let Some(frame) = head_of(entry.frame()) {
        put_names(out, entry.frame(), &frame, entry.name(), &flow)?;
    }
    put_rate(out, &flow)?;
    put_counts(out, &flow)
}
