//! The report of a GOOSE control block.

ghost use Rattle.std.specs.Prelude.{◌≤◌, length};

use crate::entry::Entry;
use crate::talk::Talk;
use crate::words::{head_of, put_part, put_source, put_text};
use dfr_bus::{Ethernet, Goose, Kind, Span, read_datum, read_goose};
use std::alloc::Allocator;
use std::io;
use std::io::Write;

/// The name of a kind of element.
fn kind_name(kind: Kind) -> &'static str {
    match kind {
        Kind::Boolean => "boolean",
        Kind::Bits => "bits",
        Kind::Integer => "integer",
        Kind::Unsigned => "unsigned",
        Kind::Float => "float",
        Kind::Octets => "octets",
        Kind::Text => "text",
        Kind::BinaryTime => "time of day",
        Kind::MmsText => "MMS text",
        Kind::Time => "time",
        Kind::Array => "array",
        Kind::Structure => "structure",
    }
}

/// The kinds of the elements, in their order.
fn put_kinds<W: Write>(out: &mut W, bytes: &[u8], data: Span) -> io::Result<()> {
    let mut at = data.from;
    while at < data.to && data.to <= bytes.len() {
        match read_datum(bytes, at, data.to) {
            Ok(datum) => {
                let comma = if at == data.from { " " } else { ", " };
                write!(out, "{comma}{}", kind_name(datum.kind))?;
                at = datum.content.to;
            }
            Err(fault) => return writeln!(out, "; then a fault: {}", fault.wrong),
        }
    }
    writeln!(out, "")
}

/// The names and the dataset of a control block, from its first message.
fn put_names<W: Write>(
    out: &mut W,
    bytes: &[u8],
    frame: &Ethernet,
    goose: &Goose,
) -> io::Result<()> {
    put_source(out, bytes, frame, goose.app_id, goose.reserved_1)?;
    write!(out, "#   dataset ")?;
    put_part(out, bytes, goose.dat_set)?;
    write!(out, ", goID ")?;
    match goose.go_id {
        Some(span) => put_part(out, bytes, span)?,
        None => write!(out, "not sent")?,
    }
    writeln!(out, ", revision {}", goose.conf_rev)?;
    write!(out, "#   elements: {}:", goose.entries)?;
    put_kinds(out, bytes, goose.all_data)
}

/// The counts of a control block.
fn put_counts<W: Write>(out: &mut W, talk: &Talk) -> io::Result<()> {
    writeln!(
        out,
        "#   messages: {}; lost {}, repeated {}, from before {}",
        talk.messages, talk.lost, talk.repeated, talk.back
    )?;
    writeln!(
        out,
        "#   state changes: {}; lost {}; the last message has stNum {} sqNum {}",
        talk.states, talk.lost_states, talk.newest.state, talk.newest.number
    )?;
    writeln!(
        out,
        "#   time to live: {} ms in the last message, exceeded {} times",
        talk.newest.live, talk.expired
    )?;
    writeln!(
        out,
        "#   test {}, needs commissioning {} messages",
        talk.tests, talk.commissioning
    )?;
    if talk.changed > 0 {
        writeln!(
            out,
            "#   messages that differ from the first in elements or revision: {}",
            talk.changed
        )?;
    }
    Ok(())
}

/// The first message of a control block.
pub(crate) fn message_in(bytes: &[u8]) -> Option<(Ethernet, Goose)> {
    let frame = head_of(bytes)?;
    match read_goose(bytes, frame.payload.from, frame.payload.to) {
        Ok(goose) => Some((frame, goose)),
        Err(_) => None,
    }
}

/// A control block, with its number.
pub(crate) fn put_block<A: Allocator, W: Write>(
    out: &mut W,
    number: usize,
    entry: &Entry<Talk, A>,
) -> io::Result<()> {
    let talk = entry.content();
    write!(out, "# control block {number}: ")?;
    put_text(out, entry.name())?;
    writeln!(out, "")?;
    if let Some((frame, goose)) = message_in(entry.frame()) {
        put_names(out, entry.frame(), &frame, &goose)?;
    }
    put_counts(out, &talk)
}
