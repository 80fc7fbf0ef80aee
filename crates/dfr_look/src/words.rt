//! Parts of a report.

ghost use Rattle.std.specs.Prelude.{◌≡◌, ◌≤◌, length, IfSome};

use dfr_bus::{Ethernet, Span, read_ethernet};
use std::io;
use std::io::Write;

/// A text from a frame: printable characters as they are, others as `\x` and two digits.
pub(crate) fn put_text<W: Write>(out: &mut W, text: &[u8]) -> io::Result<()> {
    if text.is_empty() {
        return write!(out, "(no name)");
    }
    for byte in text {
        if (0x20..0x7F).contains(byte) && *byte != b'\\' {
            write!(out, "{}", char::from(*byte))?;
        } else {
            write!(out, "\\x{byte:02x}")?;
        }
    }
    Ok(())
}

/// A text at a part of a frame.
pub(crate) fn put_part<W: Write>(out: &mut W, bytes: &[u8], span: Span) -> io::Result<()> {
    match span.of(bytes) {
        Some(text) => put_text(out, text),
        None => Ok(()),
    }
}

/// An address.
fn put_address<W: Write>(out: &mut W, bytes: &[u8], span: Span) -> io::Result<()> {
    if let Some(address) = span.of(bytes) {
        for (i, byte) in address.iter().enumerate() {
            if i > 0 {
                write!(out, ":")?;
            }
            write!(out, "{byte:02x}")?;
        }
    }
    Ok(())
}

/// The number of a VLAN and its priority.
fn put_vlan<W: Write>(out: &mut W, tag: Option<u16>) -> io::Result<()> {
    match tag {
        None => Ok(()),
        Some(tag) => write!(out, ", VLAN {} priority {}", tag % 4096, tag / 8192),
    }
}

/// The application, the addresses and the VLANs of a frame.
pub(crate) fn put_source<W: Write>(
    out: &mut W,
    bytes: &[u8],
    frame: &Ethernet,
    app_id: u16,
    reserved_1: u16,
) -> io::Result<()> {
    write!(out, "#   APPID 0x{app_id:04x}, from ")?;
    put_address(out, bytes, frame.source)?;
    write!(out, " to ")?;
    put_address(out, bytes, frame.destination)?;
    put_vlan(out, frame.outer)?;
    put_vlan(out, frame.inner)?;
    if reserved_1 >= 0x8000 {
        write!(out, ", simulated")?;
    }
    writeln!(out, "")
}

/// The head of a frame, if it has one.
pub(crate) fn head_of(bytes: &[u8]) -> Option<Ethernet>
    ensures { IfSome result (λ f. (f.payload.from ≤ f.payload.to) × (f.payload.to ≡ length bytes.now)) }
{
    match read_ethernet(bytes, 0, bytes.len()) {
        Ok(frame) => Some(frame),
        Err(_) => None,
    }
}
