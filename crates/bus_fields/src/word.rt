//! Fields as words: a space, a name, `=`, and the field, or `-` where it was left out.

use dfr_bus::Span;
use std::io;
use std::io::Write;

/// A number that may be left out.
pub fn number<W: Write>(out: &mut W, name: &str, it: Option<u16>) -> io::Result<()> {
    match it {
        Some(it) => write!(out, " {name}={it}"),
        None => write!(out, " {name}=-"),
    }
}

/// Bytes, two digits each.
pub fn bytes<W: Write>(out: &mut W, name: &str, all: &[u8], span: Span) -> io::Result<()> {
    write!(out, " {name}=")?;
    match span.of(all) {
        Some(part) => {
            for byte in part {
                write!(out, "{byte:02x}")?;
            }
            Ok(())
        }
        None => write!(out, "?"),
    }
}

/// Bytes that may be left out.
pub fn optional<W: Write>(
    out: &mut W,
    name: &str,
    all: &[u8],
    span: Option<Span>,
) -> io::Result<()> {
    match span {
        Some(span) => bytes(out, name, all, span),
        None => write!(out, " {name}=-"),
    }
}
