//! The file of the line on which faults are located.

use crate::{complain, message_on, out_of_memory, read_named, say};
use comtrade_distance::{LineData, LineFault, line_of};
use comtrade_io::put_safe;
use comtrade_values::put;
use std::alloc::{AllocError, Global};
use std::rt::Files;

/// The most bytes of the file.
const MOST: usize = 65_536;

const LONG: &[u8] = b"is longer than 65536 bytes; expected the file of a line";

const NO_TEXT: &[u8] = b"is not UTF-8; expected TOML";

/// Why a file tells no line, after its name. A message of several lines becomes one.
fn complaint(alloc: Global, name: &str, why: &[u8]) -> Result<Vec<u8>, AllocError> {
    let mut said = message_on(alloc, "comtrade: ", name.as_bytes(), "")?;
    for line in why.trim_ascii_end().split(|byte| *byte == b'\n') {
        put(&mut said, ": ")?;
        put_safe(&mut said, line)?;
    }
    put(&mut said, "\n")?;
    Ok(said)
}

/// Prints why a file tells no line.
fn complain_of<R: Eprint + AllocGlobal>(rt: &R, name: &str, why: &[u8]) {
    match complaint(rt.alloc(), name, why) {
        Ok(said) => say(rt, &said),
        Err(_) => {
            out_of_memory(rt);
        }
    }
}

/// The line that bytes tell; None if they tell none, and why is printed.
fn line_told<R: Eprint + AllocGlobal>(rt: &R, name: &str, bytes: &[u8]) -> Option<LineData> {
    if MOST < bytes.len() {
        complain_of(rt, name, LONG);
        return None;
    }
    let Ok(text) = str::from_utf8(bytes) else {
        complain_of(rt, name, NO_TEXT);
        return None;
    };
    match line_of(rt.alloc(), text) {
        Ok(line) => Some(line),
        Err(LineFault::Memory) => {
            out_of_memory(rt);
            None
        }
        Err(fault) => {
            match format!(in rt.alloc(); "{fault}") {
                Ok(why) => complain_of(rt, name, why.as_str().as_bytes()),
                Err(_) => {
                    out_of_memory(rt);
                }
            }
            None
        }
    }
}

/// The line of the file with this name; None if it tells none, and why is printed.
pub(crate) fn line_named<R: Files + Input + Eprint + AllocGlobal>(
    rt: &R,
    name: &str,
) -> Option<LineData> {
    match read_named(rt, name) {
        Ok(bytes) => line_told(rt, name, &bytes),
        Err(fault) => {
            complain(rt, name, fault);
            None
        }
    }
}
