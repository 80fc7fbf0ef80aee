//! Files of events, as `dfrd` writes them.

use crate::{LIMIT, complain, say};
use comtrade_io::{ToolFault, fault_of, put_safe, read_up_to};
use comtrade_values::{put, put_number};
use comtrade_views::EVENT_HEAD;
use std::alloc::{AllocError, Global};
use std::fs::{self, File};
use std::io::Read;
use std::rt::Files;

/// Whether an open file begins with the first line of a file of events.
fn has_head(file: &mut impl Read) -> bool {
    let head = EVENT_HEAD.as_bytes();
    let mut first = [0u8; 80];
    let is_read = match first.get_mut(..head.len()) {
        Some(start) => file.read_exact(start).is_ok(),
        None => false,
    };
    is_read && first.get(..head.len()) == Some(head)
}

/// What a name among records stands for.
#[derive(Drop)]
pub(crate) enum Named {
    /// A file of events, with these bytes.
    Events(Vec<u8>),
    /// A file of events that can't be read, or a `.csv` that is not one; the reason is printed.
    Unusable,
    /// Something else: a record, or nothing.
    Other,
}

/// Prints that a `.csv` is not a file of events.
fn refuse<R: Eprint + AllocGlobal>(rt: &R, name: &str) -> Result<(), AllocError> {
    let mut text = Vec::new(rt.alloc());
    put(&mut text, "comtrade: ")?;
    put_safe(&mut text, name.as_bytes())?;
    put(
        &mut text,
        ": is not a file of events: its first line is not \"",
    )?;
    put(&mut text, EVENT_HEAD)?;
    put(&mut text, "\"\n")?;
    say(rt, &text);
    Ok(())
}

/// Whether a name is that of a plain file, which has the same bytes when it is opened again. A pipe
/// hasn't.
fn is_plain<R: Files>(rt: &R, name: &str) -> bool {
    match fs::metadata(rt, name) {
        Ok(data) => data.is_file(),
        Err(_) => false,
    }
}

/// What this name stands for.
pub(crate) fn event_file_named<R: Files + Eprint + AllocGlobal>(
    rt: &R,
    name: &str,
) -> Result<Named, AllocError> {
    if name == "-" || !is_plain(rt, name) {
        return Ok(Named::Other);
    }
    let Ok(mut file) = File::open(rt, name) else {
        return Ok(Named::Other);
    };
    if !has_head(&mut file) {
        if !name.ends_with(".csv") {
            return Ok(Named::Other);
        }
        refuse(rt, name)?;
        return Ok(Named::Unusable);
    }
    match File::open(rt, name) {
        Ok(mut file) => match read_up_to(rt.alloc(), &mut file, LIMIT) {
            Ok(bytes) => Ok(Named::Events(bytes)),
            Err(fault) => {
                complain(rt, name, fault);
                Ok(Named::Unusable)
            }
        },
        Err(error) => {
            complain(rt, name, fault_of(error.kind(), ToolFault::Input));
            Ok(Named::Unusable)
        }
    }
}

/// That a line, counted from 0, is no line of a file of events.
pub(crate) fn broken_line(alloc: Global, name: &str, line: usize) -> Result<Vec<u8>, AllocError> {
    let mut text = Vec::new(alloc);
    put(&mut text, "comtrade: ")?;
    put_safe(&mut text, name.as_bytes())?;
    put(&mut text, ": line ")?;
    put_number(&mut text, line as u128 + 1)?;
    put(&mut text, " is not a line of a file of events\n")?;
    Ok(text)
}
