//! Records that are opened one after the other, and why one cannot be read.

use crate::load::{Inputs, read_or_why};
use crate::say;
use comtrade_io::{Names, ToolFault, put_safe};
use comtrade_values::{lines_of, put, without_blank_end};
use std::alloc::{AllocError, Global};
use std::rt::Files;

/// What came of opening a record.
#[derive(Drop)]
pub(crate) enum Opened {
    Inputs(Inputs),
    /// Its files cannot be read, for this reason: a line.
    Unread(Vec<u8>),
}

/// Reads the files of a record, by one of their names.
pub(crate) fn open_record<R: Files + Input + AllocGlobal + Clone + Drop>(
    rt: &R,
    file: &str,
    is_strict: bool,
) -> Result<Opened, AllocError> {
    let mut said = Vec::new(rt.alloc());
    let names = Names { file, dat: None };
    match read_or_why(rt, names, is_strict, &mut said) {
        Ok(Some(inputs)) => return Ok(Opened::Inputs(inputs)),
        Ok(None) => {}
        Err(_) => put(&mut said, "comtrade: out of memory\n")?,
    }
    Ok(Opened::Unread(said))
}

/// A line without the name of the program in front.
pub(crate) fn without_program(line: &[u8]) -> &[u8] {
    match line.strip_prefix(b"comtrade: ") {
        Some(rest) => rest,
        None => line,
    }
}

/// The line on a record that cannot be read: its name, and the reason, which may begin with it.
pub(crate) fn line_on(alloc: Global, name: &[u8], said: &[u8]) -> Result<Vec<u8>, AllocError> {
    let mut line = Vec::new(alloc);
    let why = without_program(said);
    put_safe(&mut line, name)?;
    if why.starts_with(&line) {
        line.clear();
    } else {
        put(&mut line, ": ")?;
    }
    line.extend_from_slice(why)?;
    Ok(line)
}

/// The line on a file whose name is not UTF-8, which is given as printable characters.
pub(crate) fn odd_line(alloc: Global, name: &[u8]) -> Result<Vec<u8>, AllocError> {
    let mut line = Vec::from_slice(alloc, name)?;
    put(
        &mut line,
        ": cannot be opened, because its name is not valid UTF-8\n",
    )?;
    Ok(line)
}

/// Prints the repairs of a record: lines, each after its name.
pub(crate) fn say_repairs<R: Eprint + AllocGlobal>(
    rt: &R,
    name: &str,
    lines: &[u8],
) -> Result<(), ToolFault> {
    let mut text = Vec::new(rt.alloc());
    let lines = lines_of(rt.alloc(), lines)?;
    for line in without_blank_end(&lines) {
        put_safe(&mut text, name.as_bytes())?;
        put(&mut text, ": ")?;
        put_safe(&mut text, line)?;
        put(&mut text, "\n")?;
    }
    say(rt, &text);
    Ok(())
}
