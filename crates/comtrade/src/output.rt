//! Where the output goes: standard output, or a new file.

use crate::folder::Pairs;
use crate::print_bytes;
use crate::write::write_new;
use std::rt::Files;

/// The file that is written in place of standard output, if one is named; `-` is standard output.
pub(crate) fn named_file(output: Option<&str>) -> Option<&str> {
    match output {
        Some("-") => None,
        _ => output,
    }
}

/// Prints bytes, or writes them to the file that is named, which must not exist yet. What fails is
/// printed.
pub(crate) fn put_out<R: Files + Print + Eprint + AllocGlobal>(
    rt: &R,
    output: Option<&str>,
    bytes: &[u8],
) -> u8 {
    match named_file(output) {
        Some(name) if write_new(rt, name, bytes) => 0,
        Some(_) => 1,
        None => print_bytes(rt, bytes),
    }
}

/// Whether names mean a record at all, and all folders were read. Else the status is 1, for each
/// command over many records: a script can tell that there was nothing.
pub(crate) fn has_records(pairs: &Pairs) -> bool {
    pairs.is_whole && !pairs.is_empty()
}

/// What was found in many records.
#[derive(Drop)]
pub(crate) struct Findings {
    pub(crate) text: Vec<u8>,
    /// Whether no record has an error.
    pub(crate) is_sound: bool,
    /// Whether a record was read, or the text is on those that cannot be.
    pub(crate) has_read: bool,
}

/// Prints findings, or writes them to the file that is named, unless no record could be read. The
/// status is 1 if one has an error.
pub(crate) fn put_findings<R: Files + Print + Eprint + AllocGlobal>(
    rt: &R,
    output: Option<&str>,
    findings: &Findings,
) -> u8 {
    if !findings.is_sound && !findings.has_read && named_file(output).is_some() {
        return 1;
    }
    let status = put_out(rt, output, &findings.text);
    if findings.is_sound { status } else { 1 }
}
