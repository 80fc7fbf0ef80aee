//! Hints on files that the exact reader refuses: what they are, and whether `import` reads them.

ghost use Rattle.std.specs.Prelude.{◌≡◌, OnErr, OnOk};
ghost use Rattle.comtrade_diagnostics.specs.Puts.{PutsLine};

use crate::check::Pair;
use crate::importing::{Repaired, repaired_pair};
use crate::line::put_line;
use crate::silent::Refusal;
use crate::single::repaired_single;
use comtrade_dialects::{Choices, ImportFault, Key, Note, narrow};
use comtrade_io::put_safe;
use comtrade_read::{Fault, Part, ReadFault};
use comtrade_values::put;
use std::alloc::{AllocError, Allocator};

/// The nature of a file, given a repair that it needs.
fn nature_of(key: Key) -> Option<&'static str> {
    match key {
        Key::Revision1991 => Some("a file of 1991"),
        Key::Revision2013 => Some("a file of 2013"),
        Key::KindBinary32 => Some("BINARY32 data"),
        Key::KindFloat32 => Some("FLOAT32 data"),
        _ => None,
    }
}

/// Whether a text is UTF-16, as `import` decides by its first four bytes.
fn is_utf16<A: Allocator>(alloc: A, text: &[u8]) -> Result<bool, AllocError> {
    let first = text.get(..4).unwrap_or(text); // a shorter text is all of them
    Ok(narrow(alloc, first)?.is_some())
}

/// The nature of a text, given its line ends; None for ordinary text.
fn nature_of_lines(text: &[u8]) -> Option<&'static str> {
    let mut before = (0u8, 0u8);
    for b in text {
        if *b == b'\n' && before == (b'\r', b'\r') {
            return Some("lines ending in CR CR LF");
        }
        before = (before.1, *b);
    }
    None
}

/// Appends an item of a list.
fn put_piece<A: Allocator>(
    out: &mut Vec<u8, A>,
    is_first: &mut bool,
    text: &str,
) -> Result<(), AllocError> {
    if !*is_first {
        put(out, ", ")?;
    }
    *is_first = false;
    put(out, text)
}

/// Appends what the files are, given their text and their repairs. Returns whether it
/// appended anything.
fn put_natures<A: Allocator>(
    out: &mut Vec<u8, A>,
    text: Option<&str>,
    notes: &[Note<A>],
) -> Result<bool, AllocError> {
    let mut is_first = true;
    if let Some(nature) = text {
        put_piece(out, &mut is_first, nature)?;
    }
    for note in notes {
        if let Some(nature) = nature_of(note.key()) {
            put_piece(out, &mut is_first, nature)?;
        }
    }
    Ok(!is_first)
}

/// Appends that `import` reads the files, with the keys of its repairs.
fn put_reads<A: Allocator>(out: &mut Vec<u8, A>, notes: &[Note<A>]) -> Result<(), AllocError> {
    put(out, "`comtrade import` reads it")?;
    if notes.is_empty() {
        return Ok(());
    }
    put(out, " (")?;
    let mut is_first = true;
    for note in notes {
        put_piece(out, &mut is_first, note.key().name())?;
    }
    put(out, ")")
}

/// Whether an error is in the first line, where files of other editions are refused.
fn is_of_edition(part: Part, fault: ReadFault) -> bool {
    part == Part::Cfg && matches!(fault, ReadFault::Revision | ReadFault::Fields(1))
}

/// What stops `import`, where it is not what stopped the exact reader: its error is one of another
/// edition, and `import` reads the first line.
fn other_obstacle(found: Fault, fault: Refusal) -> Option<Refusal> {
    match fault {
        Refusal::Fault(ImportFault::Cfg(1, _)) => None,
        _ if is_of_edition(found.part, found.fault) => Some(fault),
        _ => None,
    }
}

/// Appends a line on a pair that the exact reader refuses for this error, if it can be repaired, if
/// its text is unusual, or if another error stops `import`.
pub fn put_hint<A: Allocator + Copy>(
    alloc: A,
    out: &mut Vec<u8, A>,
    pair: Pair<'_>,
    found: Fault,
) -> Result<(), AllocError> {
    let text = if is_utf16(alloc, pair.cfg)? {
        Some("UTF-16")
    } else {
        nature_of_lines(pair.cfg)
    };
    match repaired_pair(alloc, pair.cfg, pair.dat, Choices::default()) {
        Ok(repaired) => {
            put_safe(out, pair.cfg_name)?;
            put(out, ": ")?;
            if put_natures(out, text, &repaired.notes)? {
                put(out, "; ")?;
            }
            put_reads(out, &repaired.notes)?;
            put(out, "\n")
        }
        Err(Refusal::Fault(ImportFault::Memory)) => Err(AllocError),
        Err(fault) => put_obstacle(alloc, out, pair, text, other_obstacle(found, fault)),
    }
}

/// Appends a line on a pair that `import` cannot read: what its text is, and why.
fn put_obstacle<A: Allocator + Copy>(
    alloc: A,
    out: &mut Vec<u8, A>,
    pair: Pair<'_>,
    text: Option<&str>,
    fault: Option<Refusal>,
) -> Result<(), AllocError> {
    if text.is_none() && fault.is_none() {
        return Ok(());
    }
    put_safe(out, pair.cfg_name)?;
    put(out, ": ")?;
    if let Some(nature) = text {
        put(out, nature)?;
    }
    if let Some(fault) = fault {
        put(out, if text.is_some() { "; " } else { "" })?;
        put_unread(alloc, out, fault)?;
    }
    put(out, "\n")
}

/// Appends why `import` cannot read the files.
fn put_unread<A: Allocator + Copy>(
    alloc: A,
    out: &mut Vec<u8, A>,
    fault: Refusal,
) -> Result<(), AllocError> {
    let text = format!(in alloc; "{fault}")?;
    put(out, "`comtrade import` cannot read it: ")?;
    put_safe(out, text.as_str().as_bytes())
}

/// Appends what a single file is, and that `import` reads it or why it cannot.
fn put_single_words<A: Allocator + Copy>(
    alloc: A,
    out: &mut Vec<u8, A>,
    pair: Pair<'_>,
) -> Result<(), AllocError> {
    put_safe(out, pair.cfg_name)?;
    put(out, ": a single file; ")?;
    match repaired_single(alloc, pair.cfg, Choices::default()) {
        Ok(Repaired { notes, .. }) => put_reads(out, &notes),
        Err(Refusal::Fault(ImportFault::Memory)) => Err(AllocError),
        Err(fault) => put_unread(alloc, out, fault),
    }
}

/// Appends a line on a single file: what it is, and that `import` reads it or why it cannot.
pub fn put_single<A: Allocator + Copy>(
    alloc: A,
    out: &mut Vec<u8, A>,
    pair: Pair<'_>,
) -> Result<(), AllocError>
    ensures line { OnOk result (PutsLine out.old.items out.new.items) }
    ensures kept { OnErr result (out.new.items ≡ out.old.items) }
{
    let mut line = Vec::new(alloc);
    put_single_words(alloc, &mut line, pair)?;
    put_line(out, &mut line)
}
