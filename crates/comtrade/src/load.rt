//! Reads the files of the record that the arguments name.

use crate::container::{
    Contained, ContainerFault, decompressed, is_archive, is_compressed, record_in, unpacked,
};
use crate::ending::{Ending, stem_of};
use crate::find::{Pairing, pairing_or_why};
use crate::{LIMIT, out_of_memory, read_named, say};
use comtrade_diagnostics::{ImportFault, Note, Pair, Refusal};
use comtrade_io::{Names, ToolFault, put_safe};
use comtrade_values::put;
use std::alloc::{AllocError, Allocator, Global};
use std::rt::Files;

/// The names of a record's files and their bytes; a single file has no separate data.
#[derive(Drop)]
pub(crate) struct Inputs {
    names: Pairing,
    pub(crate) cfg: Vec<u8>,
    pub(crate) dat: Vec<u8>,
}

impl Inputs {
    /// Whether the record is a single file.
    pub(crate) fn is_single(&self) -> bool {
        self.names.dat.is_none()
    }
}

/// The name of a file in messages.
fn shown(name: &str) -> &str {
    if name == "-" { "standard input" } else { name }
}

/// The name of the record in messages.
pub(crate) fn name_of(inputs: &Inputs) -> &str {
    shown(inputs.names.cfg.as_str())
}

pub(crate) fn pair_of(inputs: &Inputs) -> Pair<'_> {
    let dat_name = match &inputs.names.dat {
        Some(name) => shown(name.as_str()),
        None => name_of(inputs),
    };
    Pair {
        cfg_name: name_of(inputs).as_bytes(),
        cfg: &inputs.cfg,
        dat_name: dat_name.as_bytes(),
        dat: &inputs.dat,
    }
}

/// Adds why a file cannot be read, as a line with its name.
pub(crate) fn put_complaint(
    said: &mut Vec<u8>,
    name: &str,
    fault: ToolFault,
) -> Result<(), AllocError> {
    if let ToolFault::Memory = fault {
        return Err(AllocError);
    }
    let text = format!(in *said.allocator(); "{fault}")?;
    put(said, "comtrade: ")?;
    put_safe(said, name.as_bytes())?;
    put(said, ": ")?;
    put(said, text.as_str())?;
    put(said, "\n")
}

/// What came out of an archive or a compressed file; None if nothing did, with the reason in `said`.
fn taken<T: Drop>(
    found: Result<T, ContainerFault>,
    said: &mut Vec<u8>,
) -> Result<Option<T>, AllocError> {
    match found {
        Ok(found) => Ok(Some(found)),
        Err(ContainerFault::Said(lines)) => {
            said.extend_from_slice(&lines)?;
            Ok(None)
        }
        Err(ContainerFault::Memory) => Err(AllocError),
    }
}

/// Reads a file, decompressed if its name ends in `.gz`; None if that fails, with the reason in
/// `said`.
fn read_input<R: Files + Input + AllocGlobal>(
    rt: &R,
    name: &str,
    said: &mut Vec<u8>,
) -> Result<Option<Vec<u8>>, AllocError> {
    match read_named(rt, name) {
        Ok(bytes) => taken(unpacked(rt.alloc(), shown(name), bytes, LIMIT), said),
        Err(fault) => {
            put_complaint(said, shown(name), fault)?;
            Ok(None)
        }
    }
}

/// The record in an archive; None if there is none, with the reason in `said`.
fn archived(
    alloc: Global,
    name: &str,
    bytes: &[u8],
    said: &mut Vec<u8>,
) -> Result<Option<Inputs>, AllocError> {
    match taken(record_in(alloc, name, bytes, LIMIT), said)? {
        Some(Contained { names, cfg, dat }) => Ok(Some(Inputs { names, cfg, dat })),
        None => Ok(None),
    }
}

/// The record in a file that is a whole one: an archive, or a single file, maybe compressed.
fn whole_record(
    alloc: Global,
    names: Pairing,
    bytes: Vec<u8>,
    said: &mut Vec<u8>,
) -> Result<Option<Inputs>, AllocError> {
    let name = shown(names.cfg.as_str());
    let is_named_so = stem_of(name).0.is_some_and(Ending::is_archive);
    if is_named_so || is_archive(&bytes) {
        return archived(alloc, name, &bytes, said);
    }
    let cfg = if is_compressed(&bytes) {
        match taken(decompressed(alloc, name, &bytes, LIMIT), said)? {
            Some(cfg) => cfg,
            None => return Ok(None),
        }
    } else {
        bytes
    };
    let dat = Vec::new(alloc);
    Ok(Some(Inputs { names, cfg, dat }))
}

/// The files of a record that have these names; None if one cannot be read, with the reason in
/// `said`.
fn inputs_or_why<R: Files + Input + AllocGlobal>(
    rt: &R,
    names: Pairing,
    said: &mut Vec<u8>,
) -> Result<Option<Inputs>, AllocError> {
    let Some(cfg) = read_input(rt, names.cfg.as_str(), said)? else {
        return Ok(None);
    };
    let dat = match &names.dat {
        Some(name) => read_input(rt, name.as_str(), said)?,
        None => return whole_record(rt.alloc(), names, cfg, said),
    };
    match dat {
        Some(dat) => Ok(Some(Inputs { names, cfg, dat })),
        None => Ok(None),
    }
}

/// Reads the files of a record; None if that fails, with the reason in `said`.
pub(crate) fn read_or_why<R: Files + Input + AllocGlobal + Clone + Drop>(
    rt: &R,
    names: Names<'_>,
    is_strict: bool,
    said: &mut Vec<u8>,
) -> Result<Option<Inputs>, AllocError> {
    match pairing_or_why(rt, names, said)? {
        Some(names) => record_or_why(rt, names, is_strict, said),
        None => Ok(None),
    }
}

/// Prints why there is nothing; None if there is nothing.
pub(crate) fn or_say<R: Eprint, T: Drop>(
    rt: &R,
    found: Result<Option<T>, AllocError>,
    said: &[u8],
) -> Option<T> {
    match found {
        Ok(found) => {
            say(rt, said);
            found
        }
        Err(_) => {
            out_of_memory(rt);
            None
        }
    }
}

/// Reads the files of a record; None if that fails, which is printed.
pub(crate) fn read_inputs<R: Files + Input + Eprint + AllocGlobal + Clone + Drop>(
    rt: &R,
    names: Names<'_>,
) -> Option<Inputs> {
    read_record(rt, names, false)
}

/// The repairs, one line each.
pub(crate) fn put_notes<A: Allocator + Copy>(
    out: &mut Vec<u8, A>,
    notes: &[Note<A>],
) -> Result<(), AllocError> {
    for note in notes {
        note.put_line(out)?;
        put(out, "\n")?;
    }
    Ok(())
}

/// The texts around the name and the reason in a line on files that cannot be imported.
pub(crate) const REFUSED: (&str, &str, &str) = ("comtrade: ", ": ", "\n");

/// Why files cannot be imported, as a line with these texts.
pub(crate) fn put_import_fault<A: Allocator + Copy>(
    out: &mut Vec<u8, A>,
    (before, between, after): (&str, &str, &str),
    name: &[u8],
    fault: Refusal,
) -> Result<(), AllocError> {
    let text = format!(in *out.allocator(); "{fault}")?;
    put(out, before)?;
    put_safe(out, name)?;
    put(out, between)?;
    put_safe(out, text.as_str().as_bytes())?;
    put(out, after)
}

/// Why files cannot be imported, unless that is a failed allocation.
pub(crate) fn import_refusal(
    alloc: Global,
    name: &str,
    fault: Refusal,
) -> Result<Vec<u8>, AllocError> {
    if let Refusal::Fault(ImportFault::Memory) = fault {
        return Err(AllocError);
    }
    let mut said = Vec::new(alloc);
    put_import_fault(&mut said, REFUSED, name.as_bytes(), fault)?;
    Ok(said)
}

/// Reads the files of a record that is shown or converted. None if that fails, or if a single file
/// is read strictly, which is printed.
pub(crate) fn read_record<R: Files + Input + Eprint + AllocGlobal + Clone + Drop>(
    rt: &R,
    names: Names<'_>,
    is_strict: bool,
) -> Option<Inputs> {
    let mut said = Vec::new(rt.alloc());
    let found = read_or_why(rt, names, is_strict, &mut said);
    or_say(rt, found, &said)
}

/// The record whose files have these names; None if they cannot be read, or if a single file is read
/// strictly, with the reason in `said`.
fn record_or_why<R: Files + Input + AllocGlobal>(
    rt: &R,
    names: Pairing,
    is_strict: bool,
    said: &mut Vec<u8>,
) -> Result<Option<Inputs>, AllocError> {
    let Some(inputs) = inputs_or_why(rt, names, said)? else {
        return Ok(None);
    };
    if is_strict && inputs.is_single() {
        put_complaint(said, name_of(&inputs), ToolFault::Single)?;
        return Ok(None);
    }
    Ok(Some(inputs))
}

/// The same, with the reason printed.
pub(crate) fn record_of<R: Files + Input + Eprint + AllocGlobal>(
    rt: &R,
    names: Pairing,
    is_strict: bool,
) -> Option<Inputs> {
    let mut said = Vec::new(rt.alloc());
    let found = record_or_why(rt, names, is_strict, &mut said);
    or_say(rt, found, &said)
}
