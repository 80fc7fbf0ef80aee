//! Records in archives and compressed files.

ghost use Rattle.std.specs.Prelude.{◌≡◌, ◌≤◌, ◌⊎◌, length, IfOk};
ghost use Rattle.comtrade_inflate.specs.Gzip.{IsGzip};
ghost use Rattle.comtrade_inflate.specs.Zip.{IsContent};

use crate::ending::has_ending;
use crate::find::{Pairing, is_single_text};
use crate::message_on;
use comtrade_inflate::{Entry, InflateFault, content, entries, gunzip};
use comtrade_io::{ToolFault, put_safe};
use comtrade_values::put;
use std::alloc::{AllocError, Global};

/// What an archive begins with: the header of a file, or its end where it is empty.
const FILE: &[u8] = b"PK\x03\x04";

const EMPTY: &[u8] = b"PK\x05\x06";

const NO_DATA: &str = "the archive has no data file of the same name";

const MORE_DATA: &str = "the archive has several data files of the same name";

/// Whether these bytes are a zip archive.
pub(crate) fn is_archive(bytes: &[u8]) -> bool {
    bytes.starts_with(FILE) || bytes.starts_with(EMPTY)
}

/// A record out of an archive.
#[derive(Drop)]
pub(crate) struct Contained {
    pub(crate) names: Pairing,
    pub(crate) cfg: Vec<u8>,
    pub(crate) dat: Vec<u8>,
}

/// Why a record cannot be taken out of an archive.
#[derive(Drop)]
pub(crate) enum ContainerFault {
    /// The lines to be printed.
    Said(Vec<u8>),
    Memory,
}

impl From<AllocError> for ContainerFault {
    fn from(_error: AllocError) -> ContainerFault {
        ContainerFault::Memory
    }
}

/// Whether a name is that of a file which a system for files adds on its own.
fn is_aside(name: &[u8]) -> bool {
    name.starts_with(b"__MACOSX/")
}

/// The part of a name before its last four bytes.
fn stem_of(name: &[u8]) -> &[u8] {
    match name {
        [stem @ .., _, _, _, _] => stem,
        _ => name,
    }
}

/// The records in an archive: entries that are configuration files or single files.
fn records_in<'a>(alloc: Global, all: &[Entry<'a>]) -> Result<Vec<Entry<'a>>, AllocError> {
    let mut found = Vec::new(alloc);
    for entry in all {
        let is_record = has_ending(entry.name, b".cfg") || has_ending(entry.name, b".cff");
        if is_record && !is_aside(entry.name) {
            found.push(*entry)?;
        }
    }
    Ok(found)
}

/// The data files of a configuration file in an archive.
fn data_in<'a>(
    alloc: Global,
    all: &[Entry<'a>],
    cfg: Entry<'_>,
) -> Result<Vec<Entry<'a>>, AllocError> {
    let mut found = Vec::new(alloc);
    for entry in all {
        let is_data = has_ending(entry.name, b".dat");
        if is_data && stem_of(entry.name).eq_ignore_ascii_case(stem_of(cfg.name)) {
            found.push(*entry)?;
        }
    }
    Ok(found)
}

/// That an archive, of this name, cannot be read for a reason.
fn refusal(alloc: Global, name: &str, reason: &str) -> ContainerFault {
    let mut said = match message_on(alloc, "comtrade: ", name.as_bytes(), ": ") {
        Ok(said) => said,
        Err(_) => return ContainerFault::Memory,
    };
    match put(&mut said, reason).and_then(|_| put(&mut said, "\n")) {
        Ok(()) => ContainerFault::Said(said),
        Err(_) => ContainerFault::Memory,
    }
}

/// That an archive has several records, with their names.
fn several(alloc: Global, name: &str, records: &[Entry<'_>]) -> Result<Vec<u8>, AllocError> {
    let after = ": the archive has several records; unpack it, and name one of them:\n";
    let mut said = message_on(alloc, "comtrade: ", name.as_bytes(), after)?;
    for record in records {
        put(&mut said, "  ")?;
        put_safe(&mut said, record.name)?;
        put(&mut said, "\n")?;
    }
    Ok(said)
}

/// Why compressed bytes are refused, as a line with the name of their file.
fn fault_said(alloc: Global, name: &str, fault: InflateFault) -> ContainerFault {
    let said = match fault {
        InflateFault::Memory => return ContainerFault::Memory,
        InflateFault::Limit => format!(in alloc; "{}", ToolFault::Long),
        _ => format!(in alloc; "{fault}"),
    };
    match said {
        Ok(text) => refusal(alloc, name, text.as_str()),
        Err(_) => ContainerFault::Memory,
    }
}

/// The name of a file in an archive: `ARCHIVE/NAME`, as printable characters.
fn path_in(alloc: Global, archive: &str, name: &[u8]) -> Result<String, AllocError> {
    let mut text = Vec::new(alloc);
    put_safe(&mut text, name)?;
    let mut path = String::from_str(alloc, archive)?;
    path.push_str("/")?;
    if let Ok(text) = str::from_utf8(&text) {
        path.push_str(text)?;
    }
    Ok(path)
}

/// The bytes of one file of an archive.
fn bytes_of(
    alloc: Global,
    name: &str,
    archive: &[u8],
    entry: Entry<'_>,
    limit: usize,
) -> Result<Vec<u8>, ContainerFault>
    ensures content { IfOk result (λ v. IsContent archive.now entry.entry v.items) }
    ensures limit { IfOk result (λ v. length v.items ≤ limit) }
{
    let path = path_in(alloc, name, entry.name)?;
    match content(alloc, archive, entry, limit) {
        Ok(bytes) => Ok(bytes),
        Err(fault) => Err(fault_said(alloc, path.as_str(), fault)),
    }
}

/// A single file out of an archive.
fn single(alloc: Global, name: String, cfg: Vec<u8>) -> Contained
    ensures { result.cfg.items ≡ cfg.items }
{
    let names = Pairing {
        cfg: name,
        dat: None,
    };
    let dat = Vec::new(alloc);
    Contained { names, cfg, dat }
}

/// The record with this configuration file or single file.
fn record_of(
    alloc: Global,
    name: &str,
    archive: &[u8],
    all: &[Entry<'_>],
    record: Entry<'_>,
    limit: usize,
) -> Result<Contained, ContainerFault>
    ensures cfg { IfOk result (λ r. IsContent archive.now record.entry r.cfg.items) }
{
    let cfg_name = path_in(alloc, name, record.name)?;
    let cfg = bytes_of(alloc, name, archive, record, limit)?;
    if has_ending(record.name, b".cff") {
        return Ok(single(alloc, cfg_name, cfg));
    }
    match data_in(alloc, all, record)?.as_slice() {
        [entry] => {
            let dat_name = path_in(alloc, name, entry.name)?;
            let dat = bytes_of(alloc, name, archive, *entry, limit)?;
            let names = Pairing {
                cfg: cfg_name,
                dat: Some(dat_name),
            };
            Ok(Contained { names, cfg, dat })
        }
        [] if is_single_text(&cfg) => Ok(single(alloc, cfg_name, cfg)),
        [] => Err(refusal(alloc, cfg_name.as_str(), NO_DATA)),
        _ => Err(refusal(alloc, cfg_name.as_str(), MORE_DATA)),
    }
}

/// The record of an archive that has one.
pub(crate) fn record_in(
    alloc: Global,
    name: &str,
    archive: &[u8],
    limit: usize,
) -> Result<Contained, ContainerFault> {
    let all = match entries(alloc, archive) {
        Ok(all) => all,
        Err(fault) => return Err(fault_said(alloc, name, fault)),
    };
    let records = records_in(alloc, &all)?;
    match records.as_slice() {
        [] => Err(refusal(alloc, name, "the archive has no .cfg and no .cff file")),
        [record] => record_of(alloc, name, archive, &all, *record, limit),
        _ => Err(ContainerFault::Said(several(alloc, name, &records)?)),
    }
}

/// What a gzip file begins with.
const GZIP: &[u8] = b"\x1f\x8b";

/// Whether these bytes, which no text begins with, are those of a gzip file.
pub(crate) fn is_compressed(bytes: &[u8]) -> bool {
    bytes.starts_with(GZIP)
}

/// The bytes of a gzip file.
pub(crate) fn decompressed(
    alloc: Global,
    name: &str,
    bytes: &[u8],
    limit: usize,
) -> Result<Vec<u8>, ContainerFault>
    ensures gzip { IfOk result (λ v. IsGzip bytes.now v.items) }
    ensures limit { IfOk result (λ v. length v.items ≤ limit) }
{
    match gunzip(alloc, bytes, limit) {
        Ok(bytes) => Ok(bytes),
        Err(fault) => Err(fault_said(alloc, name, fault)),
    }
}

/// The bytes of a file, decompressed if its name ends in `.gz`.
pub(crate) fn unpacked(
    alloc: Global,
    name: &str,
    bytes: Vec<u8>,
    limit: usize,
) -> Result<Vec<u8>, ContainerFault>
    ensures { IfOk result (λ v. (v.items ≡ bytes.items) ⊎ IsGzip bytes.items v.items) }
{
    if has_ending(name.as_bytes(), b".gz") {
        decompressed(alloc, name, &bytes, limit)
    } else {
        Ok(bytes)
    }
}
