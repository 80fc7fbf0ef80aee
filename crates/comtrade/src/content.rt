//! Reads the `File` that a pair holds. What the exact reader refuses, or what means something else
//! than it reads as, is read as `import` reads it, with notes on the repairs.

use crate::load::{Inputs, REFUSED, pair_of, put_import_fault, put_notes};
use comtrade_diagnostics::{
    Choices, ImportFault, Intended, Pair, Refusal, Repaired, Samples, Texts, Zone, intended_of,
    put_fault, put_remarks, repaired_pair, repaired_single,
};
use comtrade_format::File;
use comtrade_io::{Part as Asked, ToolFault};
use comtrade_letters::Encoding;
use comtrade_read::{Fault, Part, ReadFault, read};
use comtrade_values::put;
use comtrade_views::{spell_for_views, spell_in_utf8};
use std::alloc::Allocator;

/// Whether an error is in the first line, where files of other editions are refused.
fn is_first(part: Part, fault: ReadFault) -> bool {
    part == Part::Cfg && matches!(fault, ReadFault::Revision | ReadFault::Fields(1))
}

/// How a pair is read.
#[derive(Clone, Copy)]
pub(crate) struct Reading<'a> {
    /// Only what the exact reader reads, as it reads it.
    is_strict: bool,
    encoding: Option<&'a str>,
    /// Texts are spelled for people and samples have 32 bits, not those of a new pair.
    is_view: bool,
    /// What is odd about a pair that reads exactly is noted.
    has_remarks: bool,
}

impl<'a> Reading<'a> {
    /// How a record is read to be shown.
    pub(crate) fn to_show(asked: Asked<'a>, has_remarks: bool) -> Reading<'a> {
        Reading {
            is_strict: asked.strict,
            encoding: asked.encoding,
            is_view: true,
            has_remarks,
        }
    }

    /// How a record is read to be written as a new pair.
    pub(crate) fn to_write(asked: Asked<'a>) -> Reading<'a> {
        Reading {
            is_view: false,
            ..Reading::to_show(asked, false)
        }
    }

    /// How a record among many is read.
    pub(crate) fn to_list(encoding: Option<&'a str>, has_remarks: bool) -> Reading<'a> {
        Reading {
            is_strict: false,
            encoding,
            is_view: true,
            has_remarks,
        }
    }

    /// The choices for files that are repaired.
    fn choices(self) -> Choices {
        Choices {
            samples: if self.is_view {
                Samples::Shown
            } else {
                Samples::Written
            },
            ..Choices::default()
        }
    }
}

/// Where the content of a file comes from.
#[derive(Clone, Copy, PartialEq, Eq)]
pub(crate) enum Origin {
    /// The pair reads to it, or a single file that becomes the equivalent pair.
    Literal,
    /// The pair reads exactly, but means something else.
    Repaired,
    /// The exact reader refuses the pair.
    Imported,
}

/// The file of a pair.
#[derive(Drop)]
pub(crate) struct Loaded<A: Allocator> {
    pub(crate) file: File<A>,
    pub(crate) origin: Origin,
    /// The time code of its instants, if it has one.
    pub(crate) zone: Option<Zone>,
}

/// The repaired file; `said` gets each repair, one line each.
fn told<A: Allocator + Copy>(
    repaired: Repaired<A>,
    origin: Origin,
    said: &mut Vec<u8, A>,
) -> Result<Loaded<A>, ToolFault> {
    let Repaired { file, notes, zone } = repaired;
    put_notes(said, &notes)?;
    Ok(Loaded { file, origin, zone })
}

/// The file of the pair in a single file, as `import` reads it. `said` gets each repair, one line
/// each, or for None why it cannot be read.
fn single_in<A: Allocator + Copy>(
    alloc: A,
    pair: Pair<'_>,
    reading: Reading<'_>,
    said: &mut Vec<u8, A>,
) -> Result<Option<Loaded<A>>, ToolFault> {
    match repaired_single(alloc, pair.cfg, reading.choices()) {
        Ok(repaired) => Ok(Some(told(repaired, Origin::Literal, said)?)),
        Err(Refusal::Fault(ImportFault::Memory)) => Err(ToolFault::Memory),
        Err(fault) => {
            put_import_fault(said, REFUSED, pair.cfg_name, fault)?;
            Ok(None)
        }
    }
}

/// The file of a pair that the exact reader refused, as `import` reads it. `said` gets each repair,
/// one line each, or for None why the pair cannot be read.
fn imported_in<A: Allocator + Copy>(
    alloc: A,
    pair: Pair<'_>,
    reading: Reading<'_>,
    found: Fault,
    said: &mut Vec<u8, A>,
) -> Result<Option<Loaded<A>>, ToolFault> {
    match repaired_pair(alloc, pair.cfg, pair.dat, reading.choices()) {
        Ok(repaired) => return Ok(Some(told(repaired, Origin::Imported, said)?)),
        Err(Refusal::Fault(ImportFault::Memory)) => return Err(ToolFault::Memory),
        Err(fault)
            if is_first(found.part, found.fault)
                && !matches!(fault, Refusal::Fault(ImportFault::Cfg(1, _))) => {
            put_import_fault(said, REFUSED, pair.cfg_name, fault)?;
        }
        Err(fault @ Refusal::Silent(_)) => {
            put_import_fault(said, REFUSED, pair.cfg_name, fault)?;
        }
        Err(_) => put_fault(alloc, said, pair, found)?,
    }
    Ok(None)
}

/// The texts of a line on a pair that means something else than it reads as, but cannot be
/// imported.
const UNCLEAR: (&str, &str, &str) = (
    "note: ",
    ": `comtrade import` cannot read it: ",
    "; this is its literal content\n",
);

/// What a pair means that reads exactly to this file. `said` gets each repair, one line each.
fn intended_in<A: Allocator + Copy>(
    alloc: A,
    pair: Pair<'_>,
    file: File<A>,
    texts: Texts,
    said: &mut Vec<u8, A>,
) -> Result<Loaded<A>, ToolFault> {
    let (file, origin) = match intended_of(alloc, pair, file, texts)? {
        Intended::Literal(file) => (file, Origin::Literal),
        Intended::Repaired(file, notes) => {
            put_notes(said, &notes)?;
            (file, Origin::Repaired)
        }
        Intended::Unclear(file, fault) => {
            put_import_fault(said, UNCLEAR, pair.cfg_name, fault)?;
            (file, Origin::Literal)
        }
    };
    Ok(Loaded {
        file,
        origin,
        zone: None,
    })
}

/// The file of a pair: exact if it means that, else as `import` reads it, with the repairs in
/// `said`. If `is_strict`, only exact. None if it cannot be read so, with the error in `said`.
fn file_in<A: Allocator + Copy>(
    alloc: A,
    pair: Pair<'_>,
    reading: Reading<'_>,
    said: &mut Vec<u8, A>,
) -> Result<Option<Loaded<A>>, ToolFault> {
    let found = match read(alloc, pair.cfg, pair.dat) {
        Ok(file) if reading.is_strict => {
            return Ok(Some(Loaded {
                file,
                origin: Origin::Literal,
                zone: None,
            }));
        }
        Ok(file) => {
            let texts = if reading.is_view {
                Texts::Literal
            } else {
                Texts::Imported
            };
            return Ok(Some(intended_in(alloc, pair, file, texts, said)?));
        }
        Err((_, ReadFault::Memory)) => return Err(ToolFault::Memory),
        Err((part, fault)) => Fault { part, fault },
    };
    if reading.is_strict {
        put_fault(alloc, said, pair, found)?;
        return Ok(None);
    }
    imported_in(alloc, pair, reading, found, said)
}

/// The file of a record, as `file_in`; of a single file as `import` reads it.
fn record_in<A: Allocator + Copy>(
    alloc: A,
    inputs: &Inputs,
    reading: Reading<'_>,
    said: &mut Vec<u8, A>,
) -> Result<Option<Loaded<A>>, ToolFault> {
    if inputs.is_single() {
        single_in(alloc, pair_of(inputs), reading, said)
    } else {
        file_in(alloc, pair_of(inputs), reading, said)
    }
}

/// The error for an unknown encoding.
pub(crate) const NO_ENCODING: &str = "comtrade: --encoding expects utf-8, utf-16, latin1, \
    windows-1251, windows-1252, cp437, cp850, cp866, gbk or shift_jis\n";

/// The encoding with this name, UTF-8 without one; None for an unknown one. A UTF-16 file is known
/// by its first bytes, and its texts become UTF-8.
pub(crate) fn encoding_of(name: Option<&str>) -> Option<Encoding> {
    match name {
        Some(name) if name.eq_ignore_ascii_case("utf-16") => Some(Encoding::Utf8),
        Some(name) => Encoding::named(name),
        None => Some(Encoding::Utf8),
    }
}

/// The file of a record, as `record_in`, with its texts spelled; None also for an unknown encoding,
/// with the error in `said`.
pub(crate) fn file_spelled<A: Allocator + Copy>(
    alloc: A,
    inputs: &Inputs,
    reading: Reading<'_>,
    said: &mut Vec<u8, A>,
) -> Result<Option<Loaded<A>>, ToolFault> {
    let Some(encoding) = encoding_of(reading.encoding) else {
        put(said, NO_ENCODING)?;
        return Ok(None);
    };
    let mut found = record_in(alloc, inputs, reading, said)?;
    if let Some(loaded) = &mut found {
        spell_in_utf8(alloc, &mut loaded.file, encoding)?;
        if reading.has_remarks && loaded.origin != Origin::Imported {
            put_remarks(said, pair_of(inputs), &loaded.file)?;
        }
        if reading.is_view {
            spell_for_views(alloc, &mut loaded.file)?;
        }
    }
    Ok(found)
}
