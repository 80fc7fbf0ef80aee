//! Converts files of other revisions and dialects to a pair of 1999.

ghost use Rattle.std.specs.Prelude.{◌≡◌, ◌≢◌, ◌⊎◌, length, IfOk};
ghost use Rattle.comtrade_c.specs.Buffers.{put};
ghost use Rattle.comtrade_c.specs.Importing as spec;
ghost use Rattle.comtrade_c.specs.Importing.{Becomes, IsImported, LacksRoom};

use crate::answer::{BAD_CALL, DONE, NO_MEMORY, NO_ROOM, REFUSED, put_front};
use comtrade_diagnostics::{
    Choices, ImportFault, Imported, Note, Order, Refusal, Samples, import, import_single,
};
use comtrade_letters::Encoding;
use std::alloc::{AllocError, Global};
use std::str;

/// The lengths of the new files and of the notes in bytes, and how many kinds of repairs there are.
#[repr(C)]
#[derive(Clone, Copy)]
pub(crate) struct Lengths {
    pub cfg: usize,
    pub dat: usize,
    pub notes: usize,
    pub repairs: usize,
}

/// The order of day and month with this number: 1 for the month first, 2 for the day first.
fn order_of(order: u32) -> Option<Order> {
    match order {
        1 => Some(Order::MonthFirst),
        2 => Some(Order::DayFirst),
        _ => None,
    }
}

/// The choices of a call. None if an argument is not one that it accepts.
fn choices_of(order: u32, encoding: &[u8]) -> Option<Choices> {
    if order > 2 {
        return None;
    }
    let dates = order_of(order);
    if encoding.is_empty() {
        return Some(Choices {
            dates,
            encoding: None,
            samples: Samples::Written,
        });
    }
    let encoding = Encoding::named(str::from_utf8(encoding).ok()?)?;
    Some(Choices {
        dates,
        encoding: Some(encoding),
        samples: Samples::Written,
    })
}

/// The repairs, one line each.
fn lines_of(alloc: Global, notes: &[Note]) -> Result<Vec<u8>, AllocError> {
    let mut lines = Vec::new(alloc);
    for note in notes {
        note.put_line(&mut lines)?;
        lines.push(b'\n')?;
    }
    Ok(lines)
}

/// Why the files are refused, as a text. An error if that is a failed allocation.
fn reason_of(alloc: Global, fault: Refusal) -> Result<String, AllocError> {
    match fault {
        Refusal::Fault(ImportFault::Memory) => Err(AllocError),
        _ => format!(in alloc; "{fault}"),
    }
}

/// Puts the reason of a refusal into the notes.
fn refuse(alloc: Global, fault: Refusal, notes: &mut [u8], lengths: &mut Lengths) -> i32
    ensures answer { (result ≡ REFUSED) ⊎ (result ≡ NO_MEMORY) }
    ensures lengths_kept { result ≡ NO_MEMORY → lengths.new ≡ lengths.old }
    ensures notes_kept { result ≡ NO_MEMORY → notes.new ≡ notes.old }
{
    let Ok(reason) = reason_of(alloc, fault) else {
        return NO_MEMORY;
    };
    let reason = reason.as_bytes();
    *lengths = Lengths {
        cfg: 0,
        dat: 0,
        notes: reason.len(),
        repairs: 0,
    };
    if reason.len() <= notes.len() {
        put_front(notes, reason);
    }
    REFUSED
}

/// The files become a pair of 1999.
fn imported_of(
    alloc: Global,
    cfg: &[u8],
    dat: &[u8],
    is_single: bool,
    choices: Choices,
) -> Result<Imported, Refusal>
    ensures { IfOk result (λ done. Becomes (spec.of_call is_single cfg.now dat.now)
        done.cfg.items done.dat.items (length done.notes.items)) }
{
    if is_single {
        import_single(alloc, cfg, choices)
    } else {
        import(alloc, cfg, dat, choices)
    }
}

/// Puts the texts of an import to the start of the buffers, if they have room.
fn put_all(
    imported: &Imported,
    lines: &[u8],
    new_cfg: &mut [u8],
    new_dat: &mut [u8],
    notes: &mut [u8],
    lengths: &mut Lengths,
) -> i32
    ensures answer { (result ≡ DONE) ⊎ (result ≡ NO_ROOM) }
    ensures lengths { lengths.new ≡ spec.lengths_of imported.now.cfg.items imported.now.dat.items
        lines.now (length imported.now.notes.items) }
    ensures cfg { result ≡ DONE → new_cfg.new ≡ put imported.now.cfg.items new_cfg.old }
    ensures dat { result ≡ DONE → new_dat.new ≡ put imported.now.dat.items new_dat.old }
    ensures notes { result ≡ DONE → notes.new ≡ put lines.now notes.old }
    ensures short { result ≡ NO_ROOM → spec.IsShort lengths.new new_cfg.old new_dat.old notes.old }
    ensures cfg_kept { result ≡ NO_ROOM → new_cfg.new ≡ new_cfg.old }
    ensures dat_kept { result ≡ NO_ROOM → new_dat.new ≡ new_dat.old }
    ensures notes_kept { result ≡ NO_ROOM → notes.new ≡ notes.old }
{
    *lengths = Lengths {
        cfg: imported.cfg.len(),
        dat: imported.dat.len(),
        notes: lines.len(),
        repairs: imported.notes.len(),
    };
    if new_cfg.len() < imported.cfg.len()
        || new_dat.len() < imported.dat.len()
        || notes.len() < lines.len()
    {
        return NO_ROOM;
    }
    put_front(new_cfg, &imported.cfg);
    put_front(new_dat, &imported.dat);
    put_front(notes, lines);
    DONE
}

/// Converts a pair of any revision and dialect, or a single file (`cfg`, with `is_single`), to a
/// pair of 1999. The new files and the repairs in words, one line each, are at the start of the
/// buffers, and `lengths` are their lengths. `order` is 1 if the month is first in dates, 2 if the
/// day is, else 0; `encoding` is the name of the texts' encoding, or empty.
///
/// Returns `DONE`; `NO_ROOM` if a buffer is shorter than the `lengths` that are set; `REFUSED` with
/// the reason in `notes`, if that has room for the length that is set; `BAD_CALL` for an unknown
/// order or encoding; or `NO_MEMORY`.
#[unsafe(no_mangle)]
pub extern "C" fn comtrade_core_import(
    alloc: Global,
    cfg: &[u8],
    dat: &[u8],
    is_single: bool,
    order: u32,
    encoding: &[u8],
    new_cfg: &mut [u8],
    new_dat: &mut [u8],
    notes: &mut [u8],
    lengths: &mut Lengths,
) -> i32
    ensures answer { (result ≡ DONE) ⊎ (result ≡ REFUSED) ⊎ (result ≡ NO_ROOM)
        ⊎ (result ≡ NO_MEMORY) ⊎ (result ≡ BAD_CALL) }
    ensures done { result ≡ DONE → IsImported (spec.of_call is_single cfg.now dat.now) lengths.new
        new_cfg.old new_dat.old notes.old new_cfg.new new_dat.new notes.new }
    ensures room { result ≡ NO_ROOM → LacksRoom (spec.of_call is_single cfg.now dat.now)
        lengths.new new_cfg.old new_dat.old notes.old }
    ensures cfg_kept { (result ≢ DONE) → new_cfg.new ≡ new_cfg.old }
    ensures dat_kept { (result ≢ DONE) → new_dat.new ≡ new_dat.old }
    ensures notes_kept { (result ≢ DONE) → (result ≢ REFUSED) → notes.new ≡ notes.old }
    ensures lengths_kept { (result ≡ NO_MEMORY) ⊎ (result ≡ BAD_CALL)
        → lengths.new ≡ lengths.old }
{
    let Some(choices) = choices_of(order, encoding) else {
        return BAD_CALL;
    };
    let imported = match imported_of(alloc, cfg, dat, is_single, choices) {
        Ok(imported) => imported,
        Err(fault) => return refuse(alloc, fault, notes, lengths),
    };
    let Ok(lines) = lines_of(alloc, &imported.notes) else {
        return NO_MEMORY;
    };
    put_all(&imported, &lines, new_cfg, new_dat, notes, lengths)
}
