//! Converts a pair or a single file to a file of 1999 with the same contents.

ghost use Rattle.std.specs.Prelude.{◌≡◌, [], true, false, IsTrue, IfOk, IfSome};
ghost use Rattle.comtrade_format.specs.Parts.{FileParts};
ghost use Rattle.comtrade_read.specs.Reads.{Reads};

use crate::silent::{Refusal, Silent, silent_in};
use crate::single::repaired_single;
use comtrade_dialects::{
    Choices, ImportFault, Note, Notes, Samples, Why, Zone, is_sound, repaired,
};
use comtrade_format::{File, WriteFault};
use comtrade_read::{ReadFault, Written, one_file, read, written_of};
use std::alloc::{Allocator, Global};

/// A file as of 1999, and notes on the repairs that gave it. There are no texts of it yet. One that
/// is shown may have samples that no file of 1999 can hold.
#[derive(Drop)]
pub struct Repaired<A: Allocator = Global> {
    pub file: File<A>,
    pub notes: Vec<Note<A>, A>,
    /// The time code of its instants, if the files have one.
    pub zone: Option<Zone>,
}

/// A file of 1999, its two texts, and notes on the repairs.
#[derive(Drop)]
pub struct Imported<A: Allocator = Global> {
    pub file: File<A>,
    pub cfg: Vec<u8, A>,
    pub dat: Vec<u8, A>,
    pub notes: Vec<Note<A>, A>,
    /// The pair reads exactly to this file, and there are no notes.
    pub is_exact: bool,
}

/// A file with both its texts; an error if no file of 1999 can hold it.
fn finished<A: Allocator + Copy>(
    alloc: A,
    repaired: Repaired<A>,
    is_exact: bool,
) -> Result<Imported<A>, ImportFault>
    ensures reads { IfOk result (λ done. Reads done.cfg.items done.dat.items done.file) }
    ensures file { IfOk result (λ done. done.file ≡ repaired.file) }
    ensures notes { IfOk result (λ done. done.notes.items ≡ repaired.notes.items) }
    ensures exact { IfOk result (λ done. done.is_exact ≡ is_exact) }
{
    let Repaired { file, notes, .. } = repaired;
    match written_of(alloc, &file) {
        Ok(written) => {
            let Written { cfg, dat } = written;
            Ok(Imported {
                file,
                cfg,
                dat,
                notes,
                is_exact,
            })
        }
        Err(fault) => Err(unwritten(fault)),
    }
}

fn unwritten(fault: WriteFault) -> ImportFault {
    match fault {
        WriteFault::Memory => ImportFault::Memory,
        _ => ImportFault::Whole(Why::Written(fault)),
    }
}

/// The repaired file, if each sample of these data is in it or a note covers it.
pub(crate) fn told<A: Allocator + Copy>(
    alloc: A,
    dat: &[u8],
    file: File<A>,
    notes: Notes<A>,
    samples: Samples,
) -> Result<Repaired<A>, Refusal> {
    let zone = notes.zone();
    let notes = notes.into_list();
    match silent_in(alloc, dat, &file, &notes, samples)? {
        Some(silent) => Err(Refusal::Silent(silent)),
        None => Ok(Repaired { file, notes, zone }),
    }
}

/// Reads a pair with all repairs that it needs. It does not try to read it exactly first.
pub fn repaired_pair<A: Allocator + Copy>(
    alloc: A,
    cfg: &[u8],
    dat: &[u8],
    choices: Choices,
) -> Result<Repaired<A>, Refusal> {
    let mut notes = Notes::new(alloc);
    match repaired(alloc, &mut notes, cfg, dat, choices) {
        Ok(file) => told(alloc, dat, file, notes, choices.samples),
        Err(fault) => Err(Refusal::Fault(fault)),
    }
}

/// Reads the pair exactly. None if it cannot be read so, needs a repair, or does not fit a file
/// of 1999.
fn exact<A: Allocator + Copy>(
    alloc: A,
    cfg: &[u8],
    dat: &[u8],
) -> Result<Option<Imported<A>>, ImportFault>
    ensures reads { IfOk result
        (λ found. IfSome found (λ done. Reads done.cfg.items done.dat.items done.file)) }
    ensures same { IfOk result (λ found. IfSome found (λ done. Reads cfg.now dat.now done.file)) }
    ensures untold { IfOk result (λ found. IfSome found (λ done. done.notes.items ≡ [])) }
{
    let file = match read(alloc, cfg, dat) {
        Ok(file) => file,
        Err((_, ReadFault::Memory)) => return Err(ImportFault::Memory),
        Err(_) => return Ok(None),
    };
    if !is_sound(alloc, &file, dat)? {
        return Ok(None);
    }
    let literal = Repaired {
        file,
        notes: Vec::new(alloc),
        zone: None,
    };
    match finished(alloc, literal, true) {
        Ok(imported) => Ok(Some(imported)),
        Err(ImportFault::Memory) => Err(ImportFault::Memory),
        Err(_) => Ok(None),
    }
}

/// Whether both pairs of texts are the same.
fn are_same<A: Allocator>(pair: &Written<A>, done: &Imported<A>) -> bool
    ensures cfg { result ≡ true → pair.now.cfg.items ≡ done.now.cfg.items }
    ensures dat { result ≡ true → pair.now.dat.items ≡ done.now.dat.items }
{
    pair.cfg.as_slice() == done.cfg.as_slice() && pair.dat.as_slice() == done.dat.as_slice()
}

/// Whether the pair can be read only as what the two other texts read to: their file.
fn is_as_given<A: Allocator + Copy>(
    alloc: A,
    cfg: &[u8],
    dat: &[u8],
    done: &Imported<A>,
) -> Result<bool, ImportFault>
    requires { Reads done.now.cfg.items done.now.dat.items done.now.file }
    ensures { IfOk result (λ same. same ≡ true
        → (file : FileParts) → Reads cfg.now dat.now file → file ≡ done.now.file) }
{
    one_file();
    let literal = match read(alloc, cfg, dat) {
        Ok(file) => file,
        Err((_, ReadFault::Memory)) => return Err(ImportFault::Memory),
        Err(_) => return Ok(true),
    };
    match written_of(alloc, &literal) {
        Ok(pair) => Ok(are_same(&pair, done)),
        Err(WriteFault::Memory) => Err(ImportFault::Memory),
        Err(_) => Ok(false),
    }
}

/// Converts a pair of any revision to a file of 1999 with the same contents, and notes each repair.
/// Both resulting texts read back to that file. A pair that is already valid and unambiguous keeps
/// its contents, without notes. Without a note, a pair that reads exactly reads to that very file.
pub fn import<A: Allocator + Copy>(
    alloc: A,
    cfg: &[u8],
    dat: &[u8],
    choices: Choices,
) -> Result<Imported<A>, Refusal>
    ensures reads { IfOk result (λ done. Reads done.cfg.items done.dat.items done.file) }
    ensures exact { IfOk result (λ done. done.is_exact ≡ true
        → (Reads cfg.now dat.now done.file) × (done.notes.items ≡ [])) }
    ensures untold { IfOk result (λ done. done.notes.items ≡ []
        → (file : FileParts) → Reads cfg.now dat.now file → file ≡ done.file) }
{
    match exact(alloc, cfg, dat) {
        Ok(Some(imported)) => {
            one_file();
            return Ok(imported);
        }
        Ok(None) => {}
        Err(fault) => return Err(Refusal::Fault(fault)),
    }
    let done = finished(alloc, repaired_pair(alloc, cfg, dat, choices)?, false)?;
    if done.notes.is_empty() && !is_as_given(alloc, cfg, dat, &done)? {
        return Err(Refusal::Silent(Silent::Content));
    }
    Ok(done)
}

/// Converts a single file to a file of 1999 with the same contents, and notes each repair. Both
/// resulting texts read back to that file.
pub fn import_single<A: Allocator + Copy>(
    alloc: A,
    cff: &[u8],
    choices: Choices,
) -> Result<Imported<A>, Refusal>
    ensures { IfOk result (λ done. Reads done.cfg.items done.dat.items done.file) }
{
    let repaired = repaired_single(alloc, cff, choices)?;
    Ok(finished(alloc, repaired, false)?)
}
