//! Writes a pair.

ghost use Rattle.std.specs.Prelude.{◌≡◌, ◌≢◌, ◌⊎◌, ◌+◌, length, map, take, drop, IfOk, IfErr};
ghost use Rattle.comtrade_format.specs.Refusals.{Fails};
ghost use Rattle.comtrade_c.specs.Faults.{IsHeadFault, OfHead};
ghost use Rattle.comtrade_c.specs.Writing as spec;
ghost use Rattle.comtrade_c.specs.Writing.{AreTexts, IsRefused, IsWritten, LacksRoom, file_of_tables};

use crate::answer::{
    CFG_FAULT, DONE, Fault, NO_MEMORY, NO_ROOM, WRITE_FAULT, head_of, of_write, put_front,
};
use crate::rows::{NO_SAMPLE, NO_STAMP};
use comtrade_format::{File, Head, Kind, Rate, Row, WriteFault, cfg_bytes, dat_bytes};
use comtrade_read::file_reads_back;
use comtrade_values::Items;
use dfr_channels::Reading;
use std::alloc::{AllocError, Global};

/// The lengths of the two files, in bytes.
#[repr(C)]
#[derive(Clone, Copy)]
pub(crate) struct Sizes {
    pub cfg: usize,
    pub dat: usize,
}

pub(crate) fn reading_of(sample: i32) -> Reading
    ensures { result ≡ spec.reading_of sample }
{
    if sample == NO_SAMPLE {
        Reading::Missing
    } else {
        Reading::Value(sample)
    }
}

pub(crate) fn stamp_of(stamp: u64) -> Option<u64>
    ensures { result ≡ spec.stamp_in stamp }
{
    if stamp == NO_STAMP { None } else { Some(stamp) }
}

fn readings_of(alloc: Global, samples: &[i32]) -> Result<Items<Reading>, AllocError>
    ensures { IfOk result (λ list. list ≡ map spec.reading_of samples.now) }
{
    let mut list = Vec::with_capacity(alloc, samples.len())?;
    for sample in samples {
        list.push(reading_of(*sample))?;
    }
    Ok(Items::of(list))
}

fn flags_of(alloc: Global, bits: &[u8]) -> Result<Items<bool>, AllocError>
    ensures { IfOk result (λ list. list ≡ map spec.flag_of bits.now) }
{
    let mut list = Vec::with_capacity(alloc, bits.len())?;
    for bit in bits {
        list.push(*bit != 0)?;
    }
    Ok(Items::of(list))
}

/// A row with this number, stamp, samples and bits.
fn row_of(
    alloc: Global,
    number: u64,
    stamp: u64,
    samples: &[i32],
    bits: &[u8],
) -> Result<Row, AllocError>
    ensures { IfOk result (λ r. r ≡ spec.row number stamp samples.now bits.now) }
{
    Ok(Row {
        number,
        stamp: stamp_of(stamp),
        values: readings_of(alloc, samples)?,
        bits: flags_of(alloc, bits)?,
    })
}

/// The first `count` items of a list (all if it is shorter), and the rest.
fn cut<T>(list: &[T], count: usize) -> (&[T], &[T])
    ensures front { result.0.now ≡ take count list.now }
    ensures back { result.1.now ≡ drop count list.now }
{
    list.split_at(count.min(list.len()))
}

#[tactic(auto, using(crate::proofs::Tables::next_row))]
fn rows_of(
    alloc: Global,
    head: &Head,
    stamps: &[u64],
    samples: &[i32],
    bits: &[u8],
) -> Result<Items<Row>, AllocError>
    ensures { IfOk result (λ rows. rows ≡ spec.rows_from (length head.now.analog)
        (length head.now.status) 1 stamps.now samples.now bits.now) }
{
    let (analog, status) = (head.analog.items().len(), head.status.items().len());
    let (mut samples, mut bits) = (samples, bits);
    let mut rows = Vec::with_capacity(alloc, stamps.len())?;
    for (k, stamp) in stamps.iter().enumerate() {
        let (values, more_samples) = cut(samples, analog);
        let (flags, more_bits) = cut(bits, status);
        rows.push(row_of(alloc, k as u64 + 1, *stamp, values, flags)?)?;
        samples = more_samples;
        bits = more_bits;
    }
    Ok(Items::of(rows))
}

/// The rates, with the last one ending at the last row.
#[tactic(auto, using(crate::proofs::Tables::last_ends))]
fn rates_of(alloc: Global, rates: &[Rate], rows: usize) -> Result<Items<Rate>, AllocError>
    ensures { IfOk result (λ list. list ≡ spec.ending rows rates.now) }
{
    let mut list = Vec::with_capacity(alloc, rates.len())?;
    let Some((last, before)) = rates.split_last() else {
        return Ok(Items::of(list));
    };
    list.extend_from_slice(before)?;
    list.push(Rate {
        samp: last.samp,
        endsamp: rows as u64,
    })?;
    Ok(Items::of(list))
}

/// The texts of the two files, which read back to `file`.
fn texts_of(alloc: Global, file: &File) -> Result<(Vec<u8>, Vec<u8>), WriteFault>
    ensures texts { IfOk result (λ texts. AreTexts file.now texts.0.items texts.1.items) }
    ensures fault { IfErr result (λ why. Fails why (spec.refusal file.now)) }
{
    file_reads_back(file);
    let cfg = cfg_bytes(alloc, file)?;
    let dat = dat_bytes(alloc, file)?;
    Ok((cfg, dat))
}

fn kind_of(binary: bool) -> Kind
    ensures { result ≡ spec.kind_of binary }
{
    if binary { Kind::Binary } else { Kind::Ascii }
}

/// The file with this head, this kind of data and these rows.
fn file_of(
    alloc: Global,
    head: Head,
    binary: bool,
    stamps: &[u64],
    samples: &[i32],
    bits: &[u8],
) -> Result<File, AllocError>
    ensures { IfOk result (λ file.
        file ≡ file_of_tables binary stamps.now samples.now bits.now head) }
{
    let mut head = head;
    let rows = rows_of(alloc, &head, stamps, samples, bits)?;
    head.rates = rates_of(alloc, head.rates.items(), stamps.len())?;
    head.kind = kind_of(binary);
    Ok(File { head, rows })
}

/// Writes the texts of the two files to the start of the buffers, if they have room.
fn write_file(
    alloc: Global,
    file: &File,
    new_cfg: &mut [u8],
    new_dat: &mut [u8],
    sizes: &mut Sizes,
    fault: &mut Fault,
) -> i32
    ensures answer { (result ≡ DONE) ⊎ (result ≡ WRITE_FAULT) ⊎ (result ≡ NO_ROOM)
        ⊎ (result ≡ NO_MEMORY) }
    ensures done { result ≡ DONE →
        IsWritten file.now new_cfg.old new_dat.old sizes.new new_cfg.new new_dat.new }
    ensures room { result ≡ NO_ROOM → LacksRoom file.now new_cfg.old new_dat.old sizes.new }
    ensures write_fault { result ≡ WRITE_FAULT → IsRefused file.now fault.new }
    ensures cfg_kept { (result ≢ DONE) → new_cfg.new ≡ new_cfg.old }
    ensures dat_kept { (result ≢ DONE) → new_dat.new ≡ new_dat.old }
    ensures sizes_kept { (result ≢ DONE) → (result ≢ NO_ROOM) → sizes.new ≡ sizes.old }
    ensures fault_kept { (result ≢ WRITE_FAULT) → fault.new ≡ fault.old }
{
    let (cfg_text, dat_text) = match texts_of(alloc, file) {
        Ok(texts) => texts,
        Err(WriteFault::Memory) => return NO_MEMORY,
        Err(why) => {
            *fault = of_write(why);
            return WRITE_FAULT;
        }
    };
    *sizes = Sizes {
        cfg: cfg_text.len(),
        dat: dat_text.len(),
    };
    if new_cfg.len() < cfg_text.len() || new_dat.len() < dat_text.len() {
        return NO_ROOM;
    }
    put_front(new_cfg, &cfg_text);
    put_front(new_dat, &dat_text);
    DONE
}

/// Writes a pair with the head of this configuration file and the rows of these tables; the pair
/// reads back to exactly that content. The rows are numbered from 1, the last rate ends at the last
/// row, and `binary` sets the data type. Too few samples or bits are the error `Shape`; extra ones
/// are ignored. The files are at the start of the buffers, and `sizes` are their lengths.
///
/// Returns `DONE`, `CFG_FAULT` or `WRITE_FAULT` with the first error in `fault`, `NO_ROOM` if a
/// buffer is shorter than the `sizes` that are set, or `NO_MEMORY`.
#[unsafe(no_mangle)]
pub extern "C" fn comtrade_core_write(
    alloc: Global,
    cfg: &[u8],
    binary: bool,
    stamps: &[u64],
    samples: &[i32],
    bits: &[u8],
    new_cfg: &mut [u8],
    new_dat: &mut [u8],
    sizes: &mut Sizes,
    fault: &mut Fault,
) -> i32
    ensures answer { (result ≡ DONE) ⊎ (result ≡ CFG_FAULT) ⊎ (result ≡ WRITE_FAULT)
        ⊎ (result ≡ NO_ROOM) ⊎ (result ≡ NO_MEMORY) }
    ensures done { result ≡ DONE → OfHead cfg.now (λ h.
        let file = file_of_tables binary stamps.now samples.now bits.now h in
        IsWritten file new_cfg.old new_dat.old sizes.new new_cfg.new new_dat.new) }
    ensures room { result ≡ NO_ROOM → OfHead cfg.now (λ h.
        let file = file_of_tables binary stamps.now samples.now bits.now h in
        LacksRoom file new_cfg.old new_dat.old sizes.new) }
    ensures cfg_fault { result ≡ CFG_FAULT → IsHeadFault cfg.now fault.new }
    ensures write_fault { result ≡ WRITE_FAULT → OfHead cfg.now (λ h.
        IsRefused (file_of_tables binary stamps.now samples.now bits.now h) fault.new) }
    ensures cfg_kept { (result ≢ DONE) → new_cfg.new ≡ new_cfg.old }
    ensures dat_kept { (result ≢ DONE) → new_dat.new ≡ new_dat.old }
    ensures sizes_kept { (result ≢ DONE) → (result ≢ NO_ROOM) → sizes.new ≡ sizes.old }
    ensures fault_kept { (result ≢ CFG_FAULT) → (result ≢ WRITE_FAULT) → fault.new ≡ fault.old }
{
    let head = match head_of(alloc, cfg, fault) {
        Ok(head) => head,
        Err(answer) => return answer,
    };
    let Ok(file) = file_of(alloc, head, binary, stamps, samples, bits) else {
        return NO_MEMORY;
    };
    write_file(alloc, &file, new_cfg, new_dat, sizes, fault)
}
