//! Reads the rows of a pair as tables of numbers.

ghost use Rattle.std.specs.Prelude.{◌≡◌, ◌≢◌, ◌⊎◌, ◌+◌, ◌<◌, length, map, Ok, IfErr, IsTrue, IsFalse, true, false};
ghost use Rattle.comtrade_read.specs.declared.fault.ReadFault.TheVariants as faults;
ghost use Rattle.comtrade_read.specs.declared.pair.Part.TheVariants.{Cfg, Dat};
ghost use Rattle.comtrade_read.specs.Reads.{ReadsRows, FaultyData, Nothing};
ghost use Rattle.comtrade_c.specs.Faults.{IsPairFault};
ghost use Rattle.comtrade_c.specs.Tables as tables;
ghost use Rattle.comtrade_c.specs.Tables.{Tabulates, LacksRoom, TabulatesRows, RowsLackRoom};

use crate::answer::{CFG_FAULT, DAT_FAULT, DONE, Fault, NO_MEMORY, NO_ROOM, head_of, of_read};
use crate::binary::binary_rows;
use bumpalo::Bump;
use comtrade_format::{Head, Kind, Row};
use comtrade_read::{ReadFault, read_dat};
use dfr_channels::Reading;
use std::alloc::Global;

/// The sample of a missing reading.
pub(crate) const NO_SAMPLE: i32 = i32::MIN;
/// The stamp of a row without one.
pub(crate) const NO_STAMP: u64 = u64::MAX;

fn sample_of(reading: Reading) -> i32
    ensures { result ≡ tables.sample_of reading }
{
    match reading {
        Reading::Value(x) => x,
        Reading::Missing => NO_SAMPLE,
    }
}

pub(crate) fn bit_of(bit: bool) -> u8
    ensures { result ≡ tables.bit_of bit }
{
    if bit { 1 } else { 0 }
}

fn stamp_of(stamp: Option<u64>) -> u64
    ensures { result ≡ tables.stamp_of stamp }
{
    match stamp {
        Some(t) => t,
        None => NO_STAMP,
    }
}

/// Whether tables of these lengths have exactly the samples and the bits of the rows.
fn hold(samples: usize, bits: usize, rows: &[Row<&Bump>]) -> bool
    ensures samples { IsTrue result → samples ≡ length (tables.samples_of rows.now) }
    ensures bits { IsTrue result → bits ≡ length (tables.bits_of rows.now) }
    ensures other { IsFalse result → (samples ≢ length (tables.samples_of rows.now))
        ⊎ (bits ≢ length (tables.bits_of rows.now)) }
{
    let (mut more_samples, mut more_bits) = (samples, bits);
    for row in rows {
        let (k, m) = (row.values.items().len(), row.bits.items().len());
        if more_samples < k || more_bits < m {
            return false;
        }
        more_samples -= k;
        more_bits -= m;
    }
    more_samples == 0 && more_bits == 0
}

/// Fills the samples of one row.
fn put_row(to: &mut [i32], readings: &[Reading])
    requires { length to.old ≡ length readings.now }
    ensures { to.new ≡ map tables.sample_of readings.now }
{
    for (k, reading) in readings.iter().enumerate() {
        to[k] = sample_of(*reading);
    }
}

/// Fills the bits of one row.
fn put_row_bits(to: &mut [u8], bits: &[bool])
    requires { length to.old ≡ length bits.now }
    ensures { to.new ≡ map tables.bit_of bits.now }
{
    for (k, bit) in bits.iter().enumerate() {
        to[k] = bit_of(*bit);
    }
}

/// Fills the stamp, the samples and the bits of each row.
fn put_rows(stamps: &mut [u64], samples: &mut [i32], bits: &mut [u8], rows: &[Row<&Bump>])
    requires stamps { length stamps.old ≡ length rows.now }
    requires samples { length samples.old ≡ length (tables.samples_of rows.now) }
    requires bits { length bits.old ≡ length (tables.bits_of rows.now) }
    ensures stamps { stamps.new ≡ tables.stamps_of rows.now }
    ensures samples { samples.new ≡ tables.samples_of rows.now }
    ensures bits { bits.new ≡ tables.bits_of rows.now }
{
    let (mut sample, mut bit) = (0, 0);
    for (i, row) in rows.iter().enumerate() {
        stamps[i] = stamp_of(row.stamp);
        let end = sample + row.values.items().len();
        put_row(&mut samples[sample..end], row.values.items());
        sample = end;
        let end = bit + row.bits.items().len();
        put_row_bits(&mut bits[bit..end], row.bits.items());
        bit = end;
    }
}

/// Fills the tables. If one of them doesn't have the length that the rows need, it returns false
/// and changes none.
fn fill(rows: &[Row<&Bump>], stamps: &mut [u64], samples: &mut [i32], bits: &mut [u8]) -> bool
    ensures stamps { IsTrue result → stamps.new ≡ tables.stamps_of rows.now }
    ensures samples { IsTrue result → samples.new ≡ tables.samples_of rows.now }
    ensures bits { IsTrue result → bits.new ≡ tables.bits_of rows.now }
    ensures room { IsFalse result → (length stamps.old ≢ length (tables.stamps_of rows.now))
        ⊎ (length samples.old ≢ length (tables.samples_of rows.now))
        ⊎ (length bits.old ≢ length (tables.bits_of rows.now)) }
    ensures stamps_kept { IsFalse result → stamps.new ≡ stamps.old }
    ensures samples_kept { IsFalse result → samples.new ≡ samples.old }
    ensures bits_kept { IsFalse result → bits.new ≡ bits.old }
{
    if stamps.len() != rows.len() || !hold(samples.len(), bits.len(), rows) {
        return false;
    }
    put_rows(stamps, samples, bits, rows);
    true
}

/// Fills the tables with the rows of a data file under its head: BINARY data directly, ASCII data
/// from rows that are read first. Returns false as `fill` does. An error changes no table either.
fn rows_under<'a>(
    lists: &'a Bump,
    head: Head<&'a Bump>,
    dat: &[u8],
    stamps: &mut [u64],
    samples: &mut [i32],
    bits: &mut [u8],
) -> Result<bool, ReadFault>
    requires few { length head.analog + length head.status < 1000000 }
    ensures done { result ≡ Ok true → TabulatesRows head.entry dat.now stamps.new samples.new bits.new }
    ensures room { result ≡ Ok false → RowsLackRoom head.entry dat.now stamps.old samples.old bits.old }
    ensures fault { IfErr result (λ e. e ≢ faults.Memory → FaultyData head.entry dat.now e) }
    ensures unread { IfErr result (λ e. e ≢ faults.Memory → Nothing (ReadsRows head.entry dat.now)) }
    ensures stamps_kept { (result ≢ Ok true) → stamps.new ≡ stamps.old }
    ensures samples_kept { (result ≢ Ok true) → samples.new ≡ samples.old }
    ensures bits_kept { (result ≢ Ok true) → bits.new ≡ bits.old }
{
    match head.kind {
        Kind::Ascii => match read_dat(lists, head, dat) {
            Ok(file) => Ok(fill(file.rows.items(), stamps, samples, bits)),
            Err((why, _)) => Err(why),
        },
        Kind::Binary => binary_rows(&head, dat, stamps, samples, bits),
    }
}

/// Reads the rows of a pair into tables: a stamp per row, and row by row a sample per analogue
/// channel and a bit per status channel.
///
/// Returns `DONE`, `CFG_FAULT` or `DAT_FAULT` with the first error in `fault`, `NO_ROOM` if a table
/// doesn't have the length that it must have, or `NO_MEMORY`. Only `DONE` changes the tables.
#[unsafe(no_mangle)]
pub extern "C" fn comtrade_core_rows(
    alloc: Global,
    cfg: &[u8],
    dat: &[u8],
    stamps: &mut [u64],
    samples: &mut [i32],
    bits: &mut [u8],
    fault: &mut Fault,
) -> i32
    ensures answer { (result ≡ DONE) ⊎ (result ≡ CFG_FAULT) ⊎ (result ≡ DAT_FAULT)
        ⊎ (result ≡ NO_ROOM) ⊎ (result ≡ NO_MEMORY) }
    ensures done { result ≡ DONE → Tabulates cfg.now dat.now stamps.new samples.new bits.new }
    ensures room { result ≡ NO_ROOM → LacksRoom cfg.now dat.now stamps.old samples.old bits.old }
    ensures cfg_fault { result ≡ CFG_FAULT → IsPairFault cfg.now dat.now Cfg fault.new }
    ensures dat_fault { result ≡ DAT_FAULT → IsPairFault cfg.now dat.now Dat fault.new }
    ensures stamps_kept { (result ≢ DONE) → stamps.new ≡ stamps.old }
    ensures samples_kept { (result ≢ DONE) → samples.new ≡ samples.old }
    ensures bits_kept { (result ≢ DONE) → bits.new ≡ bits.old }
    ensures fault_kept { (result ≢ CFG_FAULT) → (result ≢ DAT_FAULT) → fault.new ≡ fault.old }
{
    // a file's lists are freed together: freeing each took a tenth of the instructions
    let lists = Bump::new(alloc);
    let head = match head_of(&lists, cfg, fault) {
        Ok(head) => head,
        Err(answer) => return answer,
    };
    match rows_under(&lists, head, dat, stamps, samples, bits) {
        Ok(true) => DONE,
        Ok(false) => NO_ROOM,
        Err(ReadFault::Memory) => NO_MEMORY,
        Err(why) => {
            *fault = of_read(why);
            DAT_FAULT
        }
    }
}
