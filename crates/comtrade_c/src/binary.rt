//! Reads the rows of BINARY data directly into tables, without a list for each row.

ghost use Rattle.std.specs.Prelude.{◌≡◌, ◌≢◌, ◌⊎◌, ◌≤◌, ◌<◌, ◌*◌, ◌+◌, ◌/◌, length, map, Ok, IfErr, IsTrue, IsFalse, true, false};
ghost use Rattle.comtrade_format.specs.declared.file.Kind.TheVariants.{Binary};
ghost use Rattle.comtrade_read.specs.Reads.{row_size, ReadsRows, FaultyData, Nothing};
ghost use Rattle.comtrade_format.specs.Packed as packed;
ghost use Rattle.comtrade_read.specs.Inner.BinaryRows as spec;
ghost use Rattle.comtrade_c.specs.Tables as tables;
ghost use Rattle.comtrade_c.specs.Tables.{TabulatesRows, RowsLackRoom};

use crate::rows::{NO_SAMPLE, NO_STAMP};
use crate::summary::last_row;
use bumpalo::Bump;
use byteorder::{ByteOrder, LittleEndian};
use comtrade_format::Head;
use comtrade_read::{ReadFault, row_size};

/// The sample in the first two bytes, in two's complement. The lowest number means missing.
fn sample_at(bytes: &[u8]) -> i32
    requires { 2 ≤ length bytes.now }
    ensures { result ≡ tables.sample_of (packed.value_at bytes.now) }
{
    let value = LittleEndian::read_i16(bytes);
    if value == -32_768 {
        NO_SAMPLE
    } else {
        value as i32
    }
}

/// The time stamp in the first four bytes. The highest number means none.
fn stamp_at(bytes: &[u8]) -> u64
    requires { 4 ≤ length bytes.now }
    ensures { result ≡ tables.stamp_of (spec.stamp_at bytes.now) }
{
    let stamp = LittleEndian::read_u32(bytes);
    if stamp == u32::MAX {
        NO_STAMP
    } else {
        stamp as u64
    }
}

/// Fills the samples of one row from the values at the start of the bytes.
fn put_row(to: &mut [i32], bytes: &[u8])
    requires { 2 * length to.old ≤ length bytes.now }
    ensures { to.new ≡ map tables.sample_of (packed.values_at (length to.old) bytes.now) }
{
    for k in 0..to.len() {
        to[k] = sample_at(&bytes[2 * k..]);
    }
}

/// Fills bytes with the lowest bits of a group, one bit each.
#[inline(always)]
fn put_group(to: &mut [u8], group: u16)
    requires { length to.old ≤ 16 }
    ensures { to.new ≡ map tables.bit_of (packed.group_bits (length to.old) group) }
{
    for k in 0..to.len() {
        to[k] = ((group >> k) & 1) as u8;
    }
}

/// Fills the bits of one row from the groups at the start of the bytes.
fn put_row_bits(to: &mut [u8], bytes: &[u8])
    requires { 2 * ((length to.old + 15) / 16) ≤ length bytes.now }
    ensures { to.new ≡ map tables.bit_of (packed.bits_at (length to.old) bytes.now) }
{
    let whole = to.len() / 16;
    for g in 0..whole {
        let group = LittleEndian::read_u16(&bytes[2 * g..]);
        put_group(&mut to[16 * g..16 * g + 16], group);
    }
    let at = 16 * whole;
    if at < to.len() {
        let group = LittleEndian::read_u16(&bytes[2 * whole..]);
        put_group(&mut to[at..], group);
    }
}

/// Fills the stamp, the samples and the bits of each row of k samples and m bits.
fn put_rows(
    stamps: &mut [u64],
    samples: &mut [i32],
    bits: &mut [u8],
    dat: &[u8],
    k: usize,
    m: usize,
)
    requires k { k < 1000000 }
    requires m { m < 1000000 }
    requires whole { length dat.now ≡ length stamps.old * row_size k m }
    requires samples { length samples.old ≡ length stamps.old * k }
    requires bits { length bits.old ≡ length stamps.old * m }
    ensures stamps { stamps.new ≡ tables.stamps_of (spec.rows_at k m dat.now (length stamps.old)) }
    ensures samples { samples.new ≡ tables.samples_of (spec.rows_at k m dat.now (length stamps.old)) }
    ensures bits { bits.new ≡ tables.bits_of (spec.rows_at k m dat.now (length stamps.old)) }
{
    let size = row_size(k, m);
    let first = 8 + 2 * k;
    let (mut sample, mut bit) = (0, 0);
    for i in 0..stamps.len() {
        stamps[i] = stamp_at(&dat[i * size + 4..]);
        let end = sample + k;
        put_row(&mut samples[sample..end], &dat[i * size + 8..]);
        sample = end;
        let end = bit + m;
        put_row_bits(&mut bits[bit..end], &dat[i * size + first..]);
        bit = end;
    }
}

/// Whether `rows` rows of this size have exactly this many items.
fn are(items: usize, rows: u64, size: usize) -> bool
    requires { size < 5000000 }
    ensures whole { IsTrue result → items ≡ rows * size }
    ensures other { IsFalse result → items ≢ rows * size }
{
    // the product may exceed 64 bits
    items as u128 == rows as u128 * size as u128
}

/// Whether three tables are as long as the stamps, samples and bits of `rows` rows of k samples and
/// m bits.
fn are_tables(stamps: usize, samples: usize, bits: usize, rows: u64, k: usize, m: usize) -> bool
    requires k { k < 1000000 }
    requires m { m < 1000000 }
    ensures stamps { IsTrue result → stamps ≡ rows }
    ensures samples { IsTrue result → samples ≡ rows * k }
    ensures bits { IsTrue result → bits ≡ rows * m }
    ensures other { IsFalse result → (stamps ≢ rows) ⊎ (samples ≢ rows * k) ⊎ (bits ≢ rows * m) }
{
    stamps as u64 == rows && are(samples, rows, k) && are(bits, rows, m)
}

/// Fills the tables with the rows of BINARY data under their head. If a table doesn't have the
/// length that they need, it returns false. Neither that nor an error (`Length`) changes a table.
pub(crate) fn binary_rows(
    head: &Head<&Bump>,
    dat: &[u8],
    stamps: &mut [u64],
    samples: &mut [i32],
    bits: &mut [u8],
) -> Result<bool, ReadFault>
    requires kind { head.now.kind ≡ Binary }
    requires few { length head.now.analog + length head.now.status < 1000000 }
    ensures done { result ≡ Ok true →
        TabulatesRows head.now dat.now stamps.new samples.new bits.new }
    ensures room { result ≡ Ok false →
        RowsLackRoom head.now dat.now stamps.old samples.old bits.old }
    ensures fault { IfErr result (FaultyData head.now dat.now) }
    ensures unread { IfErr result (λ e. Nothing (ReadsRows head.now dat.now)) }
    ensures stamps_kept { (result ≢ Ok true) → stamps.new ≡ stamps.old }
    ensures samples_kept { (result ≢ Ok true) → samples.new ≡ samples.old }
    ensures bits_kept { (result ≢ Ok true) → bits.new ≡ bits.old }
{
    let k = head.analog.items().len();
    let m = head.status.items().len();
    let rows = last_row(head.rates.items());
    if !are(dat.len(), rows, row_size(k, m)) {
        return Err(ReadFault::Length);
    }
    if !are_tables(stamps.len(), samples.len(), bits.len(), rows, k, m) {
        return Ok(false);
    }
    put_rows(stamps, samples, bits, dat, k, m);
    Ok(true)
}
