//! Writes digits before and after a decimal point at a position in a buffer, four at a time.

ghost use Rattle.std.specs.Prelude.{◌≡◌, ◌++◌, ◌+◌, ◌*◌, ◌^◌, ◌<◌, ◌≤◌, length, take, decimal};
ghost use Rattle.byteorder.specs.Endian.{little_bytes};
ghost use Rattle.comtrade_values.specs.Written.{padded};
ghost use Rattle.comtrade_format.specs.Places.{IsShown, WritesPlaces};

use crate::value_text::{pair_of, zeros_before};
use byteorder::{ByteOrder, LittleEndian};

/// Four digits with leading zeros, the first in the lowest byte.
fn four_digits(n: u64) -> u64
    requires { n < 10000 }
    ensures digits { little_bytes 4 result ≡ padded 4 n }
    ensures size { result < 2 ^ 32 }
{
    pair_of(n / 100) + 65_536 * pair_of(n % 100)
}

/// Eight digits with leading zeros, the first in the lowest byte.
fn eight_digits(n: u64) -> u64
    requires { n < 100000000 }
    ensures { little_bytes 8 result ≡ padded 8 n }
{
    four_digits(n / 10_000) + 4_294_967_296 * four_digits(n % 10_000)
}

/// How many leading zeros the number has when it is written with four digits.
fn zeros_of_four(n: u64) -> usize
    requires { n < 10000 }
    ensures { result + length (decimal n) ≡ 4 }
{
    zeros_before(n as u32) - 1
}

/// Writes a number of at most four digits at `at`, and returns the position after it. Eight bytes
/// are overwritten in any case.
fn write_few(slot: &mut [u8], at: usize, n: u64) -> usize
    requires few { n < 10000 }
    requires room { at + 8 ≤ length slot.old }
    ensures text { take result slot.new ≡ take at slot.old ++ decimal n }
    ensures longest { result ≤ at + 8 }
{
    let zeros = zeros_of_four(n);
    LittleEndian::write_u64(&mut slot[at..], four_digits(n) >> (8 * zeros));
    at + (4 - zeros)
}

/// Writes a number of five to eight digits in the same way.
fn write_more(slot: &mut [u8], at: usize, n: u64) -> usize
    requires more { 10000 ≤ n }
    requires few { n < 100000000 }
    requires room { at + 8 ≤ length slot.old }
    ensures text { take result slot.new ≡ take at slot.old ++ decimal n }
    ensures longest { result ≤ at + 8 }
{
    let zeros = zeros_of_four(n / 10_000);
    LittleEndian::write_u64(&mut slot[at..], eight_digits(n) >> (8 * zeros));
    at + (8 - zeros)
}

/// Writes a number of at most eight digits at `at`, and returns the position after it. Eight bytes
/// are overwritten in any case.
pub(crate) fn write_front(slot: &mut [u8], at: usize, n: u64) -> usize
    requires few { n < 100000000 }
    requires room { at + 8 ≤ length slot.old }
    ensures text { take result slot.new ≡ take at slot.old ++ decimal n }
    ensures longest { result ≤ at + 8 }
{
    if n < 10_000 {
        write_few(slot, at, n)
    } else {
        write_more(slot, at, n)
    }
}

/// How many of four digits are left without trailing zeros.
fn shown_of_four(n: u64) -> usize
    requires { n < 10000 }
    ensures { IsShown 4 n result }
{
    if n % 100 != 0 {
        if n % 10 == 0 { 3 } else { 4 }
    } else if n != 0 {
        if n / 100 % 10 == 0 { 1 } else { 2 }
    } else {
        0
    }
}

/// How many of eight digits are left without trailing zeros.
fn shown_of_eight(n: u64) -> usize
    requires { n < 100000000 }
    ensures { IsShown 8 n result }
{
    let last = n % 10_000;
    if last == 0 {
        shown_of_four(n / 10_000)
    } else {
        4 + shown_of_four(last)
    }
}

/// Writes a point and four decimal places at `at`, and returns the position after the last digit
/// that isn't a trailing zero, or `at` if all are 0. Nine bytes are overwritten in any case.
fn write_four(slot: &mut [u8], at: usize, n: u64) -> usize
    requires few { n < 10000 }
    requires room { at + 9 ≤ length slot.old }
    ensures { WritesPlaces slot.old slot.new at result 4 n }
{
    slot[at] = b'.';
    LittleEndian::write_u64(&mut slot[at + 1..], four_digits(n));
    let shown = shown_of_four(n);
    if shown == 0 { at } else { at + 1 + shown }
}

/// Writes a point and eight decimal places in the same way.
fn write_eight(slot: &mut [u8], at: usize, n: u64) -> usize
    requires few { n < 100000000 }
    requires room { at + 9 ≤ length slot.old }
    ensures { WritesPlaces slot.old slot.new at result 8 n }
{
    slot[at] = b'.';
    LittleEndian::write_u64(&mut slot[at + 1..], eight_digits(n));
    let shown = shown_of_eight(n);
    if shown == 0 { at } else { at + 1 + shown }
}

/// Writes a point and sixteen decimal places, the last eight not all zeros, in the same way.
fn write_sixteen(slot: &mut [u8], at: usize, high: u64, low: u64) -> usize
    requires high { high < 100000000 }
    requires low { low < 100000000 }
    requires some { 0 < low }
    requires room { at + 17 ≤ length slot.old }
    ensures { WritesPlaces slot.old slot.new at result 16 (high * 100000000 + low) }
{
    slot[at] = b'.';
    LittleEndian::write_u64(&mut slot[at + 1..], eight_digits(high));
    LittleEndian::write_u64(&mut slot[at + 9..], eight_digits(low));
    at + 9 + shown_of_eight(low)
}

/// Writes a point and sixteen decimal places at `at`, and returns the position after the last digit
/// that isn't a trailing zero, or `at` if all are 0. At most 17 bytes are overwritten.
pub(crate) fn write_places(slot: &mut [u8], at: usize, n: u64) -> usize
    requires few { n < 10 ^ 16 }
    requires room { at + 17 ≤ length slot.old }
    ensures { WritesPlaces slot.old slot.new at result 16 n }
{
    if n % 1_000_000_000_000 == 0 {
        return write_four(slot, at, n / 1_000_000_000_000);
    }
    let high = n / 100_000_000;
    let low = n % 100_000_000;
    if low == 0 {
        write_eight(slot, at, high)
    } else {
        write_sixteen(slot, at, high, low)
    }
}
