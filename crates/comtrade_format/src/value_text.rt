//! Writes the value fields of ASCII data at a position in a buffer (C37.111-1999, clause 6).

ghost use Rattle.std.specs.Prelude.{◌≡◌, ◌++◌, ◌∷◌, [], ◌+◌, ◌*◌, ◌/◌, ◌%◌, ◌<◌, ◌≤◌, true, if◌then◌else◌, unsigned_abs, length, take, decimal};
ghost use Rattle.std.specs.Fmt.{signed_decimal};
ghost use Rattle.byteorder.specs.Endian.{little_bytes};
ghost use Rattle.comtrade_values.specs.Written.{padded};
ghost use Rattle.comtrade_format.specs.Ascii.{reading_text};
ghost use Rattle.comtrade_format.specs.Refusals.{ascii_bounds, takes_reading};

use byteorder::{ByteOrder, LittleEndian};
use dfr_channels::Reading;

/// The two digits of each number below 100, the first in the lower byte.
const PAIRS: [u16; 100] = [
    0x3030, 0x3130, 0x3230, 0x3330, 0x3430, 0x3530, 0x3630, 0x3730, 0x3830, 0x3930, 0x3031, 0x3131,
    0x3231, 0x3331, 0x3431, 0x3531, 0x3631, 0x3731, 0x3831, 0x3931, 0x3032, 0x3132, 0x3232, 0x3332,
    0x3432, 0x3532, 0x3632, 0x3732, 0x3832, 0x3932, 0x3033, 0x3133, 0x3233, 0x3333, 0x3433, 0x3533,
    0x3633, 0x3733, 0x3833, 0x3933, 0x3034, 0x3134, 0x3234, 0x3334, 0x3434, 0x3534, 0x3634, 0x3734,
    0x3834, 0x3934, 0x3035, 0x3135, 0x3235, 0x3335, 0x3435, 0x3535, 0x3635, 0x3735, 0x3835, 0x3935,
    0x3036, 0x3136, 0x3236, 0x3336, 0x3436, 0x3536, 0x3636, 0x3736, 0x3836, 0x3936, 0x3037, 0x3137,
    0x3237, 0x3337, 0x3437, 0x3537, 0x3637, 0x3737, 0x3837, 0x3937, 0x3038, 0x3138, 0x3238, 0x3338,
    0x3438, 0x3538, 0x3638, 0x3738, 0x3838, 0x3938, 0x3039, 0x3139, 0x3239, 0x3339, 0x3439, 0x3539,
    0x3639, 0x3739, 0x3839, 0x3939,
];

/// The two digits of a number, the first in the lower byte.
pub(crate) fn pair_of(n: u64) -> u64
    requires { n < 100 }
    ensures { result ≡ (48 + n / 10) + 256 * (48 + n % 10) }
{
    PAIRS[n as usize] as u64
}

/// Five digits with leading zeros, the first in the lowest byte.
fn five_digits(n: u32) -> u64
    requires { n < 100000 }
    ensures { little_bytes 5 result ≡ padded 5 n }
{
    let n = n as u64;
    let high = pair_of(n / 100 % 100);
    let low = pair_of(n % 100);
    (48 + n / 10_000) + 256 * high + 16_777_216 * low
}

/// How many leading zeros the number has when it is written with five digits.
pub(crate) fn zeros_before(n: u32) -> usize
    requires { n < 100000 }
    ensures five { result + length (decimal n) ≡ 5 }
    ensures some { n < 10000 → 0 < result }
{
    if n < 10 {
        4
    } else if n < 100 {
        3
    } else if n < 1000 {
        2
    } else if n < 10_000 {
        1
    } else {
        0
    }
}

/// Writes a number's digits at `at`, and returns the position after them. Eight bytes are
/// overwritten in any case.
fn write_digits(slot: &mut [u8], at: usize, n: u32) -> usize
    requires few { n < 100000 }
    requires room { at + 8 ≤ length slot.old }
    ensures text { take result slot.new ≡ take at slot.old ++ decimal n }
    ensures longest { result ≤ at + 5 }
{
    let zeros = zeros_before(n);
    LittleEndian::write_u64(&mut slot[at..], five_digits(n) >> (8 * zeros));
    at + (5 - zeros)
}

/// Writes a comma at `at`, and a minus sign if the number is negative. Returns the position after
/// them. Two bytes are overwritten in any case.
fn write_mark(slot: &mut [u8], at: usize, is_below: bool) -> usize
    requires { at + 2 ≤ length slot.old }
    ensures text { take result slot.new ≡ take at slot.old ++ 44 ∷ (if is_below then 45 ∷ [] else []) }
    ensures longest { result ≤ at + 2 }
{
    LittleEndian::write_u16(&mut slot[at..], 0x2D2C);
    if is_below { at + 2 } else { at + 1 }
}

/// The number written for a reading; 99,999 means missing.
fn value_of(reading: Reading) -> i32
    requires { takes_reading ascii_bounds reading ≡ true }
    ensures text { signed_decimal result ≡ reading_text reading }
    ensures few { unsigned_abs result < 100000 }
{
    match reading {
        Reading::Value(x) => x,
        Reading::Missing => 99_999,
    }
}

/// Writes a comma and a reading at `at`, and returns the position after them.
pub(crate) fn write_reading(slot: &mut [u8], at: usize, reading: Reading) -> usize
    requires taken { takes_reading ascii_bounds reading ≡ true }
    requires room { at + 10 ≤ length slot.old }
    ensures text { take result slot.new ≡ take at slot.old ++ 44 ∷ reading_text reading }
    ensures longest { result ≤ at + 7 }
{
    let value = value_of(reading);
    let start = write_mark(slot, at, value < 0);
    write_digits(slot, start, value.unsigned_abs())
}
