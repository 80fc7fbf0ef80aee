//! Reads single fields of a line.

ghost use Rattle.std.specs.Prelude.{◌≡◌, ◌<◌, ◌+◌, ◌^◌, length, pos, negsuc, IfOk, IfErr, IfSome, ◌≤◌, ◌≤ℤ◌, Some, Ok};
ghost use Rattle.std.specs.Option.{option_copied};
ghost use Rattle.comtrade_read.specs.declared.fault.ReadFault.TheVariants as faults;
ghost use Rattle.comtrade_values.specs.Lines.{texts, field};
ghost use Rattle.comtrade_values.specs.Fields as shared;
ghost use Rattle.dfr_channels.specs.LineFields as line_fields;
ghost use Rattle.comtrade_read.specs.Fields as spec;
ghost use Rattle.comtrade_read.specs.Head as head;
ghost use Rattle.comtrade_read.specs.Inner.LineFaults.{GivesField};

use crate::fault::ReadFault;
use comtrade_format::Kind;
use comtrade_values::{Decimal, Items, integer_of};
use dfr_channels::Side;
use std::alloc::Allocator;

/// The value that was read, or the `Number` error of field `i`, which counts from 0.
pub(crate) fn needed<T>(read: Option<T>, line: u64, i: u32) -> Result<T, ReadFault>
    requires { i + 1 < 2 ^ 32 }
    ensures { GivesField read (faults.Number line (i + 1)) result }
{
    match read {
        Some(value) => Ok(value),
        None => Err(ReadFault::Number(line, i + 1)),
    }
}

/// The number, if it is from 0 to `high`.
pub(crate) fn up_to(high: u64, number: Option<i128>) -> Option<u64>
    ensures value { result ≡ shared.up_to high number }
    ensures bound { IfSome result (λ n. n ≤ high) }
{
    match number {
        Some(number) if 0 <= number && number <= high as i128 => Some(number as u64),
        _ => None,
    }
}

/// Reads an integer.
#[tactic(auto, unfolding(crate::specs::Fields::whole))]
pub(crate) fn whole_of(line: u64, fields: &[&[u8]], i: u32) -> Result<i128, ReadFault>
    requires small { i + 1 < 2 ^ 32 }
    requires in_line { i < length fields.now }
    ensures { GivesField (spec.whole (field (texts fields.now) i)) (faults.Number line (i + 1)) result }
{
    needed(integer_of(fields[i as usize]), line, i)
}

/// The integer from 0 to `high` that the text spells.
#[tactic(auto, unfolding(crate::specs::Fields::natural))]
pub(crate) fn natural(text: &[u8], high: u64) -> Option<u64>
    ensures value { result ≡ spec.natural high text.now }
    ensures bound { IfSome result (λ n. n ≤ high) }
{
    up_to(high, integer_of(text))
}

/// Reads an integer from 0 to `high`.
pub(crate) fn natural_of(line: u64, fields: &[&[u8]], i: u32, high: u64) -> Result<u64, ReadFault>
    requires small { i + 1 < 2 ^ 32 }
    requires in_line { i < length fields.now }
    ensures value { GivesField (spec.natural high (field (texts fields.now) i)) (faults.Number line (i + 1)) result }
    ensures bound { IfOk result (λ n. n ≤ high) }
{
    needed(natural(fields[i as usize], high), line, i)
}

/// The number, if it is from -99,999 to 99,999.
pub(crate) fn within(number: Option<i128>) -> Option<i32>
    ensures { result ≡ shared.within (negsuc 99998) (pos 99999) number }
{
    match number {
        Some(number) if -99_999 <= number && number <= 99_999 => Some(number as i32),
        _ => None,
    }
}

/// Reads an integer from -99,999 to 99,999.
#[tactic(auto, unfolding(crate::specs::Fields::small))]
pub(crate) fn small_of(line: u64, fields: &[&[u8]], i: u32) -> Result<i32, ReadFault>
    requires small { i + 1 < 2 ^ 32 }
    requires in_line { i < length fields.now }
    ensures { GivesField (spec.small (field (texts fields.now) i)) (faults.Number line (i + 1)) result }
{
    needed(within(integer_of(fields[i as usize])), line, i)
}

/// Reads a decimal.
#[tactic(auto, unfolding(crate::specs::Fields::scale))]
pub(crate) fn scale_of(line: u64, fields: &[&[u8]], i: u32) -> Result<Decimal, ReadFault>
    requires small { i + 1 < 2 ^ 32 }
    requires in_line { i < length fields.now }
    ensures { GivesField (spec.scale (field (texts fields.now) i)) (faults.Number line (i + 1)) result }
{
    needed(Decimal::read(fields[i as usize]), line, i)
}

/// Reads a decimal; an empty field is 0.
pub(crate) fn free_scale_of(line: u64, fields: &[&[u8]], i: u32) -> Result<Decimal, ReadFault>
    requires small { i + 1 < 2 ^ 32 }
    requires in_line { i < length fields.now }
    ensures { GivesField (shared.free_scale (field (texts fields.now) i)) (faults.Number line (i + 1)) result }
{
    needed(comtrade_values::free_scale_of(fields[i as usize]), line, i)
}

/// The text before this letter at its end, in upper or lower case.
fn before_letter(text: &[u8], letter: u8) -> Option<&[u8]>
    requires { letter < 128 }
    ensures { option_copied result ≡ spec.before_letter letter text.now }
{
    match text {
        [front @ .., last] if *last == letter || *last == letter + 32 => Some(front),
        _ => None,
    }
}

/// The number of channels in a text that ends with this letter.
#[tactic(auto, unfolding(crate::specs::Fields::count))]
fn count(text: &[u8], letter: u8) -> Option<u64>
    requires { letter < 128 }
    ensures value { result ≡ spec.count letter text.now }
    ensures bound { IfSome result (λ n. n < 1000000) }
{
    let front = before_letter(text, letter)?;
    up_to(999_999, integer_of(front))
}

/// Reads a number of channels, followed directly by its letter.
pub(crate) fn count_of(line: u64, fields: &[&[u8]], i: u32, letter: u8) -> Result<u64, ReadFault>
    requires small { i + 1 < 2 ^ 32 }
    requires in_line { i < length fields.now }
    requires letter { letter < 128 }
    ensures value { GivesField (spec.count letter (field (texts fields.now) i)) (faults.Number line (i + 1)) result }
    ensures bound { IfOk result (λ n. n < 1000000) }
{
    needed(count(fields[i as usize], letter), line, i)
}

/// Reads the side of the transformer that the values are of.
pub(crate) fn side_of(line: u64, fields: &[&[u8]], i: u32) -> Result<Side, ReadFault>
    requires small { i + 1 < 2 ^ 32 }
    requires in_line { i < length fields.now }
    ensures { GivesField (line_fields.side (field (texts fields.now) i)) (faults.Number line (i + 1)) result }
{
    needed(dfr_channels::side_of(fields[i as usize]), line, i)
}

/// Reads 0 or 1; an empty field is 0.
pub(crate) fn free_bit_of(line: u64, fields: &[&[u8]], i: u32) -> Result<bool, ReadFault>
    requires small { i + 1 < 2 ^ 32 }
    requires in_line { i < length fields.now }
    ensures { GivesField (shared.free_bit (field (texts fields.now) i)) (faults.Number line (i + 1)) result }
{
    needed(comtrade_values::free_bit_of(fields[i as usize]), line, i)
}

/// The data type that the text names, in upper or lower case.
#[tactic(auto, unfolding(crate::specs::Head::kind))]
fn kind(text: &[u8]) -> Option<Kind>
    ensures { result ≡ head.kind text.now }
{
    if text.eq_ignore_ascii_case(b"ASCII") {
        Some(Kind::Ascii)
    } else if text.eq_ignore_ascii_case(b"BINARY") {
        Some(Kind::Binary)
    } else {
        None
    }
}

/// Reads the data type.
pub(crate) fn kind_of(fields: &[&[u8]]) -> Result<Kind, ReadFault>
    requires { 0 < length fields.now }
    ensures { GivesField (head.kind (field (texts fields.now) 0)) faults.Kind result }
{
    match kind(fields[0]) {
        Some(kind) => Ok(kind),
        None => Err(ReadFault::Kind),
    }
}

/// Copies the bytes of a field.
pub(crate) fn text_of<A: Allocator>(
    alloc: A,
    fields: &[&[u8]],
    i: u32,
) -> Result<Items<u8, A>, ReadFault>
    requires { i < length fields.now }
    ensures ok { IfOk result (λ x. x ≡ field (texts fields.now) i) }
    ensures memory { IfErr result (λ e. e ≡ faults.Memory) }
{
    Ok(Items::of(Vec::from_slice(alloc, fields[i as usize])?))
}
