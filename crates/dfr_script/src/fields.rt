//! Reads the fields of a line, one by one. A field that can't be read has the fault `Number`.

ghost use Rattle.std.specs.Prelude.{◌≡◌, IfOk, IfErr, length, ◌<◌};
ghost use Rattle.comtrade_values.specs.Lines.{texts, field};
ghost use Rattle.comtrade_values.specs.Spelling.{decimal_number};
ghost use Rattle.comtrade_values.specs.Fields as shared;
ghost use Rattle.dfr_channels.specs.LineFields as line_fields;
ghost use Rattle.dfr_script.specs.Fields as spec;
ghost use Rattle.dfr_script.specs.Faults.{Field, OnlyMemory};

use crate::fault::{LineFault, LineRefusal};
use comtrade_values::{Decimal, Items, free_bit_of, free_scale_of, integer_of};
use dfr_channels::{Side, side_of};
use std::alloc::Allocator;

/// The value that was read, or the fault `Number` if there is none.
pub(crate) fn needed<T>(read: Option<T>) -> Result<T, LineRefusal>
    ensures { Field read result }
{
    match read {
        Some(value) => Ok(value),
        None => Err(LineRefusal::Fault(LineFault::Number)),
    }
}

/// Reads a whole number that fits an i32; None otherwise.
#[tactic(auto, unfolding(crate::specs::Fields::small))]
pub(crate) fn small_of(text: &[u8]) -> Option<i32>
    ensures { result ≡ spec.small text.now }
{
    match integer_of(text) {
        Some(n) if i32::MIN as i128 <= n && n <= i32::MAX as i128 => Some(n as i32),
        _ => None,
    }
}

/// Reads a whole number that fits a u32; None otherwise.
#[tactic(auto, unfolding(crate::specs::Fields::natural))]
pub(crate) fn natural_of(text: &[u8]) -> Option<u32>
    ensures { result ≡ spec.natural text.now }
{
    comtrade_values::natural_of(text)
}

/// Reads a whole number that fits an i64; None otherwise.
#[tactic(auto, unfolding(crate::specs::Fields::instant))]
pub(crate) fn instant_of(text: &[u8]) -> Option<i64>
    ensures { result ≡ spec.instant text.now }
{
    match integer_of(text) {
        Some(n) if i64::MIN as i128 <= n && n <= i64::MAX as i128 => Some(n as i64),
        _ => None,
    }
}

/// Reads field `i`, from 0, as a decimal.
pub(crate) fn scale_at(fields: &[&[u8]], i: usize) -> Result<Decimal, LineRefusal>
    requires { i < length fields.now }
    ensures { Field (decimal_number (field (texts fields.now) i)) result }
{
    needed(Decimal::read(fields[i]))
}

/// Reads field `i`, from 0, as a decimal; 0 if it is empty.
pub(crate) fn free_scale_at(fields: &[&[u8]], i: usize) -> Result<Decimal, LineRefusal>
    requires { i < length fields.now }
    ensures { Field (shared.free_scale (field (texts fields.now) i)) result }
{
    needed(free_scale_of(fields[i]))
}

/// Reads field `i`, from 0, as a whole number that fits an i32.
pub(crate) fn small_at(fields: &[&[u8]], i: usize) -> Result<i32, LineRefusal>
    requires { i < length fields.now }
    ensures { Field (spec.small (field (texts fields.now) i)) result }
{
    needed(small_of(fields[i]))
}

/// Reads field `i`, from 0, as a whole number that fits a u32.
pub(crate) fn natural_at(fields: &[&[u8]], i: usize) -> Result<u32, LineRefusal>
    requires { i < length fields.now }
    ensures { Field (spec.natural (field (texts fields.now) i)) result }
{
    needed(natural_of(fields[i]))
}

/// Reads field `i`, from 0, as 0 or 1; 0 if it is empty.
pub(crate) fn free_bit_at(fields: &[&[u8]], i: usize) -> Result<bool, LineRefusal>
    requires { i < length fields.now }
    ensures { Field (shared.free_bit (field (texts fields.now) i)) result }
{
    needed(free_bit_of(fields[i]))
}

/// Reads field `i`, from 0, as a side: P or S, in upper or lower case.
pub(crate) fn side_at(fields: &[&[u8]], i: usize) -> Result<Side, LineRefusal>
    requires { i < length fields.now }
    ensures { Field (line_fields.side (field (texts fields.now) i)) result }
{
    needed(side_of(fields[i]))
}

/// The bytes of field `i`, from 0. Only an allocation can fail.
pub(crate) fn text_at<A: Allocator>(
    alloc: A,
    fields: &[&[u8]],
    i: usize,
) -> Result<Items<u8, A>, LineRefusal>
    requires { i < length fields.now }
    ensures ok { IfOk result (λ x. x ≡ field (texts fields.now) i) }
    ensures memory { IfErr result OnlyMemory }
{
    text_of(alloc, fields[i])
}

/// A copy of a text's bytes. Only an allocation can fail.
pub(crate) fn text_of<A: Allocator>(alloc: A, text: &[u8]) -> Result<Items<u8, A>, LineRefusal>
    ensures ok { IfOk result (λ x. x ≡ text.now) }
    ensures memory { IfErr result OnlyMemory }
{
    Ok(Items::of(Vec::from_slice(alloc, text)?))
}
