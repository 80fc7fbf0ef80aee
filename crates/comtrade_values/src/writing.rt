//! Appends texts and numbers to a buffer. `AllocError`: an allocation failed; part of the text may
//! then have been appended.

ghost use Rattle.std.specs.Prelude.{◌≡◌, ◌++◌, ◌∷◌, ◌==◌, [], OnOk, decimal, if◌then◌else◌};
ghost use Rattle.std.specs.List.{repeat};
ghost use Rattle.comtrade_values.specs.Written.{padded, pointed, decimal_text};

use crate::{Decimal, Exact};
use itoa::{Buffer, Integer};
use std::alloc::{AllocError, Allocator};

/// Appends a text.
pub fn put<A: Allocator>(out: &mut Vec<u8, A>, text: &str) -> Result<(), AllocError>
    ensures { OnOk result (out.new.items ≡ out.old.items ++ text.now) }
{
    out.extend_from_slice(text.as_bytes())
}

/// Appends an integer in decimal.
pub fn put_number<A: Allocator, I: Integer>(out: &mut Vec<u8, A>, n: I) -> Result<(), AllocError>
    ensures { OnOk result (out.new.items ≡ out.old.items ++ I.text n) }
{
    out.extend_from_slice(Buffer::new().format(n).as_bytes())
}

/// Appends a text, then a number in decimal.
pub fn put_with<A: Allocator>(out: &mut Vec<u8, A>, text: &str, n: u64) -> Result<(), AllocError>
    ensures { OnOk result (out.new.items ≡ out.old.items ++ (text.now ++ decimal n)) }
{
    put(out, text)?;
    put_number(out, n)
}

/// Appends one text, then the other.
pub fn put_both<A: Allocator>(
    out: &mut Vec<u8, A>,
    front: &str,
    back: &str,
) -> Result<(), AllocError>
    ensures { OnOk result (out.new.items ≡ out.old.items ++ (front.now ++ back.now)) }
{
    put(out, front)?;
    put(out, back)
}

/// Appends a number and its noun, in the singular or the plural.
pub fn put_count<A: Allocator>(
    out: &mut Vec<u8, A>,
    n: u64,
    one: &str,
    more: &str,
) -> Result<(), AllocError>
    ensures { OnOk result (out.new.items ≡ out.old.items ++ decimal n ++ (if n == 1 then one.now else more.now)) }
{
    put_number(out, n)?;
    put(out, if n == 1 { one } else { more })
}

fn put_zeros<A: Allocator>(out: &mut Vec<u8, A>, n: usize) -> Result<(), AllocError>
    ensures { OnOk result (out.new.items ≡ out.old.items ++ repeat n (48 ∷ [])) }
{
    for _ in 0..n {
        out.push(b'0')?;
    }
    Ok(())
}

/// Appends a number with leading zeros, in at least `width` digits.
#[tactic(auto, unfolding(crate::specs::Written::padded, crate::specs::Written::filled))]
pub fn put_padded<A: Allocator>(
    out: &mut Vec<u8, A>,
    n: u64,
    width: usize,
) -> Result<(), AllocError>
    ensures { OnOk result (out.new.items ≡ out.old.items ++ padded width n) }
{
    let mut buffer = Buffer::new();
    let digits = buffer.format(n).as_bytes();
    put_zeros(out, width.saturating_sub(digits.len()))?;
    out.extend_from_slice(digits)
}

/// Writes the digits with a point before the last `places` of them, and at least one digit before
/// the point. Without places there is no point.
fn put_pointed<A: Allocator>(
    out: &mut Vec<u8, A>,
    digits: &[u8],
    places: usize,
) -> Result<(), AllocError>
    ensures { OnOk result (out.new.items ≡ out.old.items ++ pointed places digits.now) }
{
    if places == 0 {
        return out.extend_from_slice(digits);
    }
    if places < digits.len() {
        let (front, back) = digits.split_at(digits.len() - places);
        out.extend_from_slice(front)?;
        out.push(b'.')?;
        return out.extend_from_slice(back);
    }
    out.push(b'0')?;
    out.push(b'.')?;
    put_zeros(out, places - digits.len())?;
    out.extend_from_slice(digits)
}

/// Appends a decimal as the configuration file writes it (C37.111-1999, clause 5). The text is a
/// minus sign for a negative number, then the digits with a point before the last `places` of them.
/// At least one digit precedes the point.
pub fn put_decimal<A: Allocator>(out: &mut Vec<u8, A>, d: Decimal) -> Result<(), AllocError>
    ensures { OnOk result (out.new.items ≡ out.old.items ++ decimal_text d) }
{
    let units = d.units();
    if units < 0 {
        out.push(b'-')?;
    }
    let mut buffer = Buffer::new();
    let digits = buffer.format(units.unsigned_abs());
    put_pointed(out, digits.as_bytes(), d.places() as usize)
}

/// Appends a number without an exponent, and without trailing zeros after the point.
pub fn put_exact<A: Allocator>(out: &mut Vec<u8, A>, number: Exact) -> Result<(), AllocError> {
    let mut number = number;
    for _ in 0..120 {
        if number.places <= 0 || number.units % 10 != 0 {
            break;
        }
        number = Exact {
            units: number.units / 10,
            places: number.places.saturating_sub(1),
        };
    }
    if number.units < 0 {
        out.push(b'-')?;
    }
    let mut buffer = Buffer::new();
    let digits = buffer.format(number.units.unsigned_abs()).as_bytes();
    let places = number.places.unsigned_abs() as usize;
    if 0 < number.places {
        return put_pointed(out, digits, places);
    }
    out.extend_from_slice(digits)?;
    if number.units == 0 {
        return Ok(());
    }
    put_zeros(out, places)
}
