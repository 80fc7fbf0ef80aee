//! Exact arithmetic of decimals, and the value a·x + b of a sample.

ghost use Rattle.std.specs.Prelude.{◌≡◌, ◌≢◌, ◌+◌, ◌<◌, ◌≤◌, ◌^◌, ◌*ℤ◌, pos, FitsSigned, IfNone, IfSome};
ghost use Rattle.std.specs.Int.{w128};
ghost use Rattle.std.specs.Int.RustNames.{int_rem};
ghost use Rattle.std.specs.Option.{SomeIff};
ghost use Rattle.comtrade_values.specs.Spelling.{IsNumber};
ghost use Rattle.comtrade_values.specs.Arithmetic as spec;

use crate::Decimal;

fn short_product(x: i64, y: i64) -> i128
    ensures fits { FitsSigned w128 (x *ℤ y) }
    ensures value { result ≡ x *ℤ y }
{
    x as i128 * y as i128
}

/// The product; None if it exceeds 128 bits. Most numbers fit in 64 bits, and the product of two
/// such numbers in 128.
fn times(one: i128, other: i128) -> Option<i128>
    ensures { SomeIff result (FitsSigned w128 (one *ℤ other)) (one *ℤ other) }
{
    if let Ok(x) = i64::try_from(one) {
        if let Ok(y) = i64::try_from(other) {
            return Some(short_product(x, y));
        }
    }
    one.checked_mul(other)
}

/// The number times a sample; None if the result has more than 36 digits.
fn product(number: Decimal, sample: i32) -> Option<Decimal>
    ensures { SomeIff result (IsNumber (spec.times number sample)) (spec.times number sample) }
{
    let units = times(number.units(), sample as i128)?;
    Decimal::new(units, number.places())
}

/// 10^zeros; `zeros` is at most 35.
fn power(zeros: u8) -> i128
    requires { zeros < 36 }
    ensures { result ≡ pos (10 ^ zeros) }
{
    10i128.pow(zeros as u32)
}

/// The same number with `places` decimal places; None if it then has more than 36 digits or
/// 80 places.
pub fn with_places(number: Decimal, places: u8) -> Option<Decimal>
    requires { number.places ≤ places }
    ensures { let longer = spec.with_places places number in
        SomeIff result (IsNumber longer) longer }
{
    let zeros = places - number.places();
    if zeros == 0 {
        return Some(number);
    }
    if number.units() == 0 {
        return Decimal::new(0, places);
    }
    if 36 <= zeros {
        return None;
    }
    let units = times(number.units(), power(zeros))?;
    Decimal::new(units, places)
}

/// The value a·x + b of a sample x, exactly, with the decimal places of the finer of a and b. None
/// if a·x, b or the sum then has more than 36 digits.
pub fn exact_value(a: Decimal, b: Decimal, sample: i32) -> Option<Decimal>
    ensures { SomeIff result (spec.IsShort a b sample) (spec.value a b sample) }
{
    let places = a.places().max(b.places());
    let product = with_places(product(a, sample)?, places)?;
    let offset = with_places(b, places)?;
    Decimal::new(product.units() + offset.units(), places)
}

/// A tenth of an integer; None if its last digit isn't 0. Most fit in 64 bits, where division
/// is faster.
fn tenth_of(units: i128) -> Option<i128>
    ensures none { IfNone result (int_rem units (pos 10) ≢ pos 0) }
    ensures some { IfSome result (λ tenth. tenth *ℤ pos 10 ≡ units) }
{
    if let Ok(short) = i64::try_from(units) {
        return if short % 10 == 0 {
            Some((short / 10) as i128)
        } else {
            None
        };
    }
    if units % 10 == 0 {
        Some(units / 10)
    } else {
        None
    }
}

/// The same number with one place fewer; None if it has no places or its last digit isn't 0.
fn shortened(number: Decimal) -> Option<Decimal>
    ensures none { IfNone result (spec.HasNoZero number) }
    ensures same { IfSome result (λ n. spec.with_places number.places n ≡ number) }
    ensures fewer { IfSome result (λ n. n.places + 1 ≡ number.places) }
{
    if number.places() == 0 {
        return None;
    }
    let tenth = tenth_of(number.units())?;
    Decimal::new(tenth, number.places() - 1)
}

/// The same number without trailing zeros in its decimal places.
pub fn without_zeros(number: Decimal) -> Decimal
    ensures { spec.IsTrimmed number result }
{
    let mut trimmed = number;
    while let Some(shorter) = shortened(trimmed) {
        trimmed = shorter;
    }
    trimmed
}
