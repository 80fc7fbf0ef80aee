ghost use Rattle.std.specs.Prelude.{◌≡◌, ◌≤◌, ◌<◌, ◌^◌, ℤ, pos, negsuc, ◌<ℤ◌, if◌then◌else◌, Some, None, ◌*◌, ◌++◌, position, option_map};
ghost use Rattle.std.specs.List.{before_first, after_first};
ghost use Rattle.std.specs.Option.{option_copied, SomeIff};
ghost use Rattle.comtrade_values.specs.Spelling.{Number, decimal_number, is_point, is_exponent_mark, exponent_text, exponent, shifted, number, IsNumber, capped, capped_size};

use crate::number::{LIMIT, capped_number, without_sign};
use std::marker::Model;

/// The decimal number units / 10^places. The units lie strictly between -10^36 and 10^36; there are
/// at most 80 places.
#[derive(Clone, Copy, Debug, Eq)]
pub struct Decimal {
    units: i128,
    places: u8,
}

impl Model for Decimal {
    ghost use Rattle.comtrade_values.specs.Spelling.{Number, IsNumber};

    ghost Value = { Number };

    ghost view = { λ d. record { units = d.units; places = d.places } };

    ghost invariant = { λ d. IsNumber (record { units = d.units; places = d.places }) };

    ghost inverse = { λ n. record { units = n.units; places = n.places } };
}

impl PartialEq for Decimal {
    ghost use Rattle.std.specs.Prelude.{◌≡◌};
    ghost use Rattle.std.specs.Bool.{Decides};
    ghost use Rattle.std.specs.Cmp.Rules.{comparing};
    ghost use Rattle.std.proofs.Common.{rules};
    ghost use Rattle.comtrade_values.specs.Spelling.{is_same};

    ghost eq = { is_same };

    ghost laws = { Prim.search (comparing, rules) };

    /// Whether units and places are equal: 1.5 is not equal to 1.50.
    fn eq(&self, other: &Decimal) -> bool
        ensures value { result ≡ is_same self.now other.now }
        ensures same { Decides result (self.now ≡ other.now) }
    {
        other.units == self.units && other.places == self.places
    }
}

impl Decimal {
    /// The units of the number units / 10^places, strictly between -10^36 and 10^36. The places are
    /// at most 80.
    pub fn units(&self) -> i128
        ensures value { result ≡ self.now.units }
        ensures lawful { IsNumber self.now }
    {
        self.units
    }

    /// The places of the number units / 10^places.
    pub fn places(&self) -> u8
        ensures { result ≡ self.now.places }
    {
        self.places
    }
}

/// The position of the first exponent mark (`e` or `E`).
fn place_of_mark(text: &[u8]) -> Option<usize>
    ensures { result ≡ position is_exponent_mark text.now }
{
    text.iter().position(|b| *b == b'e' || *b == b'E')
}

/// The position of the first point.
fn place_of_point(text: &[u8]) -> Option<usize>
    ensures { result ≡ position is_point text.now }
{
    text.iter().position(|b| *b == b'.')
}

/// The text before the exponent mark, and the text after it, if there is a mark.
#[tactic(auto, using(crate::proofs::Cuts::cuts))]
fn at_exponent(text: &[u8]) -> (&[u8], Option<&[u8]>)
    ensures front { result.0.now ≡ before_first is_exponent_mark text.now }
    ensures rest { option_copied result.1 ≡ exponent_text text.now }
{
    match place_of_mark(text) {
        None => (text, None),
        Some(at) => (&text[..at], Some(&text[at + 1..])),
    }
}

/// The text before the point, and the text after it, which is empty if there is no point.
#[tactic(auto, using(crate::proofs::Cuts::cuts))]
fn at_point(text: &[u8]) -> (&[u8], &[u8])
    ensures front { result.0.now ≡ before_first is_point text.now }
    ensures rest { result.1.now ≡ after_first is_point text.now }
{
    match place_of_point(text) {
        None => (text, &[]),
        Some(at) => (&text[..at], &text[at + 1..]),
    }
}

/// The number of the digits before and after the point, capped at 10^36. None if there are no
/// digits, or if a byte is not a digit.
fn number_at(whole: &[u8], fraction: &[u8]) -> Option<u128>
    ensures { result ≡ capped_size (whole.now ++ fraction.now) }
{
    if whole.len() + fraction.len() == 0 {
        return None;
    }
    let number = capped_number(0, whole)?;
    capped_number(number, fraction)
}

/// The number that the digits spell, capped at 10^36. None if there are no digits, or if a byte is
/// not a digit.
pub fn numeral_of(digits: &[u8]) -> Option<u128>
    ensures { result ≡ capped_size digits.now }
{
    if digits.is_empty() {
        return None;
    }
    capped_number(0, digits)
}

/// The exponent after the mark: whether it has a minus sign, and its size, capped at 10^36. It is 0
/// if there is no mark; None if it can't be read.
fn exponent_of(text: Option<&[u8]>) -> Option<(bool, u128)>
    ensures { result ≡ option_map capped (exponent (option_copied text.entry)) }
{
    let Some(text) = text else {
        return Some((false, 0));
    };
    let (down, digits) = without_sign(text);
    if digits.is_empty() {
        return None;
    }
    Some((down, capped_number(0, digits)?))
}

/// The decimal digits / 10^places * 10^exponent; None if a [`Decimal`] can't hold it.
fn number_of(minus: bool, digits: u128, places: usize, exponent: (bool, u128)) -> Option<Decimal>
    requires digits { digits ≤ 10 ^ 36 }
    requires exponent { exponent.1 ≤ 10 ^ 36 }
    ensures { result ≡ number minus (shifted digits places exponent) }
{
    let places = places as u128;
    let (zeros, places) = if exponent.0 {
        (0, places + exponent.1)
    } else {
        (
            exponent.1.saturating_sub(places),
            places.saturating_sub(exponent.1),
        )
    };
    if 80 < places {
        return None;
    }
    let units = with_zeros(digits, zeros)? as i128;
    Some(Decimal {
        units: if minus { -units } else { units },
        places: places as u8,
    })
}

/// The number followed by this many zeros; None if that is 10^36 or more.
fn with_zeros(number: u128, zeros: u128) -> Option<u128>
    ensures { SomeIff result (number * 10 ^ zeros < 10 ^ 36) (number * 10 ^ zeros) }
{
    if number == 0 {
        return Some(0);
    }
    if 36 <= zeros {
        return None;
    }
    number
        .checked_mul(10u128.pow(zeros as u32))
        .filter(|n| *n < LIMIT)
}

impl Decimal {
    /// Reads a decimal: an optional sign, digits with at most one point, and an optional exponent.
    /// There must be at least one digit before the exponent. None if the text is spelled otherwise
    /// or a [`Decimal`] can't hold the number. Blanks aren't trimmed.
    pub fn read(text: &[u8]) -> Option<Decimal>
        ensures { result ≡ decimal_number text.now }
    {
        let (front, exponent) = at_exponent(text);
        let (minus, digits) = without_sign(front);
        let (whole, fraction) = at_point(digits);
        let number = number_at(whole, fraction)?;
        let exponent = exponent_of(exponent)?;
        number_of(minus, number, fraction.len(), exponent)
    }

    /// The decimal units / 10^places; None unless the units lie strictly between -10^36 and 10^36
    /// and the places are at most 80.
    pub fn new(units: i128, places: u8) -> Option<Decimal>
        ensures { SomeIff result (IsNumber (record { units = units; places = places })) (record { units = units; places = places }) }
    {
        if -(LIMIT as i128) < units && units < LIMIT as i128 && places <= 80 {
            Some(Decimal { units, places })
        } else {
            None
        }
    }
}

/// A decimal has units strictly between -10^36 and 10^36, and at most 80 places. This function
/// computes nothing: its contract states the bounds.
pub fn decimal_is_number(decimal: Decimal)
    ensures { IsNumber decimal }
{
    let _units = decimal.units();
}
