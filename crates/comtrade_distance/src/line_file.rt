//! The file of a line: its length, its impedances and the ratios of the transformers, as TOML.

ghost use Rattle.std.specs.Prelude.{◌≡◌, IfOk, Some};
ghost use Rattle.toml.specs.View.{view};
ghost use Rattle.comtrade_distance.specs.LineFiles as spec;

use crate::line::Line;
use comtrade_analysis::Phasor;
use std::alloc::Global;
use std::num::nearest_i64_to_f64;
use thiserror::Error;
use toml::{Value, table_from_str};

/// A line as its file tells it.
#[derive(Clone, Copy, Debug)]
pub struct LineData {
    /// The impedances of the whole line, on the primary side.
    pub line: Line,
    /// Its length in kilometres.
    pub length: f64,
    /// How many primary volts a secondary one is, and how many primary amperes a secondary one, in
    /// place of the ratios of a record.
    pub voltage_ratio: Option<f64>,
    pub current_ratio: Option<f64>,
}

/// Why a file tells no line.
#[derive(Clone, Copy, Debug, Error)]
pub enum LineFault {
    #[error("out of memory")]
    Memory,
    /// It is no TOML.
    #[error("{0}")]
    Text(toml::de::Error),
    #[error("{0} is missing; expected length, r1, x1, r0 and x0")]
    Missing(&'static str),
    #[error("{0} is not a number")]
    NotNumber(&'static str),
    #[error("{0} is negative")]
    Negative(&'static str),
    /// Of a length, a reactance or a ratio.
    #[error("{0} is 0; expected more")]
    Zero(&'static str),
    #[error("{0} is too large; expected at most 1000000")]
    Great(&'static str),
    #[error("a key is not known; expected length, r1, x1, r0, x0, voltage_ratio and current_ratio")]
    Unknown,
}

/// The greatest number.
const MOST: f64 = 1_000_000.0;

/// The number of a value: 5 is 5.0. None where it is none.
fn number_of(value: &Value) -> Option<f64>
    ensures { result ≡ spec.number (view value.now) }
{
    match value.as_integer() {
        Some(number) => Some(nearest_i64_to_f64(number)),
        None => value.as_float(),
    }
}

/// A number of a line: 0 or more, and at most the greatest one.
fn checked(key: &'static str, number: f64) -> Result<f64, LineFault>
    ensures { result ≡ spec.checked key.entry number }
{
    if number.is_nan() {
        Err(LineFault::NotNumber(key))
    } else if number < 0.0 {
        Err(LineFault::Negative(key))
    } else if MOST < number {
        Err(LineFault::Great(key))
    } else {
        Ok(number)
    }
}

/// The number at a key.
fn number_at(document: &Value, key: &'static str) -> Result<f64, LineFault>
    ensures value { result ≡ spec.number_at key.entry (view document.now) }
    ensures told { IfOk result (λ x. spec.number_in key.entry.now (view document.now) ≡ Some x) }
{
    match document.get(key) {
        None => Err(LineFault::Missing(key)),
        Some(value) => match number_of(value) {
            Some(number) => checked(key, number),
            None => Err(LineFault::NotNumber(key)),
        },
    }
}

/// A length, a reactance or a ratio: over 0.
fn sized(key: &'static str, number: f64) -> Result<f64, LineFault>
    ensures { result ≡ spec.sized key.entry number }
{
    if 0.0 < number {
        Ok(number)
    } else {
        Err(LineFault::Zero(key))
    }
}

/// The length or the reactance at a key.
fn size_at(document: &Value, key: &'static str) -> Result<f64, LineFault>
    ensures { IfOk result (λ x. spec.number_in key.entry.now (view document.now) ≡ Some x) }
{
    sized(key, number_at(document, key)?)
}

/// The ratio at a key, if it is there.
fn ratio_at(document: &Value, key: &'static str) -> Result<Option<f64>, LineFault>
    ensures { IfOk result (spec.IsRatioAt key.entry.now (view document.now)) }
{
    match document.get(key) {
        None => Ok(None),
        Some(_) => Ok(Some(size_at(document, key)?)),
    }
}

/// The impedance at two keys.
fn impedance_at(
    document: &Value,
    resistance: &'static str,
    reactance: &'static str,
) -> Result<Phasor, LineFault>
    ensures re { IfOk result (λ z. spec.number_in resistance.entry.now (view document.now) ≡ Some z.re) }
    ensures im { IfOk result (λ z. spec.number_in reactance.entry.now (view document.now) ≡ Some z.im) }
{
    Ok(Phasor {
        re: number_at(document, resistance)?,
        im: size_at(document, reactance)?,
    })
}

/// The line that a table tells.
fn line_in(document: &Value) -> Result<LineData, LineFault>
    ensures { IfOk result (spec.Tells (view document.now)) }
{
    Ok(LineData {
        line: Line {
            positive: impedance_at(document, "r1", "x1")?,
            zero: impedance_at(document, "r0", "x0")?,
        },
        length: size_at(document, "length")?,
        voltage_ratio: ratio_at(document, "voltage_ratio")?,
        current_ratio: ratio_at(document, "current_ratio")?,
    })
}

/// How many keys a line has: five, and each ratio that is given.
fn keys_of(line: &LineData) -> usize {
    5 + line.voltage_ratio.is_some() as usize + line.current_ratio.is_some() as usize
}

/// The line that a file tells.
pub fn line_of(alloc: Global, text: &str) -> Result<LineData, LineFault>
    ensures { IfOk result (spec.IsTold text.entry.now) }
{
    let table = match table_from_str(alloc, text) {
        Ok(table) => table,
        Err(error) if error.is_memory() => return Err(LineFault::Memory),
        Err(error) => return Err(LineFault::Text(error)),
    };
    let count = table.len();
    let line = line_in(&Value::Table(table))?;
    if count == keys_of(&line) {
        Ok(line)
    } else {
        Err(LineFault::Unknown)
    }
}
