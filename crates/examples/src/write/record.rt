//! A record, built field by field.

ghost use Rattle.std.specs.Prelude.{◌<◌, ◌≤◌};

use comtrade_format::{File, Head, Kind, Rate, Row};
use dfr_channels::{AnalogChannel, Decimal, Items, Reading, Side, StatusChannel};
use std::alloc::{AllocError, Global};

/// One period of the current at 1,000 scans a second: 1,000 * sin(2 * pi * k / 20), rounded.
const PERIOD: [i32; 20] = [
    0, 309, 588, 809, 951, 1000, 951, 809, 588, 309, 0, -309, -588, -809, -951, -1000, -951, -809,
    -588, -309,
];

/// The number of rows: two periods.
const ROWS: usize = 40;

/// The row, from 0, at which the breaker opens.
const OPEN: usize = 30;

/// A text field of the file. Its bytes are from hexadecimal 20 to 7E, without a comma.
fn text(alloc: Global, text: &str) -> Result<Items<u8>, AllocError> {
    Ok(Items::of(Vec::from_slice(alloc, text.as_bytes())?))
}

/// A list of one item.
fn one<T: Drop>(alloc: Global, item: T) -> Result<Items<T>, AllocError> {
    let mut list = Vec::new(alloc);
    list.push(item)?;
    Ok(Items::of(list))
}

/// The decimal units / 10^places, where a file can hold it.
fn decimal(units: i32, places: u8) -> Decimal
    requires { places ≤ 80 }
{
    Decimal::new(units as i128, places).unwrap()
}

/// A current in steps of 0.5 A, through a transformer of 600 A to 1 A. The values are those of the
/// primary side.
fn current(alloc: Global) -> Result<AnalogChannel, AllocError> {
    Ok(AnalogChannel {
        id: text(alloc, "IA")?,
        phase: text(alloc, "A")?,
        component: text(alloc, "Line 3")?,
        unit: text(alloc, "A")?,
        a: decimal(5, 1),
        b: decimal(0, 0),
        skew: decimal(0, 0),
        min: -32_767,
        max: 32_767,
        primary: decimal(600, 0),
        secondary: decimal(1, 0),
        side: Side::Primary,
    })
}

fn breaker(alloc: Global) -> Result<StatusChannel, AllocError> {
    Ok(StatusChannel {
        id: text(alloc, "Breaker open")?,
        phase: text(alloc, "")?,
        component: text(alloc, "Q0")?,
        normal: false,
    })
}

/// Row k, from 0. Its number counts from 1, and its stamp is in microseconds.
fn row(alloc: Global, k: usize) -> Result<Row, AllocError>
    requires { k < ROWS }
{
    Ok(Row {
        number: k as u64 + 1,
        stamp: Some(k as u64 * 1000),
        values: one(alloc, Reading::Value(PERIOD[k % 20]))?,
        bits: one(alloc, OPEN <= k)?,
    })
}

fn rows(alloc: Global) -> Result<Items<Row>, AllocError> {
    let mut rows = Vec::with_capacity(alloc, ROWS)?;
    for k in 0..ROWS {
        rows.push(row(alloc, k)?)?;
    }
    Ok(Items::of(rows))
}

/// The configuration. The instants are in microseconds since 1970-01-01 00:00:00: the first row at
/// 2024-07-01 10:30:00, and the trigger 20 ms later.
fn head(alloc: Global) -> Result<Head, AllocError> {
    let rate = Rate {
        samp: decimal(1000, 0),
        endsamp: ROWS as u64,
    };
    Ok(Head {
        station: text(alloc, "Northfield 110 kV")?,
        device: text(alloc, "Example")?,
        rates: one(alloc, rate)?,
        status: one(alloc, breaker(alloc)?)?,
        analog: one(alloc, current(alloc)?)?,
        line_freq: decimal(50, 0),
        nrates: 1,
        first: 1_719_829_800_000_000,
        trigger: 1_719_829_800_020_000,
        kind: Kind::Ascii,
        timemult: decimal(1, 0),
    })
}

/// The whole record. The writers check what a file can hold: `WriteFault` tells where a value does
/// not fit.
pub fn record(alloc: Global) -> Result<File, AllocError> {
    let rows = rows(alloc)?;
    let head = head(alloc)?;
    Ok(File { head, rows })
}
