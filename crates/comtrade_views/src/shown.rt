//! The rows of a record that are measured, and the names of its channels.

ghost use Rattle.std.specs.Prelude.{◌≡◌, ◌+◌, ◌++◌, OnOk, decimal};
ghost use Rattle.comtrade_io.specs.Safe.{safe};
ghost use Rattle.comtrade_views.specs.Texts.{cell};

use crate::cycles::Window;
use crate::float::put_float;
use crate::json_number::micros_of;
use crate::number::{ordinal, put_ordinal};
use crate::show::Clock;
use crate::table::{end_cell, put_safe_cell};
use crate::times::time_at;
use comtrade_values::{put, put_number};
use dfr_channels::AnalogChannel;
use std::alloc::{AllocError, Allocator};
use std::num::{nearest_i64_to_f64, nearest_u64_to_f64};

/// The rows that are shown: when they were taken, in nanoseconds since the trigger; the index, from
/// 0, of the first of them; whether as JSON, with all digits.
#[derive(Clone, Copy)]
pub struct Shown<'a> {
    pub times: &'a [Option<i64>],
    pub first: usize,
    pub json: bool,
}

impl<'a> Shown<'a> {
    pub(crate) fn clock(self) -> Clock<'a> {
        Clock {
            times: self.times,
            trigger: 0,
        }
    }

    /// The number of a row, from 1.
    pub(crate) fn number(self, row: usize) -> u128 {
        self.first as u128 + ordinal(row)
    }

    /// When a row was taken, in milliseconds since the trigger, to the nearest microsecond, if that
    /// is known.
    pub(crate) fn millis_at(self, row: usize) -> Option<f64> {
        let micros = micros_of(time_at(self.times, row)? as i128);
        Some(nearest_i64_to_f64(micros as i64) / 1000.0)
    }
}

/// The rows per cycle, to six digits.
pub(crate) fn put_cycle_of<A: Allocator>(
    out: &mut Vec<u8, A>,
    window: Window,
) -> Result<(), AllocError> {
    let rows = nearest_u64_to_f64(window.cycle.rows);
    put_float(out, rows / nearest_u64_to_f64(window.cycle.cycles), 0.0)
}

/// The rows per cycle, as the end of a line.
pub(crate) fn put_cycle<A: Allocator>(
    out: &mut Vec<u8, A>,
    window: Window,
) -> Result<(), AllocError> {
    put_cycle_of(out, window)?;
    put(out, " rows a cycle\n")
}

/// A text, and the number of a row.
pub(crate) fn put_row_number<A: Allocator>(
    out: &mut Vec<u8, A>,
    text: &str,
    number: u128,
) -> Result<(), AllocError> {
    put(out, text)?;
    put_number(out, number)
}

/// The cells that name a channel: number, id, phase and unit.
pub(crate) fn put_channel<A: Allocator>(
    table: &mut Vec<u8, A>,
    place: usize,
    channel: &AnalogChannel<A>,
) -> Result<(), AllocError>
    ensures { OnOk result (table.new.items ≡ table.old.items ++ cell (decimal (place + 1)) ++ cell (safe channel.now.id)
        ++ cell (safe channel.now.phase) ++ cell (safe channel.now.unit)) }
{
    put_ordinal(table, "", place)?;
    end_cell(table)?;
    put_safe_cell(table, channel.id.items())?;
    put_safe_cell(table, channel.phase.items())?;
    put_safe_cell(table, channel.unit.items())
}
