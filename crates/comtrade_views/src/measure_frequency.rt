//! The line frequency of a measurement, and that of the signal.

use crate::cycles::Frequency;
use crate::measure::LineFrequency;
use crate::number::put_decimal;
use comtrade_format::{File, nearest_f64};
use comtrade_io::put_safe;
use comtrade_values::{Decimal, Memory, put};
use std::alloc::{AllocError, Allocator};

/// The least difference of the signal's frequency that is noted, as a share: the second harmonic
/// that isn't there is then at least 0.2 % of the magnitude.
const NOTED: f64 = 0.001;

/// The line frequency that was asked for, that of the file, and that of the signal, if it is steady.
#[derive(Clone, Copy)]
pub(crate) struct Taken {
    pub(crate) frequency: LineFrequency,
    pub(crate) of_file: Decimal,
    pub(crate) measured: Option<Frequency>,
}

/// The frequency of the signal, and the channel by which it was measured.
fn put_measured<A: Allocator, B: Allocator>(
    out: &mut Vec<u8, B>,
    file: &File<A>,
    taken: &Taken,
) -> Result<(), AllocError> {
    match &taken.measured {
        None => put(out, "; not measured: no channel is steady over two cycles"),
        Some(_) if taken.frequency == LineFrequency::Measured => Ok(()),
        Some(found) => {
            put(out, "; measured ")?;
            put_decimal(out, found.hertz)?;
            put(out, " Hz (")?;
            put_channel(out, file, found.place)?;
            put(out, ")")
        }
    }
}

/// The id of a channel.
fn put_channel<A: Allocator, B: Allocator>(
    out: &mut Vec<u8, B>,
    file: &File<A>,
    place: usize,
) -> Result<(), AllocError> {
    match file.head.analog.items().get(place) {
        Some(channel) => put_safe(out, channel.id.items()),
        None => Ok(()),
    }
}

/// Where the frequency is from, if not from the file.
fn put_source<A: Allocator, B: Allocator>(
    out: &mut Vec<u8, B>,
    file: &File<A>,
    taken: &Taken,
) -> Result<(), AllocError> {
    if taken.frequency == LineFrequency::OfFile {
        return Ok(());
    }
    match &taken.measured {
        Some(found) if taken.frequency == LineFrequency::Measured => {
            put(out, ", measured (")?;
            put_channel(out, file, found.place)?;
            put(out, ")")?;
        }
        _ => put(out, ", as given")?,
    }
    put(out, "; the file has ")?;
    put_decimal(out, taken.of_file)?;
    put(out, " Hz")
}

/// The line of the frequency.
pub(crate) fn put_frequency<A: Allocator, B: Allocator>(
    out: &mut Vec<u8, B>,
    file: &File<A>,
    taken: &Taken,
) -> Result<(), AllocError> {
    put(out, "frequency  ")?;
    put_decimal(out, file.head.line_freq)?;
    put(out, " Hz")?;
    put_source(out, file, taken)?;
    put_measured(out, file, taken)?;
    put(out, "\n")
}

/// The frequency of the signal, if it differs from that of the measurement.
fn other_of<A: Allocator + Copy>(
    lists: A,
    file: &File<A>,
    taken: &Taken,
) -> Result<Option<Decimal>, Memory> {
    let Some(found) = &taken.measured else {
        return Ok(None);
    };
    let hertz = nearest_f64(lists, file.head.line_freq)?;
    let other = nearest_f64(lists, found.hertz)?;
    if (other - hertz).abs() < hertz * NOTED {
        return Ok(None);
    }
    Ok(Some(found.hertz))
}

/// A note, if the signal has another frequency.
pub(crate) fn put_other<A: Allocator + Copy, B: Allocator>(
    lists: A,
    out: &mut Vec<u8, B>,
    file: &File<A>,
    taken: &Taken,
) -> Result<(), Memory> {
    let Some(other) = other_of(lists, file, taken)? else {
        return Ok(());
    };
    put(out, "\nnote: the signal has ")?;
    put_decimal(out, other)?;
    put(out, " Hz, not ")?;
    put_decimal(out, file.head.line_freq)?;
    put(
        out,
        " Hz: magnitudes, angles and harmonics are off; --frequency measured takes that of the signal\n",
    )?;
    Ok(())
}
