//! What is measured in a record.

use crate::cycles::{
    Frequency, MeasureFault, Window, frequency_of, last_cycle, measures_of, phasor_in, place_of,
    reference_in, threes_in, whole_cycles,
};
use crate::measure_frequency::{Taken, put_frequency};
use crate::measure_json::put_measures_json;
use crate::measure_note::put_note;
use crate::measure_record::put_record;
use crate::measure_tables::{Found, channel_table, order_table};
use crate::number::put_ordinal;
use crate::sequence_table::sequence_table;
use crate::show::put_row_time;
use crate::shown::{Shown, put_cycle, put_row_number};
use crate::table::put_table;
use comtrade_format::File;
use comtrade_io::put_safe;
use comtrade_values::{Decimal, Memory, put, put_with};
use std::alloc::{AllocError, Allocator, Global};

/// The line frequency of a measurement.
#[derive(Clone, Copy, Debug, PartialEq, Eq)]
pub enum LineFrequency {
    /// That of the file.
    OfFile,
    /// So many Hz.
    Given(Decimal),
    /// That of the signal.
    Measured,
}

/// How whole cycles are measured.
#[derive(Clone, Copy, Debug, PartialEq, Eq)]
pub struct Choice<'a> {
    /// The channel that angles are relative to, if one is named.
    pub reference: Option<&'a str>,
    /// The channels of the phases A, B and C, if they are named.
    pub phases: Option<&'a str>,
}

/// What to measure.
#[derive(Clone, Copy, Debug, PartialEq, Eq)]
pub enum Measuring<'a> {
    /// The fault inception of each current.
    Course,
    /// The last whole cycle, or all whole cycles.
    LastCycle(Choice<'a>),
    WholeCycles(Choice<'a>),
}

/// The rows that are measured, when they were taken, and how many cycles they are.
fn put_window<A: Allocator>(
    out: &mut Vec<u8, A>,
    window: Window,
    shown: Shown<'_>,
) -> Result<(), AllocError> {
    let last = window.last();
    put_row_number(out, "rows       ", shown.number(window.from))?;
    put_row_number(out, " to ", shown.number(last))?;
    put(out, ", ")?;
    put_row_time(out, shown.clock(), window.from)?;
    put(out, " to ")?;
    put_row_time(out, shown.clock(), last)?;
    put_with(out, " ms since the trigger\ncycles     ", window.cycles)?;
    put(out, ", ")?;
    put_cycle(out, window)
}

/// The reference channel of angles.
fn put_reference<A: Allocator>(
    out: &mut Vec<u8>,
    file: &File<A>,
    reference: Option<usize>,
) -> Result<(), AllocError> {
    let channel = match reference {
        Some(place) => file.head.analog.items().get(place),
        None => None,
    };
    match (reference, channel) {
        (Some(place), Some(channel)) => {
            put_ordinal(out, "reference  channel ", place)?;
            put(out, ", ")?;
            put_safe(out, channel.id.items())?;
            put(out, "\n")
        }
        _ => put(out, "reference  none: no channel has a fundamental\n"),
    }
}

/// What was measured over whole cycles: the rows, the frequency, and the reference's index.
#[derive(Clone, Copy)]
pub(crate) struct Measures<'a> {
    pub(crate) window: Window,
    pub(crate) taken: &'a Taken,
    pub(crate) reference: Option<usize>,
}

/// The tables of channels and harmonics.
fn put_channel_tables<A: Allocator + Copy>(
    lists: A,
    out: &mut Vec<u8>,
    window: Window,
    found: &Found<'_, A>,
) -> Result<(), AllocError> {
    put(
        out,
        "\nrms of the whole signal; magnitude (rms) and angle (degrees) of the fundamental\n",
    )?;
    put_table(out, &channel_table(lists, found)?)?;
    put_with(out, "\nharmonics from 2 to ", window.orders() as u64)?;
    put(out, " of at least 0.1 % of the magnitude, in %\n")?;
    put_table(out, &order_table(lists, found)?)
}

/// The sequence components, or that there are none.
fn put_sequences<A: Allocator + Copy>(
    lists: A,
    out: &mut Vec<u8>,
    found: &Found<'_, A>,
) -> Result<(), Memory> {
    if found.threes.is_empty() {
        put(
            out,
            "\nno sequence components: no three channels of the same unit have phases A, B and C\n",
        )?;
        return Ok(());
    }
    put(out, "\nsequence components\n")?;
    put_table(out, &sequence_table(lists, found)?)?;
    Ok(())
}

/// What was measured, as text.
fn put_measures<A: Allocator + Copy>(
    lists: A,
    out: &mut Vec<u8>,
    measures: Measures<'_>,
    found: &Found<'_, A>,
) -> Result<(), Memory> {
    put_window(out, measures.window, found.shown)?;
    put_frequency(out, found.file, measures.taken)?;
    put_reference(out, found.file, measures.reference)?;
    put_channel_tables(lists, out, measures.window, found)?;
    put_note(lists, out, found, measures.taken)?;
    put_sequences(lists, out, found)
}

/// What is measured over a window's whole cycles, as text or as JSON.
fn put_window_of<A: Allocator + Copy>(
    alloc: Global,
    lists: A,
    out: &mut Vec<u8>,
    file: &File<A>,
    window: Window,
    taken: &Taken,
    choice: Choice<'_>,
    shown: Shown<'_>,
) -> Result<(), MeasureFault> {
    let measures = measures_of(lists, file, window)?;
    let place = reference_in(&file.head, &measures, choice.reference)?;
    let threes = threes_in(lists, &file.head, choice.phases)?;
    let found = Found {
        file,
        measures: &measures,
        threes: &threes,
        reference: match place {
            Some(place) => phasor_in(&measures, place),
            None => None,
        },
        shown,
    };
    let made = Measures {
        window,
        taken,
        reference: place,
    };
    let outcome = if shown.json {
        put_measures_json(alloc, out, made, &found)
    } else {
        put_measures(lists, out, made, &found)
    };
    Ok(outcome?)
}

/// The frequency of the signals that are measured, by the reference if one is named.
fn signal_of<A: Allocator + Copy>(
    lists: A,
    file: &File<A>,
    choice: Choice<'_>,
    is_whole: bool,
) -> Result<Option<Frequency>, MeasureFault> {
    let given = match choice.reference {
        Some(name) => place_of(&file.head, name),
        None => None,
    };
    frequency_of(lists, file, given, is_whole)
}

/// The frequency of the signals, if it was measured.
fn hertz_in(measured: &Option<Frequency>) -> Option<Decimal> {
    match measured {
        Some(found) => Some(found.hertz),
        None => None,
    }
}

/// Gives a file the line frequency that is asked for; what that is, and what the file had.
/// `NoSteady`: it is to be measured, and cannot be.
fn take_frequency<A: Allocator + Copy>(
    lists: A,
    file: &mut File<A>,
    choice: Choice<'_>,
    is_whole: bool,
    frequency: LineFrequency,
) -> Result<Taken, MeasureFault> {
    let of_file = file.head.line_freq;
    if let LineFrequency::Given(hertz) = frequency {
        file.head.line_freq = hertz;
    }
    let measured = signal_of(lists, file, choice, is_whole)?;
    if frequency == LineFrequency::Measured {
        match hertz_in(&measured) {
            Some(hertz) => file.head.line_freq = hertz,
            None => return Err(MeasureFault::NoSteady),
        }
    }
    Ok(Taken {
        frequency,
        of_file,
        measured,
    })
}

/// What is measured over whole cycles of a record.
fn put_cycles<A: Allocator + Copy>(
    alloc: Global,
    lists: A,
    out: &mut Vec<u8>,
    file: &mut File<A>,
    measuring: (Choice<'_>, bool),
    frequency: LineFrequency,
    shown: Shown<'_>,
) -> Result<(), MeasureFault> {
    let (choice, is_whole) = measuring;
    let taken = take_frequency(lists, file, choice, is_whole, frequency)?;
    let window = if is_whole {
        whole_cycles(file)?
    } else {
        last_cycle(file)?
    };
    put_window_of(alloc, lists, out, file, window, &taken, choice, shown)
}

/// What is measured in a record.
fn put_measuring<A: Allocator + Copy>(
    alloc: Global,
    lists: A,
    out: &mut Vec<u8>,
    file: &mut File<A>,
    measuring: Measuring<'_>,
    frequency: LineFrequency,
    shown: Shown<'_>,
) -> Result<(), MeasureFault> {
    let cycles = match measuring {
        Measuring::Course => {
            if let LineFrequency::Given(hertz) = frequency {
                file.head.line_freq = hertz;
            }
            return put_record(alloc, lists, out, file, shown);
        }
        Measuring::LastCycle(choice) => (choice, false),
        Measuring::WholeCycles(choice) => (choice, true),
    };
    put_cycles(alloc, lists, out, file, cycles, frequency, shown)
}

/// The text of what is measured in a record at a line frequency, which the file has afterwards. The
/// inceptions of currents are found at that of the file or one that is given. Refused where the rows
/// cannot be measured, the channel that is named has no angle, or those of the phases aren't three.
pub fn measure_text<A: Allocator + Copy>(
    alloc: Global,
    lists: A,
    file: &mut File<A>,
    measuring: Measuring<'_>,
    frequency: LineFrequency,
    shown: Shown<'_>,
) -> Result<Vec<u8>, MeasureFault> {
    let mut out = Vec::new(alloc);
    put_measuring(alloc, lists, &mut out, file, measuring, frequency, shown)?;
    Ok(out)
}
