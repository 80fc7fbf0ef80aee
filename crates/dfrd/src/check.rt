//! What `--check` prints.

ghost use Rattle.std.specs.Prelude.{◌<◌};

use crate::memory::{detector_bytes, layout_bytes, wave_detector_bytes};
use comtrade_io::put_safe;
use comtrade_values::{put, put_decimal, put_number, put_with, without_zeros};
use dfr_channels::Layout;
use dfr_detect::{Condition, Sequence, Settings, WaveTest};
use dfr_setup::{Plan, Prepared, Test};
use dfr_station::frame_len;
use std::alloc::{AllocError, Global};
use std::io;

/// The size of a frame in bytes, for an input with these channels.
pub(crate) fn frame_of(inputs: &Layout<Global>) -> usize
    ensures { 0 < result }
{
    let _rate = inputs.rate();
    frame_len(inputs.analog().len(), inputs.status().len())
}

/// The most bytes of a detector.
fn plan_bytes(settings: &Settings) -> u64 {
    match settings.condition {
        Condition::Waves(_) => wave_detector_bytes(settings.scans),
        _ => detector_bytes(settings.scans),
    }
}

/// The most bytes of memory that a recording needs, with the bytes of its set-up file. None if
/// there are more than 2^64.
pub(crate) fn need_of(prepared: &Prepared<Global>, setup: usize) -> Option<u64> {
    let recorder = &prepared.recorder;
    let mut bytes = layout_bytes(recorder.layout(), recorder.limits()).checked_add(setup as u64)?;
    for plan in &prepared.plans {
        bytes = bytes.checked_add(plan_bytes(&plan.settings))?;
    }
    Some(bytes)
}

/// The unit of a test's levels, and the words for what they are counted in.
fn units_of<'a>(test: Test, unit: &'a [u8]) -> (&'a [u8], &'static str) {
    match test {
        Test::FrequencyOver | Test::FrequencyUnder => ("Hz".as_bytes(), " mHz "),
        Test::FrequencyChange => ("Hz/s".as_bytes(), " mHz/s "),
        Test::Harmonic(_) | Test::Unbalance => ("%".as_bytes(), " thousandths "),
        _ => (unit, " samples "),
    }
}

/// Puts the least half wave or wave, in the channels' unit and in samples.
fn put_least(
    line: &mut Vec<u8>,
    unit: &[u8],
    plan: &Plan<Global>,
    samples: u64,
) -> Result<(), AllocError> {
    put(line, " least ")?;
    put_decimal(line, without_zeros(plan.least))?;
    put(line, " ")?;
    put_safe(line, unit)?;
    put_with(line, " samples ", samples)
}

/// Puts over how many cycles a frequency is taken, and after which half waves; of which waves a share
/// is taken.
fn put_options(line: &mut Vec<u8>, unit: &[u8], plan: &Plan<Global>) -> Result<(), AllocError> {
    match plan.settings.condition {
        Condition::Frequency(test) => {
            put_with(line, " cycles ", u64::from(test.cycles))?;
            put_least(line, unit, plan, test.least)
        }
        Condition::Waves(WaveTest::Harmonic(test)) => put_least(line, unit, plan, test.least),
        Condition::Waves(WaveTest::Unbalance(least)) => put_least(line, unit, plan, least),
        _ => Ok(()),
    }
}

/// The word of a sequence.
fn sequence_word(sequence: Sequence) -> &'static str {
    match sequence {
        Sequence::Positive => "positive",
        Sequence::Negative => "negative",
        Sequence::Zero => "zero",
    }
}

/// Puts the words of a test.
fn put_words(line: &mut Vec<u8>, test: Test) -> Result<(), AllocError> {
    match test {
        Test::RmsOver => put(line, "rms over"),
        Test::RmsUnder => put(line, "rms under"),
        Test::Change => put(line, "change"),
        Test::Jump => put(line, "jump"),
        Test::FrequencyOver => put(line, "frequency over"),
        Test::FrequencyUnder => put(line, "frequency under"),
        Test::FrequencyChange => put(line, "frequency change"),
        Test::Harmonic(order) => {
            put_with(line, "harmonic ", u64::from(order))?;
            put(line, " over")
        }
        Test::SequenceOver(sequence) => {
            put(line, sequence_word(sequence))?;
            put(line, " over")
        }
        Test::SequenceUnder(sequence) => {
            put(line, sequence_word(sequence))?;
            put(line, " under")
        }
        Test::Unbalance => put(line, "unbalance over"),
    }
}

/// Puts the ids of a detector's channels, with plus signs between them.
fn put_channels(
    line: &mut Vec<u8>,
    inputs: &Layout<Global>,
    channels: &[usize],
) -> Result<(), AllocError> {
    for (place, channel) in channels.iter().enumerate() {
        put(line, if place == 0 { " of " } else { "+" })?;
        match inputs.analog().get(*channel) {
            Some(found) if !found.id.items().is_empty() => put_safe(line, found.id.items())?,
            _ => put_number(line, *channel as u64)?,
        }
    }
    Ok(())
}

/// The unit of a detector's first channel.
fn unit_of<'a>(inputs: &'a Layout<Global>, channels: &[usize]) -> &'a [u8] {
    match channels.first() {
        Some(channel) => match inputs.analog().get(*channel) {
            Some(found) => found.unit.items(),
            None => &[],
        },
        None => &[],
    }
}

/// Puts the line of a detector: its name and its status channel, its level in the channels' unit
/// and in samples, its window in scans, and for how many scans it has to hold.
fn put_plan(
    line: &mut Vec<u8>,
    inputs: &Layout<Global>,
    plan: &Plan<Global>,
    status: usize,
) -> Result<(), AllocError> {
    let settings = plan.settings;
    let unit = unit_of(inputs, plan.channels.items());
    let (one, counted) = units_of(plan.test, unit);
    put(line, "detector ")?;
    put_safe(line, plan.name.items())?;
    put_with(line, " status ", status as u64)?;
    put(line, " ")?;
    put_words(line, plan.test)?;
    put(line, " ")?;
    put_decimal(line, without_zeros(plan.level))?;
    put(line, " ")?;
    put_safe(line, one)?;
    put_channels(line, inputs, plan.channels.items())?;
    put_with(line, counted, settings.level)?;
    put_with(line, " window ", u64::from(settings.scans))?;
    put_with(line, " for ", u64::from(settings.row))?;
    put(line, " reset ")?;
    put_decimal(line, without_zeros(plan.reset))?;
    put(line, " ")?;
    put_safe(line, one)?;
    put_with(line, counted, settings.reset)?;
    put_options(line, unit, plan)
}

/// Prints a line for each detector.
fn print_plans<R: Print + AllocGlobal>(rt: &R, prepared: &Prepared<Global>) -> io::Result<()> {
    let first = prepared.inputs.status().len();
    for (place, plan) in prepared.plans.iter().enumerate() {
        let mut line = Vec::new(rt.alloc());
        put_plan(&mut line, &prepared.inputs, plan, first + place)?;
        if let Ok(text) = str::from_utf8(&line) {
            println!(rt; "{text}")?;
        }
    }
    Ok(())
}

/// Prints what would be recorded: channels, rate, rules, size of a frame, limits, the most memory
/// that this needs, and the detectors.
pub(crate) fn print_judged<R: Print + AllocGlobal>(
    rt: &R,
    prepared: &Prepared<Global>,
    (need, have): (u64, Option<u64>),
) -> io::Result<()> {
    let recorder = &prepared.recorder;
    let layout = recorder.layout();
    let limits = recorder.limits();
    let analog = layout.analog().len();
    let status = layout.status().len();
    let rate = layout.rate();
    let rules = recorder.rules().list().len();
    let (pre, post) = (limits.pre(), limits.post());
    let (longest, shelf) = (limits.longest(), limits.shelf());
    let frame = frame_of(&prepared.inputs);
    let memory = need / 1_000_000 + 1;
    println!(rt; "analog {analog} status {status} rate {rate} rules {rules} frame {frame}")?;
    println!(rt; "pre {pre} post {post} longest {longest} shelf {shelf}")?;
    println!(rt; "memory {memory} MB at most")?;
    if have.is_none() {
        println!(rt; "memory of the machine not known")?;
    }
    print_plans(rt, prepared)
}
