//! Detectors: `histories` prints the bits of the histories that `bench/detectors.py make` made, a line for each; `detect` measures four
//! rms values, two changes and a frequency, over 8 and over 16 channels.

use crate::amount::Amount;
use crate::calls::clock::{Least, now, since};
use crate::words::{number, small};
use anyhow::{Context, Result, bail};
use dfr_channels::Reading;
use dfr_detect::{
    Condition, Detector, Detectors, FrequencyIs, FrequencyTest, HarmonicTest, Sequence, Settings,
    WaveTest,
};
use std::alloc::{AllocGlobal, Global};
use std::rt::Clock;
use std::str::Split;

/// A test of a frequency, by the numbers behind its kind.
fn frequency_in(test: FrequencyIs, parts: &mut Split<'_, char>) -> Result<Condition> {
    Ok(Condition::Frequency(FrequencyTest {
        test,
        cycles: small(parts)?,
        rate: small(parts)?,
        least: number(parts)?,
    }))
}

/// A test of a harmonic, by its order and the least rms value of the wave.
fn harmonic_in(parts: &mut Split<'_, char>) -> Result<WaveTest> {
    Ok(WaveTest::Harmonic(HarmonicTest {
        order: small(parts)?,
        least: number(parts)?,
    }))
}

/// A sequence, by its number.
fn sequence_in(parts: &mut Split<'_, char>) -> Result<Sequence> {
    match number(parts)? {
        0 => Ok(Sequence::Zero),
        1 => Ok(Sequence::Positive),
        2 => Ok(Sequence::Negative),
        _ => bail!("no such sequence"),
    }
}

fn condition_in(word: &str) -> Result<Condition> {
    let mut parts = word.split(':');
    match parts.next().context("no condition")? {
        "over" => Ok(Condition::RmsOver),
        "under" => Ok(Condition::RmsUnder),
        "change" => Ok(Condition::Change),
        "jump" => Ok(Condition::Jump),
        "faster" => frequency_in(FrequencyIs::Over, &mut parts),
        "slower" => frequency_in(FrequencyIs::Under, &mut parts),
        "drifts" => frequency_in(FrequencyIs::Changing, &mut parts),
        "harmonic" => Ok(Condition::Waves(harmonic_in(&mut parts)?)),
        "unbalance" => Ok(Condition::Waves(WaveTest::Unbalance(number(&mut parts)?))),
        "more" => Ok(Condition::Waves(WaveTest::SequenceOver(sequence_in(&mut parts)?))),
        "less" => Ok(Condition::Waves(WaveTest::SequenceUnder(sequence_in(&mut parts)?))),
        _ => bail!("no such condition"),
    }
}

/// A detector of these channels.
fn detector_of(alloc: Global, settings: Settings, channels: &[usize]) -> Result<Detector> {
    if settings.fault().is_some() || channels.len() > 256 {
        bail!("settings that are refused");
    }
    Ok(Detector::new(alloc, settings, Vec::from_slice(alloc, channels)?)?)
}

/// The detector of a line.
fn detector_in(alloc: Global, words: &mut Split<'_, char>) -> Result<Detector> {
    let condition = condition_in(words.next().context("an empty line")?)?;
    let settings = Settings {
        condition,
        scans: small(words)?,
        level: number(words)?,
        reset: number(words)?,
        row: small(words)?,
    };
    let mut channels = Vec::new(alloc);
    for _ in 0..small(words)? {
        channels.push(small(words)? as usize)?;
    }
    detector_of(alloc, settings, &channels)
}

/// The readings of a scan, none if it is lost.
fn readings_in(readings: &mut Vec<Reading>, word: &str) -> Result<()> {
    readings.clear();
    if word == "L" {
        return Ok(());
    }
    for field in word.split(',') {
        readings.push(if field == "-" {
            Reading::Missing
        } else {
            Reading::Value(field.parse::<i32>().ok().context("no sample")?)
        })?;
    }
    Ok(())
}

/// The bits of a history, as text.
fn bits_in(alloc: Global, line: &str) -> Result<String> {
    let mut words = line.split(' ');
    let mut detector = detector_in(alloc, &mut words)?;
    let (mut readings, mut text) = (Vec::new(alloc), String::new(alloc));
    while let Some(word) = words.next() {
        readings_in(&mut readings, word)?;
        text.push(if detector.step(&readings) { '1' } else { '0' })?;
    }
    Ok(text)
}

/// Prints the bits of histories, a line for each.
pub fn histories<R: Input + Print + AllocGlobal>(rt: &R) -> Result<()> {
    let mut at: u64 = 0;
    for line in rt.lines(rt.alloc()) {
        at = at.checked_add(1).context("too many lines")?;
        let line = line?;
        let bits = bits_in(rt.alloc(), line.as_str()).context(format_args!("line {at}"))?;
        println!(rt; "{}", bits.as_str())?;
    }
    Ok(())
}

/// How many scans a wave of the measure has in a cycle.
const CYCLE: u32 = 96;

/// A wave of 96 scans a cycle, of parabolas, shifted by a channel's place.
fn sample(scan: u32, channel: u32) -> i32 {
    let k = ((scan % CYCLE + channel % CYCLE * 32) % CYCLE) as i32;
    if k < 48 {
        40 * k * (48 - k)
    } else {
        -40 * (k - 48) * (96 - k)
    }
}

/// So many scans of so many channels.
fn scans_of(alloc: Global, scans: u32, channels: u32) -> Result<Vec<Vec<Reading>>> {
    let mut list = Vec::new(alloc);
    for scan in 0..scans {
        let mut readings = Vec::new(alloc);
        for channel in 0..channels {
            readings.push(Reading::Value(sample(scan, channel)))?;
        }
        list.push(readings)?;
    }
    Ok(list)
}

/// Four rms values, two changes and a frequency.
fn seven(alloc: Global) -> Result<Detectors> {
    let low = FrequencyTest {
        test: FrequencyIs::Under,
        cycles: 5,
        rate: 4800,
        least: 1000,
    };
    let mut list = Vec::new(alloc);
    for (condition, scans, level, channels) in [
        (Condition::RmsUnder, CYCLE, 12_000, [0].as_slice()),
        (Condition::RmsUnder, CYCLE, 12_000, [1].as_slice()),
        (Condition::RmsOver, CYCLE, 30_000, [3].as_slice()),
        (Condition::RmsOver, CYCLE, 2_000, [3, 4, 5].as_slice()),
        (Condition::Change, CYCLE, 500, [4].as_slice()),
        (Condition::Change, 48, 40_000, [5].as_slice()),
        (
            Condition::Frequency(low),
            10 * CYCLE,
            50_000,
            [0].as_slice(),
        ),
    ] {
        let settings = Settings {
            condition,
            scans,
            level,
            reset: level,
            row: 3,
        };
        list.push(detector_of(alloc, settings, channels)?)?;
    }
    Ok(Detectors::new(list))
}

/// How many bits are 1.
fn ones_of(bits: &[bool]) -> usize {
    bits.iter().filter(|bit| **bit).count()
}

/// Lets the detectors take in all scans so many times, and counts the bits that are 1.
fn take_in(
    detectors: &mut Detectors,
    bits: &mut Vec<bool>,
    scans: &[Vec<Reading>],
    rounds: u32,
) -> Result<u64> {
    let mut ones: u64 = 0;
    for _ in 0..rounds {
        for readings in scans {
            bits.clear();
            detectors.step(readings, bits)?;
            let more = ones_of(bits) as u64;
            ones = ones.checked_add(more).context("too many bits")?;
        }
    }
    Ok(ones)
}

/// Measures the detectors over so many channels.
fn measure_over<R: Clock + Print + AllocGlobal>(
    rt: &R,
    amount: Amount,
    name: &str,
    channels: u32,
) -> Result<()> {
    let scans = scans_of(rt.alloc(), 96 * 100, channels)?;
    let rounds = amount.over(100, 1);
    let mut least = Least::none();
    let mut ones = 0;
    for _ in 0..amount.runs {
        let mut detectors = seven(rt.alloc())?;
        let mut bits = Vec::with_capacity(rt.alloc(), 7)?;
        let start = now(rt);
        let found = take_in(&mut detectors, &mut bits, &scans, rounds);
        let time = since(rt, start);
        ones = found?;
        least.add(time?);
    }
    least.print(rt, amount, name, u64::from(rounds) * 96 * 100 * 7)?;
    if amount.is_full {
        println!(rt; "{ones} bits are 1")?;
    }
    Ok(())
}

pub fn measure<R: Clock + Print + AllocGlobal>(rt: &R, amount: Amount) -> Result<()> {
    measure_over(rt, amount, "seven detectors, 8 channels", 8)?;
    measure_over(rt, amount, "seven detectors, 16 channels", 16)
}
