//! Reads the words of a `detect` line.

ghost use Rattle.std.specs.Prelude.{◌≡◌, ◌≤◌, ◌+◌, true, codes, IfOk, IfSome};
ghost use Rattle.comtrade_values.specs.Lines.{texts};
ghost use Rattle.dfr_setup.specs.Refusing.{needed};
ghost use Rattle.dfr_setup.specs.Wishes as spec;
ghost use Rattle.dfr_setup.specs.declared.fault.DetectorFault.TheVariants as fault;

use crate::fault::needed;
use crate::level::{Units, has_part, is_part, last_of, level_at, unit_at};
use crate::line::{says, word_at};
use crate::tested::{is_frequency, is_share};
use crate::{DetectorFault, Test};
use comtrade_values::{Decimal, natural_of};
use dfr_detect::Sequence;

/// What a `detect` line asks for. Its name is word 1, and its channels are two words behind the
/// level.
#[derive(Clone, Copy, Debug)]
pub(crate) struct Wish {
    pub(crate) test: Test,
    /// The level, in the channels' unit.
    pub(crate) level: Decimal,
    /// The place of the level's last word.
    pub(crate) at: usize,
    /// For how many scans in a row the level has to be met.
    pub(crate) row: u32,
    /// The level at which the bit stays 1, in the channels' unit.
    pub(crate) reset: Decimal,
    /// The window in scans. None if it is that of the test.
    pub(crate) window: Option<u32>,
    /// Over how many cycles a frequency is taken.
    pub(crate) cycles: u32,
    /// How deep a half wave has to be for a frequency, or the rms value of a wave for a share, in the
    /// channels' unit.
    pub(crate) least: Decimal,
    /// The units that the levels name.
    pub(crate) units: Units,
}

/// The places of the options among the words, and the end of the line.
#[derive(Clone, Copy, Debug)]
pub(crate) struct Places {
    pub(crate) row: usize,
    pub(crate) reset: usize,
    pub(crate) window: usize,
    pub(crate) cycles: usize,
    pub(crate) least: usize,
    pub(crate) end: usize,
}

/// The test of a frequency that word 3 names, and the place of the level behind it.
fn frequency_of(words: &[&[u8]]) -> Option<(Test, usize)>
    requires { spec.says (texts words.now) 2 (codes "frequency") ≡ true }
    ensures value { result ≡ spec.kind (texts words.now) }
    ensures bound { IfSome result (λ k. k.1 ≤ 5) }
{
    if says(words, 3, "over") {
        Some((Test::FrequencyOver, 4))
    } else if says(words, 3, "under") {
        Some((Test::FrequencyUnder, 4))
    } else if says(words, 3, "change") {
        Some((Test::FrequencyChange, 4))
    } else {
        None
    }
}

/// The sequence that word 2 names.
fn sequence_of(words: &[&[u8]]) -> Option<Sequence>
    ensures { result ≡ spec.sequence (texts words.now) }
{
    if says(words, 2, "positive") {
        Some(Sequence::Positive)
    } else if says(words, 2, "negative") {
        Some(Sequence::Negative)
    } else if says(words, 2, "zero") {
        Some(Sequence::Zero)
    } else {
        None
    }
}

/// The test of a sequence, and the place of the level behind it.
fn sequence_test(words: &[&[u8]], sequence: Option<Sequence>) -> Option<(Test, usize)>
    ensures value { result ≡ spec.sequence_kind (texts words.now) sequence }
    ensures bound { IfSome result (λ k. k.1 ≤ 5) }
{
    match sequence {
        Some(sequence) if says(words, 3, "over") => Some((Test::SequenceOver(sequence), 4)),
        Some(sequence) if says(words, 3, "under") => Some((Test::SequenceUnder(sequence), 4)),
        _ => None,
    }
}

/// The test of the harmonic of the order that word 3 is.
fn harmonic_of(words: &[&[u8]]) -> Option<(Test, usize)>
    ensures value { result ≡ spec.harmonic_kind (texts words.now) }
    ensures bound { IfSome result (λ k. k.1 ≤ 5) }
{
    match natural_of(word_at(words, 3)) {
        Some(order) => Some((Test::Harmonic(order), 5)),
        None => None,
    }
}

/// The test of a wave that the words from word 2 on name, and the place of the level behind it.
fn wave_of(words: &[&[u8]]) -> Option<(Test, usize)>
    ensures value { result ≡ spec.wave_kind (texts words.now) }
    ensures bound { IfSome result (λ k. k.1 ≤ 5) }
{
    if says(words, 2, "harmonic") && says(words, 4, "over") {
        harmonic_of(words)
    } else if says(words, 2, "unbalance") && says(words, 3, "over") {
        Some((Test::Unbalance, 4))
    } else {
        sequence_test(words, sequence_of(words))
    }
}

/// The test that the words from word 2 on name, and the place of the level behind them.
fn kind_of(words: &[&[u8]]) -> Option<(Test, usize)>
    ensures value { result ≡ spec.kind (texts words.now) }
    ensures bound { IfSome result (λ k. k.1 ≤ 5) }
{
    if says(words, 2, "rms") && says(words, 3, "over") {
        Some((Test::RmsOver, 4))
    } else if says(words, 2, "rms") && says(words, 3, "under") {
        Some((Test::RmsUnder, 4))
    } else if says(words, 2, "change") {
        Some((Test::Change, 3))
    } else if says(words, 2, "jump") {
        Some((Test::Jump, 3))
    } else if says(words, 2, "frequency") {
        frequency_of(words)
    } else {
        wave_of(words)
    }
}

/// The place behind an option and its value, if it stands at place `i`.
fn behind(words: &[&[u8]], key: &str, i: usize) -> usize
    requires { i ≤ 100 }
    ensures value { result ≡ spec.behind key.now (texts words.now) i }
    ensures bound { result ≤ i + 2 }
{
    if says(words, i, key) { i + 2 } else { i }
}

/// The place behind an option and its level, if it stands at place `i`.
fn behind_level(words: &[&[u8]], key: &str, i: usize) -> usize
    requires { i ≤ 100 }
    ensures value { result ≡ spec.behind_level key.now (texts words.now) i }
    ensures bound { result ≤ i + 5 }
{
    if has_part(words, key, i) {
        i + 5
    } else {
        behind(words, key, i)
    }
}

/// The number of an option that may stand at place `i`.
fn natural_or(words: &[&[u8]], key: &str, i: usize, default: u32) -> Option<u32>
    requires { i ≤ 100 }
    ensures { result ≡ spec.natural_or key.now (texts words.now) i default }
{
    if says(words, i, key) {
        natural_of(word_at(words, i + 1))
    } else {
        Some(default)
    }
}

/// The level of an option that may stand at place `i`.
fn level_or(words: &[&[u8]], key: &str, i: usize, default: Decimal) -> Option<Decimal>
    requires { i ≤ 100 }
    ensures { result ≡ spec.level_or key.now (texts words.now) i default }
{
    if says(words, i, key) {
        level_at(words, i + 1, has_part(words, key, i))
    } else {
        Some(default)
    }
}

/// The window that may stand at place `i`; None within if there is none.
fn window_at(words: &[&[u8]], i: usize) -> Option<Option<u32>>
    requires { i ≤ 100 }
    ensures { result ≡ spec.window_at (texts words.now) i }
{
    if !says(words, i, "window") {
        return Some(None);
    }
    match natural_of(word_at(words, i + 1)) {
        Some(n) => Some(Some(n)),
        None => None,
    }
}

/// The value that was read, or the fault `Number` if there is none.
fn read<T>(value: Option<T>) -> Result<T, DetectorFault>
    ensures { result ≡ needed value fault.Number }
{
    needed(value, DetectorFault::Number)
}

/// The places of the options of a line whose level ends at place `at`, and its end.
fn places_of(words: &[&[u8]], at: usize) -> Places
    requires { at ≤ 8 }
    ensures value { result ≡ spec.places (texts words.now) at }
    ensures bound { (result.reset ≤ 100) × (result.window ≤ 100)
        × (result.cycles ≤ 100) × (result.least ≤ 100) }
{
    let row = at + 3;
    let reset = behind(words, "for", row);
    let window = behind_level(words, "reset", reset);
    let cycles = behind(words, "window", window);
    let least = behind(words, "cycles", cycles);
    let end = behind_level(words, "least", least);
    Places {
        row,
        reset,
        window,
        cycles,
        least,
        end,
    }
}

/// Whether the line has the options that its test needs, and no others.
fn has_options(words: &[&[u8]], test: Test, places: Places) -> bool
    ensures { result ≡ spec.has_options (texts words.now) test places }
{
    if is_frequency(test) {
        says(words, places.least, "least")
    } else if is_share(test) {
        says(words, places.least, "least") && places.least == places.cycles
    } else {
        places.end == places.cycles
    }
}

/// Whether the line has the words that it needs, and no more.
fn is_whole(words: &[&[u8]], test: Test, at: usize, places: Places) -> bool
    requires { at ≤ 8 }
    ensures { result ≡ spec.is_whole (texts words.now) test at places }
{
    says(words, at + 1, "of") && words.len() == places.end && has_options(words, test, places)
}

/// The units that the levels of a line name, from place `first` on and in options at these places.
fn units_of(words: &[&[u8]], first: usize, places: Places) -> Units
    requires first { first ≤ 5 }
    requires places { (places.reset ≤ 100) × (places.least ≤ 100) }
    ensures { result ≡ spec.units (texts words.now) first places }
{
    Units {
        level: unit_at(first, is_part(words, first)),
        reset: unit_at(places.reset + 1, has_part(words, "reset", places.reset)),
        least: unit_at(places.least + 1, has_part(words, "least", places.least)),
    }
}

/// Reads the numbers of a line whose level stands from place `first` to `at`, and its options at these
/// places.
fn numbers_of(
    words: &[&[u8]],
    test: Test,
    first: usize,
    at: usize,
    places: Places,
) -> Result<Wish, DetectorFault>
    requires first { first ≤ 5 }
    requires at { at ≤ 8 }
    requires row { places.row ≤ 100 }
    requires places { (places.reset ≤ 100) × (places.window ≤ 100)
        × (places.cycles ≤ 100) × (places.least ≤ 100) }
    ensures value { result ≡ spec.numbers (texts words.now) test first at places }
    ensures bound { IfOk result (λ wish. wish.at ≤ 8) }
{
    let level = read(level_at(words, first, is_part(words, first)))?;
    let row = read(natural_or(words, "for", places.row, 1))?;
    let reset = read(level_or(words, "reset", places.reset, level))?;
    let window = read(window_at(words, places.window))?;
    let cycles = read(natural_or(words, "cycles", places.cycles, 10))?;
    let least = read(level_or(words, "least", places.least, level))?;
    Ok(Wish {
        test,
        level,
        at,
        row,
        reset,
        window,
        cycles,
        least,
        units: units_of(words, first, places),
    })
}

/// What the words of a `detect` line ask for, or the first fault.
pub(crate) fn wish_of(words: &[&[u8]]) -> Result<Wish, DetectorFault>
    ensures value { result ≡ spec.wish (texts words.now) }
    ensures bound { IfOk result (λ wish. wish.at ≤ 8) }
{
    let Some((test, first)) = kind_of(words) else {
        return Err(DetectorFault::Words);
    };
    let at = last_of(words, first);
    let places = places_of(words, at);
    if is_whole(words, test, at, places) {
        numbers_of(words, test, first, at, places)
    } else {
        Err(DetectorFault::Words)
    }
}
