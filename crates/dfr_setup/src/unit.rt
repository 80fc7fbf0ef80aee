//! The units that the levels of a line name.

ghost use Rattle.std.specs.Prelude.{◌≡◌, slice_get};
ghost use Rattle.comtrade_values.specs.Lines.{texts};
ghost use Rattle.dfr_setup.specs.Units as spec;

use crate::Test;
use crate::level::Units;
use crate::line::word_at;
use crate::tested::{is_frequency, is_share};
use comtrade_values::is_word;
use dfr_channels::AnalogChannel;
use std::alloc::Allocator;

/// Whether the channel with this number has this unit.
fn has_unit<A: Allocator>(channels: &[AnalogChannel<A>], i: usize, unit: &[u8]) -> bool
    ensures { result ≡ spec.is_of unit.now (slice_get channels.now i) }
{
    match channels.get(i) {
        Some(channel) => channel.unit.items() == unit,
        None => false,
    }
}

/// Whether each of these channels, by number, has this unit.
fn is_theirs<A: Allocator>(channels: &[AnalogChannel<A>], numbers: &[usize], unit: &[u8]) -> bool
    ensures { result ≡ spec.is_theirs channels.now numbers.now unit.now }
{
    numbers.iter().all(|i| has_unit(channels, *i, unit))
}

/// Whether the unit is that of a frequency, or of its change.
fn is_hertz(test: Test, unit: &[u8]) -> bool
    ensures { result ≡ spec.is_hertz test unit.now }
{
    match test {
        Test::FrequencyChange => is_word(unit, "Hz/s"),
        _ => is_word(unit, "Hz"),
    }
}

/// Whether the unit is that of the levels of a test of these channels.
fn is_levels<A: Allocator>(
    test: Test,
    channels: &[AnalogChannel<A>],
    numbers: &[usize],
    unit: &[u8],
) -> bool
    ensures { result ≡ spec.is_levels test channels.now numbers.now unit.now }
{
    if is_frequency(test) {
        is_hertz(test, unit)
    } else if is_share(test) {
        is_word(unit, "%")
    } else {
        is_theirs(channels, numbers, unit)
    }
}

/// Whether the unit at this place, if one is named, is that of the levels of a test.
fn fits_levels<A: Allocator>(
    test: Test,
    channels: &[AnalogChannel<A>],
    numbers: &[usize],
    words: &[&[u8]],
    place: Option<usize>,
) -> bool
    ensures { result
        ≡ spec.if_named (spec.is_levels test channels.now numbers.now) (texts words.now) place }
{
    match place {
        Some(i) => is_levels(test, channels, numbers, word_at(words, i)),
        None => true,
    }
}

/// Whether the unit at this place, if one is named, is that of the channels.
fn fits_channels<A: Allocator>(
    channels: &[AnalogChannel<A>],
    numbers: &[usize],
    words: &[&[u8]],
    place: Option<usize>,
) -> bool
    ensures { result
        ≡ spec.if_named (spec.is_theirs channels.now numbers.now) (texts words.now) place }
{
    match place {
        Some(i) => is_theirs(channels, numbers, word_at(words, i)),
        None => true,
    }
}

/// Whether the units that the levels of these words name are those of a test of these channels.
pub(crate) fn has_units<A: Allocator>(
    test: Test,
    channels: &[AnalogChannel<A>],
    numbers: &[usize],
    words: &[&[u8]],
    units: Units,
) -> bool
    ensures { result ≡ spec.has_units test channels.now numbers.now (texts words.now) units }
{
    fits_levels(test, channels, numbers, words, units.level)
        && fits_levels(test, channels, numbers, words, units.reset)
        && fits_channels(channels, numbers, words, units.least)
}
