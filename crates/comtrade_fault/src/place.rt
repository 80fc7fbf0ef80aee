//! The currents of a file, and the voltages of their place.

ghost use Rattle.std.specs.Prelude.{◌≡◌};
ghost use Rattle.comtrade_fault.specs.Places as spec;

use comtrade_analysis::{Sequence, sequences_in};
use comtrade_values::{Memory, trim};
use dfr_channels::AnalogChannel;
use std::alloc::Allocator;

/// Three currents, and the voltages that go with them, if there are any. Channels count from 0.
#[derive(Clone, Copy, Debug, PartialEq, Eq)]
pub struct Place {
    pub currents: Sequence,
    pub voltages: Option<Sequence>,
}

/// A unit without the prefix of kilo, mega, milli or micro, if more follows.
fn without_prefix(unit: &[u8]) -> &[u8]
    ensures { result.now ≡ spec.without_prefix unit.now }
{
    if unit.len() < 2 || !b"kKmMuU".contains(&unit[0]) {
        unit
    } else {
        &unit[1..]
    }
}

/// Whether the first byte is one of these.
fn begins_with(letters: &[u8], text: &[u8]) -> bool
    ensures { result ≡ spec.begins_with letters.now text.now }
{
    !text.is_empty() && letters.contains(&text[0])
}

/// Whether a unit is that of a current: A, Amps and so on, with or without a prefix.
pub fn is_current(unit: &[u8]) -> bool
    ensures { result ≡ spec.is_current unit.now }
{
    begins_with(b"Aa", without_prefix(trim(unit)))
}

/// Whether a unit is that of a voltage: V, Volts and so on, but not VA or var.
pub fn is_voltage(unit: &[u8]) -> bool
    ensures { result ≡ spec.is_voltage unit.now }
{
    let name = without_prefix(trim(unit));
    begins_with(b"Vv", name) && !begins_with(b"Aa", &name[1..])
}

/// Whether the phases of a sequence are voltages.
fn has_voltages<A: Allocator>(channels: &[AnalogChannel<A>], sequence: Sequence) -> bool {
    match channels.get(sequence.a) {
        Some(channel) => is_voltage(channel.unit.items()),
        None => false,
    }
}

/// Whether they are voltages of the component of a channel.
fn has_voltages_of<A: Allocator>(
    channels: &[AnalogChannel<A>],
    sequence: Sequence,
    one: &AnalogChannel<A>,
) -> bool {
    match channels.get(sequence.a) {
        Some(channel) => {
            is_voltage(channel.unit.items()) && channel.component.items() == one.component.items()
        }
        None => false,
    }
}

/// The voltages that go with a channel: the first ones of its component, else the first ones.
fn voltages_for<A: Allocator>(
    channels: &[AnalogChannel<A>],
    sequences: &[Sequence],
    one: &AnalogChannel<A>,
) -> Option<Sequence> {
    for sequence in sequences {
        if has_voltages_of(channels, *sequence, one) {
            return Some(*sequence);
        }
    }
    for sequence in sequences {
        if has_voltages(channels, *sequence) {
            return Some(*sequence);
        }
    }
    None
}

/// The places of a file's channels, in the order of their phase A. `Memory`: an allocation failed.
pub fn places_in<A: Allocator, B: Allocator + Copy>(
    alloc: B,
    channels: &[AnalogChannel<A>],
) -> Result<Vec<Place, B>, Memory> {
    let sequences = sequences_in(alloc, channels)?;
    let mut places = Vec::new(alloc);
    for sequence in &sequences {
        if let Some(one) = channels.get(sequence.a) {
            if is_current(one.unit.items()) {
                places.push(Place {
                    currents: *sequence,
                    voltages: voltages_for(channels, &sequences, one),
                })?;
            }
        }
    }
    Ok(places)
}
