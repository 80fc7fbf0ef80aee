//! Which channels are the three phases of one unit.

ghost use Rattle.std.specs.Prelude.{◌≡◌, ◌+◌, ◌<◌, ◌≤◌, All, length, position, IfOk, IfSome};
ghost use Rattle.comtrade_analysis.specs.Sequences as spec;

use crate::phases::{Phase, phase_of};
use comtrade_values::Memory;
use dfr_channels::{AnalogChannel, Side};
use std::alloc::Allocator;

/// Three channels that are phases A, B and C of one unit, component and side, and the neutral
/// beside them, if there is one. Channels count from 0.
#[derive(Clone, Copy, Debug, PartialEq, Eq)]
pub struct Sequence {
    pub a: usize,
    pub b: usize,
    pub c: usize,
    pub neutral: Option<usize>,
}

fn is_same_side(one: Side, other: Side) -> bool
    ensures { result ≡ spec.is_same_side one other }
{
    match (one, other) {
        (Side::Primary, Side::Primary) | (Side::Secondary, Side::Secondary) => true,
        (Side::Primary, Side::Secondary) | (Side::Secondary, Side::Primary) => false,
    }
}

/// Whether both have the same unit, component and side.
fn is_beside<A: Allocator>(one: &AnalogChannel<A>, other: &AnalogChannel<A>) -> bool
    ensures { result ≡ spec.is_beside one.now other.now }
{
    one.unit.items() == other.unit.items()
        && one.component.items() == other.component.items()
        && is_same_side(one.side, other.side)
}

/// Whether a channel measures this phase.
fn has_phase<A: Allocator>(phase: Phase, channel: &AnalogChannel<A>) -> bool
    ensures { result ≡ spec.has_phase phase channel.now }
{
    match (phase, phase_of(channel)) {
        (Phase::A, Some(Phase::A))
        | (Phase::B, Some(Phase::B))
        | (Phase::C, Some(Phase::C))
        | (Phase::Neutral, Some(Phase::Neutral)) => true,
        _ => false,
    }
}

/// Whether a channel is this phase of another one's unit.
fn is_phase<A: Allocator>(one: &AnalogChannel<A>, phase: Phase, channel: &AnalogChannel<A>) -> bool
    ensures { result ≡ spec.is_phase one.now phase channel.now }
{
    is_beside(one, channel) && has_phase(phase, channel)
}

/// The index of the first of these channels that is this phase of another one's unit.
fn first_of<A: Allocator>(
    channels: &[AnalogChannel<A>],
    one: &AnalogChannel<A>,
    phase: Phase,
) -> Option<usize>
    ensures value { result ≡ position (spec.is_phase one.now phase) channels.now }
    ensures within { IfSome result (λ k. k < length channels.now) }
{
    channels
        .iter()
        .position(|channel| is_phase(one, phase, channel))
}

/// The channels after one that can be its other phases: those before the next phase A of its unit.
fn after<'a, A: Allocator>(
    channels: &'a [AnalogChannel<A>],
    place: usize,
    one: &AnalogChannel<A>,
) -> &'a [AnalogChannel<A>]
    requires { place < length channels.now }
    ensures value { result.now ≡ spec.after channels.now place one.now }
    ensures within { place + 1 + length result.now ≤ length channels.now }
{
    let rest = &channels[place + 1..];
    match first_of(rest, one, Phase::A) {
        Some(end) => &rest[..end],
        None => rest,
    }
}

/// Whether another channel is phase A of a channel's unit.
fn has_other<A: Allocator>(
    channels: &[AnalogChannel<A>],
    place: usize,
    one: &AnalogChannel<A>,
) -> bool
    requires { place < length channels.now }
    ensures { result ≡ spec.has_other channels.now place one.now }
{
    let front = &channels[..place];
    let rest = &channels[place + 1..];
    first_of(front, one, Phase::A).is_some() || first_of(rest, one, Phase::A).is_some()
}

/// The channels that can be the other phases of one, and the index of the first: all, if no other
/// channel is phase A of its unit, else those after it.
fn stretch_of<'a, A: Allocator>(
    channels: &'a [AnalogChannel<A>],
    place: usize,
    one: &AnalogChannel<A>,
) -> (usize, &'a [AnalogChannel<A>])
    requires { place < length channels.now }
    ensures begin { result.0 ≡ spec.stretch_begin channels.now place one.now }
    ensures value { result.1.now ≡ spec.stretch channels.now place one.now }
    ensures within { result.0 + length result.1.now ≤ length channels.now }
{
    if has_other(channels, place, one) {
        (place + 1, after(channels, place, one))
    } else {
        (0, channels)
    }
}

/// The index of the only one of these channels that is this phase of another one's unit.
fn only_of<A: Allocator>(
    channels: &[AnalogChannel<A>],
    one: &AnalogChannel<A>,
    phase: Phase,
) -> Option<usize>
    ensures value { result ≡ spec.only one.now phase channels.now }
    ensures within { IfSome result (λ k. k < length channels.now) }
{
    let place = first_of(channels, one, phase)?;
    if first_of(&channels[place + 1..], one, phase).is_some() {
        return None;
    }
    Some(place)
}

/// The index of another phase of a channel's unit; None where several channels can be it.
fn partner_of<A: Allocator>(
    channels: &[AnalogChannel<A>],
    place: usize,
    one: &AnalogChannel<A>,
    phase: Phase,
) -> Option<usize>
    requires { place < length channels.now }
    ensures { result ≡ spec.partner channels.now place one.now phase }
{
    let (begin, stretch) = stretch_of(channels, place, one);
    Some(begin + only_of(stretch, one, phase)?)
}

/// The sequence whose phase A is the channel at this index, if there is one.
fn sequence_at<A: Allocator>(channels: &[AnalogChannel<A>], place: usize) -> Option<Sequence>
    requires { place < length channels.now }
    ensures { result ≡ spec.sequence_at channels.now place }
{
    let one = channels.get(place)?;
    if !has_phase(Phase::A, one) {
        return None;
    }
    let b = partner_of(channels, place, one, Phase::B)?;
    let c = partner_of(channels, place, one, Phase::C)?;
    Some(Sequence {
        a: place,
        b,
        c,
        neutral: partner_of(channels, place, one, Phase::Neutral),
    })
}

/// The channels that are phases A, B and C of one unit, component and side, in the order of their
/// phase A. Where a phase B or C could be one of several channels, there is no sequence. `Memory`:
/// an allocation failed.
pub fn sequences_in<A: Allocator, B: Allocator + Copy>(
    alloc: B,
    channels: &[AnalogChannel<A>],
) -> Result<Vec<Sequence, B>, Memory>
    ensures all { IfOk result (λ sequences. sequences.items ≡ spec.sequences channels.now) }
    ensures phases { IfOk result (λ sequences. All (spec.ArePhases channels.now) sequences.items) }
{
    let mut sequences = Vec::new(alloc);
    for place in 0..channels.len() {
        if let Some(sequence) = sequence_at(channels, place) {
            sequences.push(sequence)?;
        }
    }
    Ok(sequences)
}
