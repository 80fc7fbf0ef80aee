//! The channels of a detector's sum.

ghost use Rattle.std.specs.Prelude.{◌≡◌, ◌==◌, ◌≤◌, ◌<◌, ◌^◌, IfOk, IfSome, position, length};
ghost use Rattle.std.specs.List.{slice_split};
ghost use Rattle.std.specs.Str.{bytes_eq};
ghost use Rattle.comtrade_values.specs.Lines.{texts};
ghost use Rattle.dfr_setup.specs.Addends as spec;
ghost use Rattle.dfr_setup.specs.Refusing.{Is, Makes};

use crate::{DetectorFault, DetectorRefusal, Test};
use comtrade_values::{Decimal, natural_of};
use dfr_channels::AnalogChannel;
use std::alloc::{AllocError, Allocator, Global};
use std::marker::Model;

/// A sum of channels with the same multiplier.
#[derive(Drop, Debug)]
pub(crate) struct Sum<A: Allocator = Global> {
    /// Their numbers, from 0.
    pub(crate) channels: Vec<usize, A>,
    /// Their multiplier. None if there is no channel.
    pub(crate) a: Option<Decimal>,
    /// The greatest size of a sum of their samples.
    pub(crate) most: u64,
}

impl<A: Allocator> Model for Sum<A> {
    ghost use Rattle.std.specs.Prelude.{◌≤◌, ◌*◌, ◌^◌, length};
    ghost use Rattle.dfr_setup.specs.Addends.{SumParts};

    ghost Value = { SumParts };

    ghost view = { λ s. record { channels = s.channels.items; a = s.a; most = s.most } };

    ghost invariant = { λ s. (length s.channels.items ≤ 256)
        × (s.most ≤ length s.channels.items * 2 ^ 31) };
}

/// The parts of a text, separated by this byte.
pub(crate) fn parts_of<'a, A: Allocator>(
    alloc: A,
    text: &'a [u8],
    mark: u8,
) -> Result<Vec<&'a [u8], A>, AllocError>
    ensures { IfOk result (λ v. texts v.items ≡ slice_split (λ b. b == mark) text.now) }
{
    text.split(|b| *b == mark).collect(alloc)
}

/// Whether this is the channel's id.
fn has_id<A: Allocator>(channel: &AnalogChannel<A>, word: &[u8]) -> bool
    ensures { result ≡ bytes_eq channel.now.id word.now }
{
    channel.id.items() == word
}

/// The channel of this number, if there are so many.
fn by_number(count: usize, n: u32) -> Option<usize>
    ensures value { result ≡ spec.by_number count n }
    ensures bound { IfSome result (λ i. i < count) }
{
    let n = n as usize;
    if n < count { Some(n) } else { None }
}

/// The first channel with this id, which may be empty.
fn with_id<A: Allocator>(channels: &[AnalogChannel<A>], word: &[u8]) -> Option<usize>
    ensures value { result ≡ position (λ c. bytes_eq c.id word.now) channels.now }
    ensures bound { IfSome result (λ i. i < length channels.now) }
{
    channels.iter().position(|c| has_id(c, word))
}

/// The first channel with this id, which is not empty.
fn by_id<A: Allocator>(channels: &[AnalogChannel<A>], word: &[u8]) -> Option<usize>
    ensures value { result ≡ spec.by_id channels.now word.now }
    ensures bound { IfSome result (λ i. i < length channels.now) }
{
    if word.is_empty() {
        None
    } else {
        with_id(channels, word)
    }
}

/// The channel that a word names, by its number or its id.
fn channel_of<A: Allocator>(channels: &[AnalogChannel<A>], word: &[u8]) -> Option<usize>
    ensures value { result ≡ spec.channel_of channels.now word.now }
    ensures bound { IfSome result (λ i. i < length channels.now) }
{
    match natural_of(word) {
        Some(n) => by_number(channels.len(), n),
        None => by_id(channels, word),
    }
}

/// Whether a test looks at a channel with an offset.
fn takes_offset(test: Test) -> bool
    ensures { result ≡ spec.takes_offset test }
{
    match test {
        Test::Change | Test::Jump => true,
        _ => false,
    }
}

/// The largest size of a sample.
fn largest<A: Allocator>(channel: &AnalogChannel<A>) -> u32
    ensures value { result ≡ spec.largest channel.now }
    ensures bound { result ≤ 2 ^ 31 }
{
    let (low, high) = (channel.min.unsigned_abs(), channel.max.unsigned_abs());
    if low < high { high } else { low }
}

impl<A: Allocator> Sum<A> {
    ghost use Rattle.std.specs.Prelude.{◌≡◌, Some, None};
    ghost use Rattle.dfr_setup.specs.Addends as spec;
    ghost use Rattle.dfr_setup.specs.Refusing.{Makes};

    /// No channel yet.
    fn new(alloc: A) -> Sum<A>
        ensures { result ≡ spec.no_sum }
    {
        Sum {
            channels: Vec::new(alloc),
            a: None,
            most: 0,
        }
    }

    /// Why this channel can't be added.
    fn fault_of(&self, test: Test, channel: &AnalogChannel<A>) -> Option<DetectorFault>
        ensures { result ≡ spec.addend_fault test self.now channel.now }
    {
        if !takes_offset(test) && channel.b.units() != 0 {
            return Some(DetectorFault::Offset);
        }
        if let Some(a) = self.a
            && a != channel.a
        {
            return Some(DetectorFault::Unequal);
        }
        if self.channels.len() >= 256 {
            return Some(DetectorFault::Wide);
        }
        None
    }

    /// Adds a channel.
    fn add(
        &mut self,
        test: Test,
        i: usize,
        channel: &AnalogChannel<A>,
    ) -> Result<(), DetectorRefusal>
        ensures { Makes (spec.with_channel test self.old i (Some channel.now)) self.new result }
    {
        if let Some(fault) = self.fault_of(test, channel) {
            return Err(DetectorRefusal::Fault(fault));
        }
        self.channels.push(i)?;
        self.a = Some(channel.a);
        self.most += u64::from(largest(channel));
        Ok(())
    }

    /// Adds the channel that a word names.
    fn add_word(
        &mut self,
        test: Test,
        channels: &[AnalogChannel<A>],
        word: &[u8],
    ) -> Result<(), DetectorRefusal>
        ensures { Makes (spec.with_word channels.now test self.old word.now) self.new result }
    {
        match channel_of(channels, word) {
            Some(i) => self.add(test, i, &channels[i]),
            None => Err(DetectorRefusal::Fault(DetectorFault::Channel)),
        }
    }
}

/// The sum of the channels that a text names, separated by plus signs.
pub(crate) fn sum_of<A: Allocator + Copy>(
    alloc: A,
    channels: &[AnalogChannel<A>],
    test: Test,
    text: &[u8],
) -> Result<Sum<A>, DetectorRefusal>
    ensures { Is (λ x. x)
        (spec.with_words channels.now test spec.no_sum (slice_split (λ b. b == 43) text.now)) result }
{
    let words = parts_of(alloc, text, b'+')?;
    let mut sum = Sum::new(alloc);
    let mut left = words.as_slice();
    while let [word, rest @ ..] = left {
        sum.add_word(test, channels, word)?;
        left = rest;
    }
    Ok(sum)
}
