//! The lines of analogue channels: `value ID,STREAM,VALUE,DIVISOR,MASK[,clip]`.

ghost use Rattle.std.specs.Prelude.{◌≡◌, ◌≤◌, IfOk};
ghost use Rattle.std.specs.List.{list_any};
ghost use Rattle.comtrade_values.specs.Lines.{texts};
ghost use Rattle.dfr_capture.specs.Plans.{has_divisor};
ghost use Rattle.dfr_plan.specs.Refusing.{Makes};
ghost use Rattle.dfr_plan.specs.Values as spec;

use crate::PlanFault;
use crate::draft::Draft;
use crate::fault::{LineRefusal, needed};
use crate::line::{field_at, is_word};
use crate::number::number_of;
use dfr_bay::{Channel, OutOfRange};
use dfr_channels::{AnalogChannel, Layout};
use std::alloc::Allocator;

/// Whether a channel has this name.
fn is_named<A: Allocator>(name: &[u8], channel: &AnalogChannel<A>) -> bool
    ensures { result ≡ spec.is_named name.now channel.now }
{
    channel.id.items() == name
}

/// Whether a channel has this name.
fn has_name<A: Allocator>(channels: &[AnalogChannel<A>], name: &[u8]) -> bool
    ensures { result ≡ list_any (spec.is_named name.now) channels.now }
{
    channels.iter().any(|c| is_named(name, c))
}

/// Why the next channel, number `n`, doesn't have this name.
fn name_fault<A: Allocator>(
    channels: &[AnalogChannel<A>],
    n: usize,
    name: &[u8],
) -> Option<PlanFault>
    ensures { result ≡ spec.name_fault channels.now n name.now }
{
    if n >= channels.len() {
        Some(PlanFault::ManyValues)
    } else if is_named(name, &channels[n]) {
        None
    } else if has_name(channels, name) {
        Some(PlanFault::ChannelOrder)
    } else {
        Some(PlanFault::Channel)
    }
}

/// A number from 1 to so many, counted from 0.
pub(crate) fn numbered(many: usize, beyond: PlanFault, text: &[u8]) -> Result<usize, PlanFault>
    ensures { result ≡ spec.numbered many beyond text.now }
{
    let number = needed(number_of(text), PlanFault::Number)? as usize;
    if 1 <= number && number <= many {
        Ok(number - 1)
    } else {
        Err(beyond)
    }
}

/// A number up to a limit.
pub(crate) fn up_to(most: u32, beyond: PlanFault, text: &[u8]) -> Result<usize, PlanFault>
    ensures { result ≡ spec.up_to most beyond text.now }
{
    let number = needed(number_of(text), PlanFault::Number)?;
    if number <= most {
        Ok(number as usize)
    } else {
        Err(beyond)
    }
}

/// How many units of the value are one of the reading.
fn divisor_of(text: &[u8]) -> Result<u32, PlanFault>
    ensures value { result ≡ spec.divisor text.now }
    ensures bound { IfOk result (λ n. 1 ≤ n) }
{
    let number = needed(number_of(text), PlanFault::Number)?;
    if number == 0 {
        Err(PlanFault::Divisor)
    } else {
        Ok(number)
    }
}

/// What becomes of a value that is out of range.
fn clip_of(fields: &[&[u8]]) -> Result<OutOfRange, PlanFault>
    ensures { result ≡ spec.clip (texts fields.now) }
{
    if fields.len() == 5 {
        Ok(OutOfRange::Lost)
    } else if is_word(field_at(fields, 5), "clip") {
        Ok(OutOfRange::Clipped)
    } else {
        Err(PlanFault::Clip)
    }
}

/// The channel of these fields, where there are so many streams.
fn channel_of(streams: usize, fields: &[&[u8]]) -> Result<Channel, PlanFault>
    ensures value { result ≡ spec.channel streams (texts fields.now) }
    ensures bound { IfOk result (λ c. has_divisor c) }
{
    let stream = numbered(streams, PlanFault::Stream, field_at(fields, 1))?;
    let index = up_to(255, PlanFault::Value, field_at(fields, 2))?;
    let divisor = divisor_of(field_at(fields, 3))?;
    let mask = needed(number_of(field_at(fields, 4)), PlanFault::Number)?;
    let out_of_range = clip_of(fields)?;
    Ok(Channel {
        stream,
        index,
        mask,
        divisor,
        out_of_range,
    })
}

/// Whether a line may have so many fields.
fn is_many(fields: &[&[u8]]) -> bool
    ensures { result ≡ spec.is_many (texts fields.now) }
{
    fields.len() == 5 || fields.len() == 6
}

/// Adds the channel of these fields.
pub(crate) fn add_value<A: Allocator>(
    layout: &Layout<A>,
    draft: &mut Draft<A>,
    fields: &[&[u8]],
) -> Result<(), LineRefusal>
    ensures { Makes (spec.with_fields layout.now draft.old (texts fields.now)) draft.new result }
{
    if !is_many(fields) {
        return Err(LineRefusal::Fault(PlanFault::Fields));
    }
    if let Some(fault) = name_fault(layout.analog(), draft.channels.len(), field_at(fields, 0)) {
        return Err(LineRefusal::Fault(fault));
    }
    let channel = channel_of(draft.streams.len(), fields)?;
    draft.channels.push(channel)?;
    Ok(())
}
