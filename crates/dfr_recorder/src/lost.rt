//! The scan that fills the place of a lost one.

ghost use Rattle.std.specs.Prelude.{◌≡◌, ◌≤◌, ◌-◌, IfOk, IfNone, length, map, replicate, slice_get, option_copied};
ghost use Rattle.dfr_channels.specs.Setups.{end_of_time};
ghost use Rattle.dfr_channels.specs.Parts.{StatusParts};
ghost use Rattle.dfr_channels.specs.declared.scan.Reading.TheVariants as reading;
ghost use Rattle.dfr_recorder.specs.History.{lost_refusal, bits_after, lost_scan};

use crate::LostRefusal;
use circular_buffer::HeapCircularBuffer;
use comtrade_values::Memory;
use dfr_channels::{Layout, Reading, Scan, StatusChannel};
use std::alloc::Allocator;

/// Why a lost scan numbered `k` would be refused, apart from lack of memory.
pub(crate) fn lost_refusal<A: Allocator>(layout: &Layout<A>, k: u64) -> Option<LostRefusal>
    ensures value { result ≡ lost_refusal layout.now k }
    ensures early { IfNone result (k ≤ end_of_time) }
{
    match layout.instant(k) {
        None => Some(LostRefusal::ClockEnd),
        Some(_) => None,
    }
}

fn all_missing<A: Allocator>(alloc: A, count: usize) -> Result<Vec<Reading, A>, Memory>
    ensures { IfOk result (λ readings. readings.items ≡ replicate count reading.Missing) }
{
    let mut readings = Vec::with_capacity(alloc, count)?;
    for _ in 0..count {
        readings.push(Reading::Missing)?;
    }
    Ok(readings)
}

fn normal_states<A: Allocator>(
    alloc: A,
    channels: &[StatusChannel<A>],
) -> Result<Vec<bool, A>, Memory>
    ensures { IfOk result (λ bits. bits.items ≡ map (λ (channel : StatusParts). channel.normal) channels.now) }
{
    let mut bits = Vec::with_capacity(alloc, channels.len())?;
    for channel in channels {
        bits.push(channel.normal)?;
    }
    Ok(bits)
}

fn bits_after<A: Allocator>(
    alloc: A,
    layout: &Layout<A>,
    before: Option<&Scan<A>>,
) -> Result<Vec<bool, A>, Memory>
    ensures { IfOk result (λ bits. bits.items ≡ bits_after layout.now (option_copied before.entry)) }
{
    match before {
        Some(scan) => Ok(Vec::from_slice(alloc, scan.status())?),
        None => normal_states(alloc, layout.status()),
    }
}

/// The scan that fills the place of a lost one: every reading is missing. The bits are those of the
/// ring's newest scan, or each channel's normal state if the ring is empty.
pub(crate) fn lost_scan<A: Allocator + Copy>(
    layout: &Layout<A>,
    ring: &HeapCircularBuffer<Scan<A>, A>,
) -> Result<Scan<A>, Memory>
    ensures { IfOk result (λ scan. scan ≡ lost_scan layout.now (slice_get ring.now.items (length ring.now.items - 1))) }
{
    let alloc = *ring.allocator();
    let analog = all_missing(alloc, layout.analog().len())?;
    let status = bits_after(alloc, layout, ring.back())?;
    Ok(Scan::new(analog, status))
}
