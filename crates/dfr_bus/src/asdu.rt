//! One application service data unit of a frame of sampled values.

ghost use Rattle.std.specs.Prelude.{◌≡◌, ◌+◌, ◌-◌, ◌*◌, ◌<◌, ◌≤◌, length, IfOk, Some, None, if◌then◌else◌, nat_le, nat_lt, ◌&&◌};
ghost use Rattle.dfr_bus.specs.SampledValues as spec;

use crate::ber::{element_at, field_at, optional_2_at, optional_at, optional_field_at};
use crate::fault::{Fault, Wrong, fault_at};
use crate::numbers::{big_2, big_4};
use crate::span::Span;

/// An application service data unit: one sample of each channel of a stream. The names are those
/// of IEC 61850-9-2.
#[derive(Clone, Copy, Debug, PartialEq, Eq)]
pub struct Asdu {
    /// The name of the stream.
    pub sv_id: Span,
    /// The name of its dataset.
    pub dat_set: Option<Span>,
    /// The number of the sample.
    pub smp_cnt: u16,
    /// The revision of the configuration.
    pub conf_rev: u32,
    /// When the buffer was refreshed: 8 bytes.
    pub refr_tm: Option<Span>,
    /// How the clock is synchronised: 0 not at all, 1 locally, 2 globally, 5 to 254 locally to the
    /// clock of this number.
    pub smp_synch: u8,
    /// The rate of the samples.
    pub smp_rate: Option<u16>,
    /// The values and their qualities.
    pub seq_data: Span,
    /// What the rate counts: 0 samples per period, 1 per second, 2 seconds per sample.
    pub smp_mod: Option<u16>,
    /// The identity of the clock: 8 bytes.
    pub gm_identity: Option<Span>,
}

/// The sample of a channel.
#[derive(Clone, Copy, Debug, PartialEq, Eq)]
pub struct Sample {
    /// The value, in the units of the dataset.
    pub value: i32,
    /// Its quality: 32 bits, 0 for a good value.
    pub quality: u32,
}

impl Asdu {
    /// How many channels the data has.
    pub fn channels(&self) -> usize
        ensures { result ≡ spec.channels self.now }
    {
        if self.seq_data.to < self.seq_data.from {
            return 0;
        }
        (self.seq_data.to - self.seq_data.from) / 8
    }

    /// The sample of a channel. The bytes are those that the unit was read from.
    pub fn sample(&self, bytes: &[u8], channel: usize) -> Option<Sample>
        ensures { result ≡ (if nat_lt channel (spec.channels self.now) && nat_le self.now.seq_data.to (length bytes.now)
            then Some (spec.sample_at bytes.now self.now channel) else None) }
    {
        if channel >= self.channels() || self.seq_data.to > bytes.len() {
            return None;
        }
        let at = self.seq_data.from + 8 * channel;
        Some(Sample {
            value: big_4(bytes, at).cast_signed(),
            quality: big_4(bytes, at + 4),
        })
    }
}

/// The content of the element with this tag: values and qualities of 4 bytes each.
#[tactic(auto, unfolding(crate::specs::SampledValues::data_at))]
fn data_at(bytes: &[u8], at: usize, end: usize, tag: u8) -> Result<Span, Fault>
    requires order { at ≤ end }
    requires within { end ≤ length bytes.now }
    ensures exact { result ≡ spec.data_at bytes.now at end tag }
    ensures inside { IfOk result (λ s. (at < s.from) × (s.from ≤ s.to) × (s.to ≤ end)) }
{
    let content = element_at(bytes, at, end, tag)?;
    if (content.to - content.from) % 8 != 0 {
        return Err(fault_at(at, Wrong::Uneven));
    }
    Ok(content)
}

/// The application service data unit from `at` to `end`.
#[tactic(auto, unfolding(crate::specs::SampledValues::asdu_at))]
pub(crate) fn asdu_at(bytes: &[u8], at: usize, end: usize) -> Result<Asdu, Fault>
    requires order { at ≤ end }
    requires within { end ≤ length bytes.now }
    ensures { result ≡ spec.asdu_at bytes.now at end }
{
    let sv_id = element_at(bytes, at, end, 0x80)?;
    let (dat_set, after) = optional_at(bytes, sv_id.to, end, 0x81)?;
    let smp_cnt = field_at(bytes, after, end, 0x82, 2)?;
    let conf_rev = field_at(bytes, smp_cnt.to, end, 0x83, 4)?;
    let (refr_tm, after) = optional_field_at(bytes, conf_rev.to, end, 0x84, 8)?;
    let smp_synch = field_at(bytes, after, end, 0x85, 1)?;
    let (smp_rate, after) = optional_2_at(bytes, smp_synch.to, end, 0x86)?;
    let seq_data = data_at(bytes, after, end, 0x87)?;
    let (smp_mod, after) = optional_2_at(bytes, seq_data.to, end, 0x88)?;
    let (gm_identity, after) = optional_field_at(bytes, after, end, 0x89, 8)?;
    if after != end {
        return Err(fault_at(after, Wrong::Trailing));
    }
    Ok(Asdu {
        sv_id,
        dat_set,
        smp_cnt: big_2(bytes, smp_cnt.from),
        conf_rev: big_4(bytes, conf_rev.from),
        refr_tm,
        smp_synch: bytes[smp_synch.from],
        smp_rate,
        seq_data,
        smp_mod,
        gm_identity,
    })
}
