//! What a frame of sampled values says.

ghost use Rattle.std.specs.Prelude.{◌≤◌};

use crate::asdu::Asdu;
use crate::span::Span;

/// A frame of sampled values: what follows the EtherType 0x88BA.
#[derive(Clone, Copy, Debug, PartialEq, Eq)]
pub struct SampledValues {
    /// The application's number.
    pub app_id: u16,
    /// The first reserved number. Its highest bit is set for a simulated stream.
    pub reserved_1: u16,
    /// The second reserved number.
    pub reserved_2: u16,
    /// How many of the places are used.
    pub(crate) count: usize,
    pub(crate) places: [Asdu; 8],
    ghost in_range: { count ≤ 8 },
}

impl SampledValues {
    ghost use Rattle.std.specs.Prelude.{◌≡◌};
    ghost use Rattle.dfr_bus.specs.Views.{frame_of};

    /// The application service data units, 1 to 8.
    pub fn asdus(&self) -> &[Asdu]
        ensures { result.now ≡ (frame_of self.now).asdus }
    {
        &self.places[..self.count]
    }
}

/// A place that isn't used.
pub(crate) const EMPTY: Asdu = Asdu {
    sv_id: Span { from: 0, to: 0 },
    dat_set: None,
    smp_cnt: 0,
    conf_rev: 0,
    refr_tm: None,
    smp_synch: 0,
    smp_rate: None,
    seq_data: Span { from: 0, to: 0 },
    smp_mod: None,
    gm_identity: None,
};
