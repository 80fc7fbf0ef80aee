//! What a unit of sampled values says of its stream.

ghost use Rattle.std.specs.Prelude.{◌≡◌};
ghost use Rattle.dfr_bus.specs.SampledValues.{channels};
ghost use Rattle.dfr_look.specs.Units as spec;

use dfr_bus::{Asdu, Sample};

/// What a unit of sampled values says of its stream. The fields have the names of the standard in
/// their comments.
#[derive(Clone, Copy, Debug, PartialEq, Eq)]
pub struct Unit {
    /// The sample count (smpCnt).
    pub count: u16,
    /// How the clock is synchronised (smpSynch).
    pub synch: u8,
    /// The rate that it declares (smpRate).
    pub rate: Option<u16>,
    /// What the rate counts (smpMod).
    pub modulus: Option<u16>,
    /// The revision of the configuration (confRev).
    pub revision: u32,
    /// How many values it has.
    pub values: usize,
    /// The bits that the quality of one of the values has.
    pub quality: u32,
}

/// The quality of a sample; 0 for no sample.
fn quality_in(sample: Option<Sample>) -> u32
    ensures { result ≡ spec.quality_in sample }
{
    match sample {
        None => 0,
        Some(sample) => sample.quality,
    }
}

/// The bits that the quality of one of the values has.
#[tactic(auto, using(crate::proofs::Qualities::qualities))]
fn quality_of(bytes: &[u8], unit: &Asdu) -> u32
    ensures { result ≡ spec.quality_of bytes.now unit.now (channels unit.now) }
{
    let mut quality = 0;
    for i in 0..unit.channels() {
        quality |= quality_in(unit.sample(bytes, i));
    }
    quality
}

/// What a unit says. The bytes are those that it was read from.
pub fn unit_of(bytes: &[u8], unit: &Asdu) -> Unit
    ensures { result ≡ spec.unit_of bytes.now unit.now }
{
    Unit {
        count: unit.smp_cnt,
        synch: unit.smp_synch,
        rate: unit.smp_rate,
        modulus: unit.smp_mod,
        revision: unit.conf_rev,
        values: unit.channels(),
        quality: quality_of(bytes, unit),
    }
}
