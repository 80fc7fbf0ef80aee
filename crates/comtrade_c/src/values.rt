//! Converts samples to values.

ghost use Rattle.std.specs.Prelude.{◌≡◌, ◌≢◌, ◌⊎◌, length, map};
ghost use Rattle.comtrade_c.specs.Values as spec;

use crate::answer::{DONE, NO_ROOM};
use crate::rows::NO_SAMPLE;
use comtrade_format::Scale;

/// The value of a missing reading.
pub(crate) const NO_VALUE: f64 = f64::NAN;

fn value_of(scale: Scale, sample: i32) -> f64
    ensures { result ≡ spec.value_of scale sample }
{
    if sample == NO_SAMPLE {
        NO_VALUE
    } else {
        scale.value(sample)
    }
}

/// Computes the value a·x + b of each sample x; a missing sample (-2^31) gives a NaN. Returns
/// `DONE`, or `NO_ROOM`, with nothing changed, if `values` isn't as long as `samples`.
#[unsafe(no_mangle)]
pub extern "C" fn comtrade_core_values(a: f64, b: f64, samples: &[i32], values: &mut [f64]) -> i32
    ensures answer { (result ≡ DONE) ⊎ (result ≡ NO_ROOM) }
    ensures done { result ≡ DONE →
        values.new ≡ map (spec.value_of (record { a = a; b = b })) samples.now }
    ensures room { result ≡ NO_ROOM → length values.old ≢ length samples.now }
    ensures kept { (result ≢ DONE) → values.new ≡ values.old }
{
    if values.len() != samples.len() {
        return NO_ROOM;
    }
    let scale = Scale { a, b };
    for (k, sample) in samples.iter().enumerate() {
        values[k] = value_of(scale, *sample);
    }
    DONE
}
