//! The phasor of the other of two waves, which is kept only where the waves differ.

ghost use Rattle.std.specs.Prelude.{◌≡◌, ◌≤◌, ◌^◌, [], ℕ, unsigned_abs, IfSome};
ghost use Rattle.dfr_detect.specs.Phasors as spec;

use crate::Sample;
use crate::turns::{Shape, Weights};
use crate::waves::{NOTHING, Phasor, moved};

/// The other phasor after this change of a sample, where the waves differ.
#[inline(always)]
pub(crate) fn other_moved(
    phasor: Option<Phasor>,
    weights: Weights,
    change: Sample,
) -> Option<Phasor>
    requires real { IfSome phasor (λ p. unsigned_abs p.real ≤ 2 ^ 67) }
    requires imaginary { IfSome phasor (λ p. unsigned_abs p.imaginary ≤ 2 ^ 67) }
    requires weights { spec.AreWeights weights }
    requires change { spec.IsChange change }
    ensures { result ≡ spec.other_moved phasor weights change }
{
    match phasor {
        Some(phasor) => Some(moved(phasor, weights, change)),
        None => None,
    }
}

/// The phasor of no sample of another wave, where the waves differ.
pub(crate) fn other_nothing(first: Shape, other: Shape) -> Option<Phasor>
    ensures { (n k : ℕ) → spec.IsOther n first other k [] result }
{
    if first == other { None } else { Some(NOTHING) }
}

/// The phasor of the other wave: that of the first, where they are the same.
#[inline(always)]
pub(crate) fn either(one: Phasor, two: Option<Phasor>) -> Phasor
    ensures { result ≡ spec.either one two }
{
    match two {
        Some(phasor) => phasor,
        None => one,
    }
}
