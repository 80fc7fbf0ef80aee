//! Which channels of two records are one by their names, and which measure the same.

ghost use Rattle.std.specs.Prelude.{◌≡◌, ◌↔◌, IsTrue};
ghost use Rattle.std.specs.List.{list_any};
ghost use Rattle.comtrade_analysis.specs.Sequences.{is_same_side};
ghost use Rattle.comtrade_views.specs.Matching.{AreAlike, AreOneKind, AreOnePhase};
ghost use Rattle.comtrade_views.specs.Matching as spec;

use comtrade_analysis::phase_of;
use comtrade_fault::{is_current, is_voltage};
use dfr_channels::{AnalogChannel, Side};
use std::alloc::Allocator;

/// Whether two units are both of a current, or both of a voltage.
fn are_one_kind(one: &[u8], other: &[u8]) -> bool
    ensures { IsTrue result ↔ AreOneKind one.now other.now }
{
    (is_current(one) && is_current(other)) || (is_voltage(one) && is_voltage(other))
}

/// Whether two channels measure the same phase, which is known.
fn are_one_phase<A: Allocator>(one: &AnalogChannel<A>, other: &AnalogChannel<A>) -> bool
    ensures { IsTrue result ↔ AreOnePhase one.now other.now }
{
    let phase = phase_of(one);
    phase.is_some() && phase == phase_of(other)
}

/// Whether two channels measure the same: a voltage, or a current, of one phase, on one side.
fn are_alike<A: Allocator>(one: &AnalogChannel<A>, other: &AnalogChannel<A>) -> bool
    ensures { IsTrue result ↔ AreAlike one.now other.now }
{
    are_one_kind(one.unit.items(), other.unit.items())
        && are_one_phase(one, other)
        && one.side == other.side
}

/// The one channel that is alike; None where none or several are.
pub(crate) fn only_alike<A: Allocator>(
    one: &AnalogChannel<A>,
    others: &[AnalogChannel<A>],
) -> Option<usize> {
    let mut found = None;
    for (place, other) in others.iter().enumerate() {
        if are_alike(one, other) {
            if found.is_some() {
                return None;
            }
            found = Some(place);
        }
    }
    found
}

/// Whether both are values of one side of the transformers.
fn are_one_side(one: Side, other: Side) -> bool
    ensures { result ≡ is_same_side one other }
{
    match (one, other) {
        (Side::Primary, Side::Primary) | (Side::Secondary, Side::Secondary) => true,
        (Side::Primary, Side::Secondary) | (Side::Secondary, Side::Primary) => false,
    }
}

/// Whether two texts are equal, or one of them is empty.
fn agree(one: &[u8], other: &[u8]) -> bool
    ensures { result ≡ spec.agree one.now other.now }
{
    one.is_empty() || other.is_empty() || one == other
}

/// Whether two channels are compared as they are.
pub(crate) fn is_namesake<A: Allocator>(one: &AnalogChannel<A>, other: &AnalogChannel<A>) -> bool
    ensures { result ≡ spec.is_namesake one.now other.now }
{
    one.id.items() == other.id.items()
        && one.unit.items() == other.unit.items()
        && are_one_side(one.side, other.side)
        && agree(one.phase.items(), other.phase.items())
        && agree(one.component.items(), other.component.items())
}

/// Whether a channel is compared as it is with one of these.
pub(crate) fn has_namesake<A: Allocator>(
    channels: &[AnalogChannel<A>],
    one: &AnalogChannel<A>,
) -> bool
    ensures { result ≡ list_any (spec.is_namesake one.now) channels.now }
{
    channels.iter().any(|channel| is_namesake(one, channel))
}
