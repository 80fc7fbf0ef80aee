//! Which channels of two records match.

ghost use Rattle.std.specs.Prelude.{◌↔◌, IfOk, IsTrue, Some};
ghost use Rattle.std.specs.List.{AllZip};
ghost use Rattle.comtrade_plot.specs.Equal.{AgreeIn, AreEqual, IsPartner};

use dfr_channels::AnalogChannel;
use std::alloc::{AllocError, Allocator};

/// Whether two texts are equal, or one of them is empty.
fn agree_in(one: &[u8], other: &[u8]) -> bool
    ensures { IsTrue result ↔ AgreeIn one.now other.now }
{
    one.is_empty() || other.is_empty() || one == other
}

/// Whether two channels have the same name, unit and side, and their phases and components agree
/// where both are given.
pub fn is_equal<A: Allocator>(one: &AnalogChannel<A>, other: &AnalogChannel<A>) -> bool
    ensures { IsTrue result ↔ AreEqual one.now other.now }
{
    one.id.items() == other.id.items()
        && one.unit.items() == other.unit.items()
        && one.side == other.side
        && agree_in(one.phase.items(), other.phase.items())
        && agree_in(one.component.items(), other.component.items())
}

/// Whether the channel at this index matches and is not yet a partner.
fn is_free<A: Allocator>(
    one: &AnalogChannel<A>,
    others: &[AnalogChannel<A>],
    place: usize,
    taken: &[Option<usize>],
) -> bool
    ensures { IsTrue result → IsPartner others.now one.now (Some place) }
{
    if taken.contains(&Some(place)) || others.len() <= place {
        return false;
    }
    is_equal(one, &others[place])
}

/// The first matching channel that is not yet a partner.
fn partner_of<A: Allocator>(
    one: &AnalogChannel<A>,
    others: &[AnalogChannel<A>],
    taken: &[Option<usize>],
) -> Option<usize>
    ensures { IsPartner others.now one.now result }
{
    for place in 0..others.len() {
        if is_free(one, others, place, taken) {
            return Some(place);
        }
    }
    None
}

/// The index of each channel's partner in the other record. Of channels with the same name, the
/// first goes with the first.
pub fn partners_of<A: Allocator + Copy>(
    alloc: A,
    ones: &[AnalogChannel<A>],
    others: &[AnalogChannel<A>],
) -> Result<Vec<Option<usize>, A>, AllocError>
    ensures { IfOk result (λ partners. AllZip (IsPartner others.now) ones.now partners.items) }
{
    let mut partners = Vec::new(alloc);
    for one in ones {
        partners.push(partner_of(one, others, &partners))?;
    }
    Ok(partners)
}
