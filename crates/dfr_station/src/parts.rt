//! What a station allocates before it records.

ghost use Rattle.std.specs.Prelude.{◌≡◌, IfOk, is_some};
ghost use Rattle.dfr_live.specs.Seen.{opening_of};
ghost use Rattle.dfr_station.specs.Dated.{is_followed};
ghost use Rattle.dfr_station.specs.Stations.{IsFresh};

use crate::contacts::{Changes, Contacts, contacts_of};
use crate::desk::Placed;
use crate::filler::Filler;
use crate::teller::{Teller, Waiting, telling_of};
use crate::times::timebase_of;
use comtrade_values::Memory;
use dfr_channels::Layout;
use dfr_clock::{Reading, Timebase};
use dfr_recorder::Recorder;
use dfr_sequence::Limit;
use rtrb::{Consumer, Producer, RingBuffer};
use std::alloc::Allocator;

/// The most orders of the input that may wait.
const ORDERS: usize = 1_024;

/// What is allocated for the devices of a station.
#[derive(Drop)]
pub(crate) struct Parts<A: Allocator> {
    pub(crate) filler: Filler<A>,
    pub(crate) tellers: (Teller<A>, Teller<A>, Teller<A>),
    pub(crate) events: (Waiting<A>, Waiting<A>, Waiting<A>),
    pub(crate) orders: (Producer<Placed<A>, A>, Consumer<Placed<A>, A>),
    pub(crate) contacts: (Option<Contacts<A>>, Option<Changes<A>>),
}

/// The most changes of a contact in a second that may be asked for.
const MOST: usize = 1_000;

/// Both ends of the queue of changes, if they are told.
fn both_ends<A: Allocator + Copy>(
    alloc: A,
    layout: &Layout<A>,
    chatter: Option<usize>,
    normal: &[bool],
) -> Result<(Option<Contacts<A>>, Option<Changes<A>>), Memory> {
    let Some(most) = chatter else {
        return Ok((None, None));
    };
    let limit = Limit {
        most: most.clamp(1, MOST),
        rate: layout.rate(),
    };
    let (contacts, changes) = contacts_of(alloc, limit, normal)?;
    Ok((Some(contacts), Some(changes)))
}

/// Allocates the parts. The layout is that of the input.
fn parts_in<A: Allocator + Copy>(
    alloc: A,
    layout: &Layout<A>,
    chatter: Option<usize>,
) -> Result<Parts<A>, Memory>
    ensures { IfOk result (λ parts. IsFresh layout.now parts) }
{
    let filler = Filler::new(alloc, layout)?;
    let (scans, of_scans) = telling_of(alloc)?;
    let (triggers, of_triggers) = telling_of(alloc)?;
    let (exports, of_exports) = telling_of(alloc)?;
    let orders = RingBuffer::new(alloc, ORDERS)?;
    let contacts = both_ends(alloc, layout, chatter, filler.bits())?;
    Ok(Parts {
        filler,
        tellers: (scans, triggers, exports),
        events: (of_scans, of_triggers, of_exports),
        orders,
        contacts,
    })
}

/// A copy of the recorder's layout, which the devices look at, and their parts, for an input with
/// these channels; and the timebase, if the clock is followed.
pub(crate) fn layout_and_parts<A: Allocator + Copy>(
    alloc: A,
    recorder: &Recorder<A>,
    inputs: &Layout<A>,
    most: (u32, Option<usize>),
    clocks: Option<Reading>,
) -> Result<(Layout<A>, Parts<A>, Option<Timebase<A>>), Memory>
    ensures { IfOk result (λ made. (made.0 ≡ (opening_of recorder.now).layout)
        × IsFresh inputs.now made.1 × (is_some made.2 ≡ is_followed clocks)) }
{
    let layout = recorder.layout().try_clone()?;
    let (gap, chatter) = most;
    let parts = parts_in(alloc, inputs, chatter)?;
    let times = timebase_of(alloc, layout.rate(), gap, clocks)?;
    Ok((layout, parts, times))
}
