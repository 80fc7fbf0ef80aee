//! The lines of a file of events.

ghost use Rattle.std.specs.Prelude.{◌≡◌, ◌++◌, OnOk, option_copied, slice_get};
ghost use Rattle.dfr_channels.specs.Parts.{status_id};
ghost use Rattle.dfr_sequence.specs.Lines as spec;

use crate::Change;
use crate::contact::differ;
use comtrade_values::{has_date, put, put_civil, put_number, put_with};
use dfr_channels::{Layout, StatusChannel};
use std::alloc::{AllocError, Allocator};

/// The first line, by which a file of events is known: the names of the fields.
pub const EVENT_HEAD: &str = "instant,station,device,channel,id,state,is,changes,lost,scan\n";

/// Appends an instant, in microseconds since 1970-01-01 00:00:00 UTC.
fn put_instant<A: Allocator>(out: &mut Vec<u8, A>, instant: Option<i64>) -> Result<(), AllocError>
    ensures { OnOk result (out.new.items ≡ out.old.items ++ spec.instant_text instant) }
{
    match instant {
        Some(instant) if has_date(instant) => put_civil(out, instant, b' '),
        _ => put(out, "?"),
    }
}

/// Appends the names of station and device, each after a comma.
#[tactic(auto, unfolding(crate::specs::Lines::names_text))]
fn put_names<A: Allocator>(out: &mut Vec<u8, A>, layout: &Layout<A>) -> Result<(), AllocError>
    ensures { OnOk result (out.new.items ≡ out.old.items ++ spec.names_text layout.now) }
{
    put(out, ",")?;
    out.extend_from_slice(layout.station())?;
    put(out, ",")?;
    out.extend_from_slice(layout.device())?;
    put(out, ",")
}

/// Appends the id of a contact.
fn put_id<A: Allocator>(
    out: &mut Vec<u8, A>,
    contact: Option<&StatusChannel<A>>,
) -> Result<(), AllocError>
    ensures { OnOk result (out.new.items ≡ out.old.items ++ status_id (option_copied contact.entry)) }
{
    match contact {
        Some(contact) => out.extend_from_slice(contact.id.items()),
        None => Ok(()),
    }
}

/// Appends a state, and whether it is the normal one of the contact.
fn put_state<A: Allocator>(
    out: &mut Vec<u8, A>,
    contact: Option<&StatusChannel<A>>,
    on: bool,
) -> Result<(), AllocError>
    ensures { OnOk result (out.new.items ≡ out.old.items
        ++ (spec.state_text on ++ spec.is_text (option_copied contact.entry) on)) }
{
    put(out, if on { ",1," } else { ",0," })?;
    match contact {
        Some(contact) if differ(contact.normal, on) => put(out, "off-normal"),
        Some(_) => put(out, "normal"),
        None => Ok(()),
    }
}

/// Appends a contact, counted from 1, with its id, its state and whether that is the normal one.
#[tactic(auto, unfolding(crate::specs::Lines::contact_text))]
fn put_contact<A: Allocator>(
    out: &mut Vec<u8, A>,
    layout: &Layout<A>,
    channel: usize,
    on: bool,
) -> Result<(), AllocError>
    ensures { OnOk result (out.new.items ≡ out.old.items ++ spec.contact_text layout.now channel on) }
{
    let contact = layout.status().get(channel);
    put_number(out, channel as u128 + 1)?;
    put(out, ",")?;
    put_id(out, contact)?;
    put_state(out, contact, on)
}

/// Appends for how many changes the line stands, how many scans were lost before, and the scan.
#[tactic(auto, unfolding(crate::specs::Lines::counts_text))]
fn put_counts<A: Allocator>(out: &mut Vec<u8, A>, change: Change) -> Result<(), AllocError>
    ensures { OnOk result (out.new.items ≡ out.old.items ++ spec.counts_text change) }
{
    put_with(out, ",", change.count as u64)?;
    put_with(out, ",", change.flip.place.lost)?;
    put_with(out, ",", change.flip.place.scan)?;
    put(out, "\n")
}

/// Appends the line of a change of a contact, whose instant is in microseconds since 1970-01-01
/// 00:00:00 UTC, if it is known.
#[tactic(auto, unfolding(crate::specs::Lines::change_line))]
pub fn put_change<A: Allocator>(
    out: &mut Vec<u8, A>,
    layout: &Layout<A>,
    instant: Option<i64>,
    change: Change,
) -> Result<(), AllocError>
    ensures { OnOk result (out.new.items ≡ out.old.items ++ spec.change_line layout.now instant change) }
{
    put_instant(out, instant)?;
    put_names(out, layout)?;
    put_contact(out, layout, change.channel, change.flip.on)?;
    put_counts(out, change)
}

/// Appends the line that says how many changes are missing before the next one.
#[tactic(auto, unfolding(crate::specs::Lines::missing_line))]
pub fn put_missing<A: Allocator>(
    out: &mut Vec<u8, A>,
    layout: &Layout<A>,
    count: u64,
) -> Result<(), AllocError>
    ensures { OnOk result (out.new.items ≡ out.old.items ++ spec.missing_line layout.now count) }
{
    put_names(out, layout)?;
    put_with(out, ",,,missing,", count)?;
    put(out, ",,\n")
}
