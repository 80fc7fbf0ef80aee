//! The table of status channels, with their changes.

ghost use Rattle.std.specs.Prelude.{◌≡◌, ◌++◌, OnOk};
ghost use Rattle.comtrade_views.specs.Texts.{more};

use crate::show::{Clock, put_row_time};
use crate::show_analog::put_names;
use crate::table::{end_row, put_cell, put_table, table_of};
use comtrade_analysis::{bit_at, event_counts_of, first_events_of};
use comtrade_format::{File, Row};
use comtrade_values::{Memory, put, put_count, put_with};
use dfr_channels::StatusChannel;
use std::alloc::{AllocError, Allocator};

/// How many changes of a status channel, and gaps of a channel, are listed.
pub(crate) const LISTED: usize = 20;

/// The words after the changes that are listed, of so many.
pub(crate) fn put_more<A: Allocator>(out: &mut Vec<u8, A>, count: usize) -> Result<(), AllocError>
    ensures { OnOk result (out.new.items ≡ out.old.items ++ more count) }
{
    if LISTED < count {
        put_with(out, " and ", (count - LISTED) as u64)?;
        put(out, " more")?;
    }
    Ok(())
}

/// The first changes of a status channel, which has so many, and how many more there are, up to the
/// end of the row.
fn put_changes<A: Allocator + Copy>(
    table: &mut Vec<u8, A>,
    rows: &[Row<A>],
    clock: Clock<'_>,
    contact: usize,
    count: usize,
) -> Result<(), Memory> {
    let most = count.min(LISTED);
    let events = if 0 < most {
        first_events_of(*table.allocator(), rows, contact, most)?
    } else {
        Vec::new(*table.allocator())
    };
    for (n, event) in events.iter().enumerate() {
        put(table, if n == 0 { "" } else { ", " })?;
        put(table, if event.closed { "1 at " } else { "0 at " })?;
        put_row_time(table, clock, event.row)?;
    }
    put_more(table, count)?;
    Ok(end_row(table)?)
}

/// The row of a status channel: its names, its normal bit, the bit in the first row, its changes,
/// of which it has so many.
fn put_contact<A: Allocator + Copy>(
    table: &mut Vec<u8, A>,
    file: &File<A>,
    clock: Clock<'_>,
    (at, channel): (usize, &StatusChannel<A>),
    count: usize,
) -> Result<(), Memory> {
    let (id, phase) = (channel.id.items(), channel.phase.items());
    put_names(table, at, id, phase, channel.component.items())?;
    put_cell(table, if channel.normal { "1" } else { "0" })?;
    let rows = file.rows.items();
    if let Some(bit) = bit_at(rows, at, 0) {
        put_cell(table, if bit { "1" } else { "0" })?;
    }
    put_changes(table, rows, clock, at, count)
}

/// The columns of the table.
const NAMES: &str = "n\x1Fid\x1Fphase\x1Fcomponent\x1Fnormal\x1Fat first\x1Fchanges\n";

/// The table of status channels, below a line of column names.
fn contact_table<A: Allocator + Copy>(
    alloc: A,
    file: &File<A>,
    clock: Clock<'_>,
) -> Result<Vec<u8, A>, Memory> {
    let contacts = file.head.status.items();
    let counts = event_counts_of(alloc, file.rows.items(), contacts.len())?;
    let mut table = table_of(alloc, NAMES)?;
    for (i, (channel, count)) in contacts.iter().zip(counts.iter()).enumerate() {
        put_contact(&mut table, file, clock, (i, channel), *count)?;
    }
    Ok(table)
}

/// The status channels.
pub(crate) fn put_status<A: Allocator + Copy>(
    out: &mut Vec<u8, A>,
    file: &File<A>,
    clock: Clock<'_>,
) -> Result<(), Memory> {
    let count = file.head.status.items().len() as u64;
    put(out, "\n")?;
    put_count(out, count, " status channel\n", " status channels\n")?;
    if count == 0 {
        return Ok(());
    }
    let table = contact_table(*out.allocator(), file, clock)?;
    Ok(put_table(out, &table)?)
}
