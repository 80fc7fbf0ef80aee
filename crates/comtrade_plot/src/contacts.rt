//! The bars of status channels (contacts), and the line for those that do not change.

use crate::axis::{put_gaps, put_grid, put_trigger};
use crate::layers::Layer;
use crate::layout::{Band, CONTACT, Chart, contact_height};
use crate::legend::{NAMES, put_name};
use crate::plan::{Down, LEFT, RIGHT};
use crate::rows::bit_at;
use crate::sheet::Sheet;
use comtrade_format::Row;
use comtrade_io::ToolFault;
use dfr_channels::StatusChannel;
use std::alloc::Allocator;

/// The first row that is drawn.
fn first_drawn<'a, A: Allocator>(chart: &Chart<'a, A>) -> Option<&'a Row<A>> {
    let file = chart.file;
    let rows = file.rows.items();
    for (row, place) in rows.iter().zip(chart.places.iter()) {
        if place.is_some() {
            return Some(row);
        }
    }
    None
}

/// Marks the status channels that change in the rows that are drawn; all of them, if otherwise only
/// one would have no mark.
fn mark_drawn<A: Allocator>(chart: &Chart<'_, A>, changed: &mut [bool]) {
    let Some(first) = first_drawn(chart) else {
        return;
    };
    let file = chart.file;
    let rows = file.rows.items();
    for (row, place) in rows.iter().zip(chart.places.iter()) {
        if place.is_some() {
            let bits = first.bits.items().iter().zip(row.bits.items().iter());
            for (mark, (one, other)) in changed.iter_mut().zip(bits) {
                *mark = *mark || one != other;
            }
        }
    }
    if unmarked(changed) == 1 {
        for mark in changed.iter_mut() {
            *mark = true;
        }
    }
}

/// Whether each status channel has a bar: it changes in the rows that are drawn, or all are to be
/// shown, or it would be the only one without.
pub(crate) fn bars_of<A: Allocator + Copy>(
    chart: &Chart<'_, A>,
    shows_all: bool,
) -> Result<Vec<bool, A>, ToolFault> {
    let file = chart.file;
    let mut changed = Vec::new(chart.alloc);
    for _ in 0..file.head.status.items().len() {
        changed.push(shows_all)?;
    }
    mark_drawn(chart, &mut changed);
    Ok(changed)
}

/// How many have no mark.
fn unmarked(marks: &[bool]) -> usize {
    marks.iter().filter(|mark| !**mark).count()
}

/// The height of the bars of status channels.
fn bars_height<A: Allocator>(chart: &Chart<'_, A>, bars: &[bool]) -> Down {
    let file = chart.file;
    let mut height = Down::at(0);
    for (channel, has_bar) in file.head.status.items().iter().zip(bars.iter()) {
        if *has_bar {
            height = height.after(contact_height(channel));
        }
    }
    height
}

/// The height of the bars of status channels, with the line for the others.
pub(crate) fn contacts_height<A: Allocator>(chart: &Chart<'_, A>, bars: &[bool]) -> Down {
    let height = bars_height(chart, bars);
    if unmarked(bars) == 0 {
        height
    } else {
        height.below(CONTACT)
    }
}

/// A bar that is not drawn yet: where it begins, and where it ends so far.
#[derive(Clone, Copy)]
struct Bar {
    from: u32,
    to: u32,
    is_open: bool,
}

/// A bar is at least half a pixel wide, and ends within the panels.
fn put_bar<A: Allocator>(sheet: &mut Sheet<A>, bar: Option<Bar>, top: Down) {
    if let Some(bar) = bar {
        let from = bar.from.min(RIGHT - 5);
        let width = bar.to.clamp(from + 5, RIGHT) - from;
        sheet.point("M", from, top.below(30).tenths);
        sheet.along("h", width);
        sheet.along("v12h-", width);
        sheet.text("z");
    }
}

/// The bars of a status channel, from each row where its bit becomes 1 to the next one where it
/// becomes 0; none over a gap. Bars less than half a pixel apart are joined.
fn put_bars<A: Allocator>(sheet: &mut Sheet<A>, chart: &Chart<'_, A>, top: Down, channel: usize) {
    let file = chart.file;
    let rows = file.rows.items();
    let mut bar: Option<Bar> = None;
    for (row, place) in rows.iter().zip(chart.places.iter()) {
        let Some(x) = *place else {
            put_bar(sheet, bar, top);
            bar = None;
            continue;
        };
        let is_one = bit_at(row, channel);
        bar = match bar {
            Some(bar) if bar.is_open || is_one && x.max(bar.to) - bar.to <= 5 => Some(Bar {
                from: bar.from,
                to: x,
                is_open: is_one,
            }),
            ended if is_one => {
                put_bar(sheet, ended, top);
                Some(Bar {
                    from: x,
                    to: x,
                    is_open: true,
                })
            }
            ended => ended,
        };
    }
    put_bar(sheet, bar, top);
}

/// A status channel's name, and its bars.
fn put_contact<A: Allocator>(
    sheet: &mut Sheet<A>,
    chart: &Chart<'_, A>,
    channel: &StatusChannel<A>,
    at: usize,
    top: Down,
) {
    let tag = chart.layer.tag();
    put_name(sheet, tag, channel.id.items(), b"", top.below(130));
    sheet.text("<path class=\"e\" stroke=\"#c4c8cc\" d=\"");
    sheet.point("M", LEFT, top.below(150).tenths);
    sheet.along("H", RIGHT);
    sheet.text(if channel.normal {
        "\"/>\n<path class=\"k\" fill=\"#8fb79a\" d=\""
    } else {
        "\"/>\n<path class=\"o\" fill=\"#2e6b38\" d=\""
    });
    put_bars(sheet, chart, top, at);
    sheet.text("\"/>\n");
}

/// How many of the status channels that do not change have this bit.
fn unchanged_at(bars: &[bool], bits: &[bool], state: bool) -> u64 {
    let states = bars.iter().zip(bits.iter());
    states
        .filter(|(has_bar, bit)| !**has_bar && **bit == state)
        .count() as u64
}

/// The number of status channels that do not change, and their states.
fn put_unchanged<A: Allocator>(
    sheet: &mut Sheet<A>,
    chart: &Chart<'_, A>,
    bars: &[bool],
    top: Down,
) {
    let Some(first) = first_drawn(chart) else {
        return;
    };
    let bits = first.bits.items();
    let all = bars
        .iter()
        .zip(bits.iter())
        .filter(|(has_bar, _)| !**has_bar);
    let all = all.count();
    sheet.begin_text(NAMES, top.below(130), "");
    sheet.text(chart.layer.tag());
    sheet.number(all as u64);
    let is_short = chart.layer == Layer::Alone && all < 100;
    sheet.text(if is_short {
        " contacts unchanged: "
    } else {
        " unchanged: "
    });
    sheet.number(unchanged_at(bars, bits, true));
    sheet.text(" at 1, ");
    sheet.number(unchanged_at(bars, bits, false));
    sheet.text(" at 0");
    sheet.end_text();
}

/// The status channels, from a vertical position on.
pub(crate) fn put_contacts<A: Allocator>(
    sheet: &mut Sheet<A>,
    chart: &Chart<'_, A>,
    bars: &[bool],
    top: Down,
) {
    let file = chart.file;
    let height = bars_height(chart, bars);
    let band = Band { top, height };
    put_gaps(sheet, chart, band);
    put_grid(sheet, chart.frame, band);
    let mut y = top;
    let contacts = file.head.status.items().iter().zip(bars.iter());
    for (i, (channel, has_bar)) in contacts.enumerate() {
        if *has_bar {
            put_contact(sheet, chart, channel, i, y);
            y = y.after(contact_height(channel));
        }
    }
    put_trigger(sheet, chart, band);
    if unmarked(bars) != 0 {
        put_unchanged(sheet, chart, bars, y);
    }
}
