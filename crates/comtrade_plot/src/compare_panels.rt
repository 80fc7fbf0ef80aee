//! The panels of two records: each overlays a channel of one record with its partner of the other.

use crate::differing::{Beside, differences_of};
use crate::instant::put_span;
use crate::layout::{
    Band, LINE_HEIGHT, TITLE, channel_in, least_height, legends_height, panel_count,
};
use crate::legend::{put_legend, put_small};
use crate::panels::put_panel;
use crate::plan::{Differences, Down};
use crate::quantity::put_quantity;
use crate::sheet::Sheet;
use std::alloc::Allocator;

/// The height of a panel without its title: both names, and the differences.
pub(crate) fn pair_height<A: Allocator>(beside: &Beside<'_, A>, number: usize) -> Down {
    let count = panel_count(beside.one.panels);
    legends_height(beside.one, number)
        .after(legends_height(beside.other, number))
        .below(2 * LINE_HEIGHT + 40)
        .max(least_height(count))
}

/// Where the panels end that begin here.
pub(crate) fn pairs_end<A: Allocator>(beside: &Beside<'_, A>, top: Down) -> Down {
    let mut end = top;
    for number in 0..panel_count(beside.one.panels) {
        end = end.below(TITLE).after(pair_height(beside, number));
    }
    end
}

/// Two lines about the differences of a channel and its partner, from a vertical position on: the
/// greatest one and its time, and their rms value.
fn put_differences<A: Allocator + Copy>(
    sheet: &mut Sheet<A>,
    differences: Differences,
    unit: &[u8],
    y: Down,
) {
    let mut first = sheet.another();
    let mut second = sheet.another();
    match differences.rms() {
        Some(rms) => {
            first.text("A \u{2212} B: greatest ");
            put_quantity(&mut first, differences.greatest, unit);
            first.text(" at ");
            put_span(&mut first, differences.time);
            second.text("A \u{2212} B: rms ");
            put_quantity(&mut second, rms, unit);
            second.text(", instants: ");
            second.number(differences.count);
        }
        None => first.text("A \u{2212} B: no common instants"),
    }
    put_small(sheet, y, &first);
    put_small(sheet, y.below(LINE_HEIGHT), &second);
}

/// The legend of a panel: both channels' names, peaks and rms values, and how much they differ.
fn put_pair_legend<A: Allocator + Copy>(
    sheet: &mut Sheet<A>,
    beside: &Beside<'_, A>,
    number: usize,
    top: Down,
) {
    let channel = channel_in(beside.one, number);
    let (Some(channel), Some(partner)) = (channel, channel_in(beside.other, number)) else {
        return;
    };
    let y = put_legend(sheet, beside.one, channel, top.below(90));
    let y = put_legend(sheet, beside.other, partner, y);
    let file = beside.one.file;
    if let Some(named) = file.head.analog.items().get(channel) {
        let differences = differences_of(beside, channel, partner);
        let unit = named.unit.items();
        put_differences(sheet, differences, unit, y);
    }
}

/// All panels, from a vertical position on.
pub(crate) fn put_pairs<A: Allocator + Copy>(
    sheet: &mut Sheet<A>,
    beside: &Beside<'_, A>,
    top: Down,
) {
    let mut y = top;
    for number in 0..panel_count(beside.one.panels) {
        let band = Band {
            top: y.below(TITLE),
            height: pair_height(beside, number),
        };
        put_panel(sheet, beside.one, Some(beside.other), number, band);
        put_pair_legend(sheet, beside, number, band.top);
        y = band.bottom();
    }
}
