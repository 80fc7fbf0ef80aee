//! A picture of a pair of files, as SVG.

use crate::axis::{put_cycles, put_gap_names, put_times, put_times_name};
use crate::contacts::{bars_of, contacts_height, put_contacts};
use crate::head::{put_head, put_tag};
use crate::layout::{Chart, panels_end};
use crate::overview::{STRIP, put_overview};
use crate::panels::put_panels;
use crate::plan::{Down, LEFT};
use crate::record::{Timed, chart_of, choice_of, part_of, record_of, whole_of};
use crate::sheet::Sheet;
use comtrade_io::ToolFault;
use std::alloc::Allocator;
use std::io::Write;

/// How a picture is drawn: the whole record; a bar for each status channel; in black for paper; its
/// width and height in pixels.
#[derive(Clone, Copy, Debug, Default, PartialEq, Eq)]
pub struct PlotOptions {
    pub is_whole: bool,
    pub shows_all: bool,
    pub is_for_print: bool,
    pub width: Option<u32>,
    pub height: Option<u32>,
}

/// The vertical positions of a picture's parts: the times above, the panels, the status channels,
/// their end.
#[derive(Clone, Copy)]
struct ChannelPlaces {
    names: Down,
    panels: Down,
    contacts: Down,
    end: Down,
}

/// The positions in a picture, with room for the overview strip where only a part of a record is
/// drawn.
fn places_in<A: Allocator>(chart: &Chart<'_, A>, bars: &[bool], is_part: bool) -> ChannelPlaces {
    let mut names = Down::at(620);
    if is_part {
        names = names.below(STRIP);
    }
    if !chart.gaps.is_empty() {
        names = names.below(150);
    }
    let panels = names.below(40);
    let contacts = panels_end(chart, panels).below(120);
    ChannelPlaces {
        names,
        panels,
        contacts,
        end: contacts.after(contacts_height(chart, bars)),
    }
}

/// What is drawn besides panels and status channels: times, cycles, gaps, the note about rms
/// values.
fn put_scales<A: Allocator>(sheet: &mut Sheet<A>, chart: &Chart<'_, A>, places: ChannelPlaces) {
    put_times(sheet, chart, places.names);
    put_times_name(sheet, chart, places.names);
    put_gap_names(sheet, chart, places.names.above(150));
    put_times(sheet, chart, places.end.below(170));
    put_times_name(sheet, chart, places.end.below(170));
    put_cycles(sheet, chart, places.end.below(240));
    if !chart.rms.is_empty() {
        sheet.label(
            LEFT,
            places.end.below(580),
            " class=\"f\" font-size=\"10.5\" fill=\"#55595f\"",
            "peak: of what is drawn; rms: of the cycle that ends one cycle before the fault inception (else the trigger) \u{2192} of the first whole cycle after it",
        );
    }
}

/// Prints a picture of a record.
pub fn plot_over<A: Allocator + Copy, W: Write>(
    alloc: A,
    timed: Timed<'_, A>,
    options: PlotOptions,
    w: &mut W,
) -> Result<(), ToolFault> {
    let file = timed.file;
    let record = record_of(alloc, timed)?;
    let choice = choice_of(file, &record, options.is_whole);
    let part = part_of(alloc, file, &record, choice.drawn)?;
    let chart = chart_of(alloc, file, &record, &part);
    let bars = bars_of(&chart, options.shows_all)?;
    let places = places_in(&chart, &bars, choice.is_part);
    let mut sheet = Sheet::new(alloc);
    put_tag(&mut sheet, options, places.end.below(640));
    put_head(&mut sheet, &chart, options.is_for_print);
    put_panels(&mut sheet, &chart, places.panels);
    put_contacts(&mut sheet, &chart, &bars, places.contacts);
    put_scales(&mut sheet, &chart, places);
    if choice.is_part {
        let all = whole_of(alloc, file, &record, &part, choice.whole)?;
        let strip = chart_of(alloc, file, &record, &all);
        put_overview(&mut sheet, &strip, choice.drawn, Down::at(560));
    }
    sheet.text("</svg>\n");
    sheet.write(w)
}
