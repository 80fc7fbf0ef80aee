//! The strip that shows which part of a long record is drawn.

use crate::instant::{put_duration, put_range, put_span};
use crate::layout::{Band, Chart};
use crate::legend::NAMES;
use crate::panels::{panel_of, put_frame, put_traces};
use crate::plan::{Down, Frame, LEFT, RIGHT};
use crate::sheet::Sheet;
use crate::units::unit_of;
use std::alloc::Allocator;

/// The height of the strip, with the text below it.
pub(crate) const STRIP: u32 = 760;

const HEIGHT: u32 = 440;

/// The times at both ends of the record.
fn put_ends<A: Allocator>(sheet: &mut Sheet<A>, whole: Frame, y: Down) {
    let rest = " font-size=\"10.5\" class=\"f\" fill=\"#55595f\"";
    sheet.begin_text(LEFT, y, rest);
    put_span(sheet, whole.from);
    sheet.end_text();
    let rest = " text-anchor=\"end\" font-size=\"10.5\" class=\"f\" fill=\"#55595f\"";
    sheet.begin_text(RIGHT, y, rest);
    put_span(sheet, whole.to);
    sheet.end_text();
}

/// The panel of the strip: the first one of currents, else the first one.
fn chosen_panel<A: Allocator>(chart: &Chart<'_, A>) -> usize {
    let file = chart.file;
    let channels = file.head.analog.items();
    for (channel, panel) in channels.iter().zip(chart.panels.iter()) {
        if unit_of(channel.unit.items()).base == b"A".as_slice() {
            return *panel;
        }
    }
    0
}

/// The strip of a whole record at a vertical position, and its description next to it. A box marks
/// the part that is drawn below; it is at least a few pixels wide.
pub(crate) fn put_overview<A: Allocator>(
    sheet: &mut Sheet<A>,
    whole: &Chart<'_, A>,
    part: Frame,
    top: Down,
) {
    let number = chosen_panel(whole);
    let band = Band {
        top,
        height: Down::at(HEIGHT),
    };
    if let Some(panel) = panel_of(whole, None, number, band) {
        put_traces(sheet, whole, panel, number);
    }
    put_frame(sheet, band);
    let frame = whole.frame;
    let from = (frame.across(part.from) - 10).max(LEFT);
    let to = (frame.across(part.to) + 10).min(RIGHT);
    let width = to.max(from + 20) - from;
    sheet.begin_box((from, top.above(20).tenths), (width, HEIGHT + 40));
    sheet.text(" class=\"q\" fill=\"#f0b429\" fill-opacity=\"0.3\" stroke=\"#b07a00\"/>\n");
    put_ends(sheet, frame, top.below(HEIGHT + 150));
    sheet.begin_text(NAMES, top.below(110), "");
    sheet.text("the whole record, ");
    put_duration(sheet, frame.span());
    sheet.end_text();
    sheet.begin_text(NAMES, top.below(250), "");
    sheet.text("drawn below: ");
    put_range(sheet, part.from, part.to);
    sheet.end_text();
    sheet.label(
        NAMES,
        top.below(390),
        " class=\"f\" font-size=\"10.5\" fill=\"#55595f\"",
        "comtrade plot --whole draws all",
    );
}
