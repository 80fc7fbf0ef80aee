//! Names of channels next to their panels, with their peaks and rms values.

use crate::layers::Layer;
use crate::layout::{Chart, LINE_HEIGHT, first_line, legend_height};
use crate::phases::Hue;
use crate::plan::{Down, RIGHT};
use crate::quantity::put_quantity;
use crate::sheet::Sheet;
use crate::survey::{ChannelSpan, Rms};
use crate::units::unit_of;
use comtrade_format::Scale;
use std::alloc::Allocator;

/// Where names begin.
pub(crate) const NAMES: u32 = RIGHT + 320;

/// A piece of a trace of a layer, from a position on.
pub(crate) fn put_mark<A: Allocator>(
    sheet: &mut Sheet<A>,
    layer: Layer,
    hue: Hue,
    x: u32,
    y: Down,
) {
    sheet.texts(&["<path class=\"", hue.class(), "\" stroke=\"", hue.colour()]);
    sheet.texts(&[
        "\"",
        layer.dashes(),
        " stroke-width=\"2.5\" fill=\"none\" d=\"",
    ]);
    sheet.point("M", x, y.above(40).tenths);
    sheet.along("h", 190);
    sheet.text("\"/>\n");
}

/// A name on as many lines as it takes, at most three, with a prefix and with its phase; returns
/// where it ends.
pub(crate) fn put_name<A: Allocator>(
    sheet: &mut Sheet<A>,
    tag: &str,
    name: &[u8],
    phase: &[u8],
    y: Down,
) -> Down {
    let mut y = y;
    let (mut line, mut rest) = first_line(name);
    let mut tag = tag;
    for _ in 0..2 {
        if rest.is_empty() {
            break;
        }
        sheet.begin_text(NAMES, y, "");
        sheet.text(tag);
        sheet.name(line);
        sheet.end_text();
        tag = "";
        y = y.below(LINE_HEIGHT);
        (line, rest) = first_line(rest);
    }
    sheet.begin_text(NAMES, y, "");
    sheet.text(tag);
    sheet.name(line);
    if !rest.is_empty() {
        sheet.text("..");
    }
    if !phase.is_empty() {
        sheet.text(" (");
        sheet.name(phase);
        sheet.text(")");
    }
    sheet.end_text();
    y
}

/// The value of a channel that is farthest from 0.
pub(crate) fn peak_of(survey: ChannelSpan, scale: Scale) -> Option<f64> {
    let (low, high) = survey.values(scale)?;
    Some(if high.abs() < low.abs() { low } else { high })
}

/// The rms values of a current or voltage before and after the fault inception, where they are
/// known.
fn put_rms<A: Allocator>(sheet: &mut Sheet<A>, rms: Rms, unit: &[u8]) {
    let base = unit_of(unit).base;
    if base != b"A".as_slice() && base != b"V".as_slice() {
        return;
    }
    match (rms.before, rms.after) {
        (None, None) => {}
        (Some(before), None) => {
            sheet.text(", rms ");
            put_quantity(sheet, before, unit);
            sheet.text(" before");
        }
        (None, Some(after)) => {
            sheet.text(", rms ");
            put_quantity(sheet, after, unit);
            sheet.text(" after");
        }
        (Some(before), Some(after)) => {
            sheet.text(", rms ");
            put_quantity(sheet, before, unit);
            sheet.text(" \u{2192} ");
            put_quantity(sheet, after, unit);
        }
    }
}

/// A small text at a vertical position next to a panel, compressed where there is not enough room.
pub(crate) fn put_small<A: Allocator>(sheet: &mut Sheet<A>, y: Down, text: &Sheet<A>) {
    let small = " class=\"f\" font-size=\"10.5\" fill=\"#55595f\"";
    let narrow =
        " class=\"f\" font-size=\"10.5\" fill=\"#55595f\" textLength=\"246\" lengthAdjust=\"spacingAndGlyphs\"";
    sheet.begin_text(NAMES, y, if text.len() < 45 { small } else { narrow });
    sheet.append(text);
    sheet.end_text();
}

/// A channel's legend at a vertical position, with its peak and rms values below its name; returns
/// the position of the next one.
pub(crate) fn put_legend<A: Allocator + Copy>(
    sheet: &mut Sheet<A>,
    chart: &Chart<'_, A>,
    at: usize,
    y: Down,
) -> Down {
    let file = chart.file;
    let channels = file.head.analog.items();
    let (Some(channel), Some(survey), Some(scale)) = (
        channels.get(at),
        chart.surveys.get(at),
        chart.scales.get(at),
    ) else {
        return y;
    };
    let layer = chart.layer;
    put_mark(sheet, layer, chart.hue(at), RIGHT + 90, y);
    let (id, phase) = (channel.id.items(), channel.phase.items());
    let end = put_name(sheet, layer.tag(), id, phase, y);
    let mut numbers = sheet.another();
    match peak_of(*survey, *scale) {
        Some(peak) => {
            let unit = channel.unit.items();
            numbers.text("peak ");
            put_quantity(&mut numbers, peak, unit);
            if let Some(rms) = chart.rms.get(at) {
                put_rms(&mut numbers, *rms, unit);
            }
        }
        None => numbers.text("no readings"),
    }
    put_small(sheet, end.below(LINE_HEIGHT - 10), &numbers);
    y.after(legend_height(channel))
}
