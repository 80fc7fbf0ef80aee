//! The traces of channels, at most two points for each half pixel, so that no peak is lost.

use crate::layout::Chart;
use crate::plan::Panel;
use crate::rows::reading_at;
use crate::sheet::Sheet;
use comtrade_format::{Row, Scale};
use dfr_channels::Reading;
use std::alloc::Allocator;

/// The width in tenths of a pixel of a column in which a trace has one stroke.
const COLUMN: u32 = 5;

/// A trace in one column: the position of its first sample, its highest and lowest position, which
/// of both came later, and whether it begins a run and is the run's only sample.
#[derive(Clone, Copy)]
struct Stroke {
    x: u32,
    upper: u32,
    lower: u32,
    is_falling: bool,
    is_first: bool,
    is_only: bool,
}

impl Stroke {
    fn at(x: u32, y: u32, is_first: bool) -> Stroke {
        Stroke {
            x,
            upper: y,
            lower: y,
            is_falling: false,
            is_first,
            is_only: is_first,
        }
    }

    /// The stroke with one more sample.
    fn with(self, y: u32) -> Stroke {
        Stroke {
            x: self.x,
            upper: self.upper.min(y),
            lower: self.lower.max(y),
            is_falling: if self.lower < y {
                true
            } else {
                self.is_falling && self.upper <= y
            },
            is_first: self.is_first,
            is_only: false,
        }
    }

    fn put<A: Allocator>(self, sheet: &mut Sheet<A>) {
        let (from, to) = if self.is_falling {
            (self.upper, self.lower)
        } else {
            (self.lower, self.upper)
        };
        sheet.point(if self.is_first { "M" } else { "L" }, self.x, from);
        if self.is_only {
            sheet.text("h0");
        }
        if from != to {
            sheet.along("V", to);
        }
    }
}

/// The position of a row's reading of a channel, if the row is drawn and the reading is not
/// missing. Other rows, which lie far apart in memory, are not read.
fn point_of<A: Allocator>(
    panel: Panel,
    scale: Scale,
    place: Option<u32>,
    row: &Row<A>,
    at: usize,
) -> Option<(u32, u32)> {
    let x = place?;
    match reading_at(row, at) {
        Reading::Value(sample) => Some((x, panel.level(scale.value(sample)).tenths)),
        Reading::Missing => None,
    }
}

/// The stroke after a point. The one before is drawn where the point is in another column, or where
/// there is no point, which ends the run.
fn moved<A: Allocator>(
    sheet: &mut Sheet<A>,
    stroke: Option<Stroke>,
    point: Option<(u32, u32)>,
) -> Option<Stroke> {
    let Some(stroke) = stroke else {
        let (x, y) = point?;
        return Some(Stroke::at(x, y, true));
    };
    let Some((x, y)) = point else {
        stroke.put(sheet);
        return None;
    };
    if stroke.x / COLUMN == x / COLUMN {
        return Some(stroke.with(y));
    }
    let drawn = Stroke {
        is_only: false,
        ..stroke
    };
    drawn.put(sheet);
    Some(Stroke::at(x, y, false))
}

/// A record with at most this many rows has a dot at each sample.
const DOTTED: usize = 60;

/// A channel's trace in a panel; a missing reading interrupts it.
pub(crate) fn put_channel<A: Allocator>(
    sheet: &mut Sheet<A>,
    chart: &Chart<'_, A>,
    panel: Panel,
    at: usize,
) {
    let Some(scale) = chart.scales.get(at) else {
        return;
    };
    let (file, hue) = (chart.file, chart.hue(at));
    let rows = file.rows.items();
    sheet.texts(&["<path class=\"", hue.class(), "\" stroke=\"", hue.colour()]);
    sheet.texts(&["\"", chart.layer.dashes(), " d=\""]);
    let mut stroke = None;
    for (row, place) in rows.iter().zip(chart.places.iter()) {
        let point = point_of(panel, *scale, *place, row, at);
        stroke = moved(sheet, stroke, point);
    }
    moved(sheet, stroke, None);
    sheet.text("\"/>\n");
    if rows.len() <= DOTTED {
        sheet.texts(&["<path class=\"", hue.class(), "\" stroke=\"", hue.colour()]);
        sheet.text("\" stroke-width=\"5\" d=\"");
        for (row, place) in rows.iter().zip(chart.places.iter()) {
            if let Some((x, y)) = point_of(panel, *scale, *place, row, at) {
                sheet.point("M", x, y);
                sheet.text("h0");
            }
        }
        sheet.text("\"/>\n");
    }
}
