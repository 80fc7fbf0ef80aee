//! The panels of a picture.

use crate::axis::{put_gaps, put_grid, put_trigger};
use crate::edges::{spread, with_edges};
use crate::layout::{Band, Chart, TITLE, channel_in, height_of, panel_count};
use crate::legend::put_legend;
use crate::levels::put_levels;
use crate::plan::{ACROSS, Down, LEFT, Panel, RIGHT};
use crate::sheet::Sheet;
use crate::trace::put_channel;
use crate::units::{put_unit, shown_exponent, unit_of};
use dfr_channels::{AnalogChannel, Side};
use std::alloc::Allocator;

/// The bounds, extended by those of a chart's channels in a panel.
fn bounds_with<A: Allocator>(
    bounds: Option<(f64, f64)>,
    chart: &Chart<'_, A>,
    number: usize,
) -> Option<(f64, f64)> {
    let mut bounds = bounds;
    let known = chart.surveys.iter().zip(chart.scales.iter());
    for (its, (survey, scale)) in chart.panels.iter().zip(known) {
        if *its == number {
            bounds = spread(bounds, survey.values(*scale));
        }
    }
    bounds
}

/// A panel of one chart, or of two that are overlaid, in a band; None where it has no readings.
pub(crate) fn panel_of<'a, A: Allocator>(
    one: &Chart<'a, A>,
    other: Option<&Chart<'a, A>>,
    number: usize,
    band: Band,
) -> Option<Panel> {
    let mut bounds = bounds_with(None, one, number);
    if let Some(other) = other {
        bounds = bounds_with(bounds, other, number);
    }
    let (low, high) = bounds?;
    let (low, high) = with_edges(low, high);
    Some(Panel {
        top: band.top,
        height: band.height,
        low,
        high,
    })
}

/// The first channel of a panel.
fn first_of<'a, A: Allocator>(chart: &Chart<'a, A>, panel: usize) -> Option<&'a AnalogChannel<A>> {
    let file = chart.file;
    file.head.analog.items().get(channel_in(chart, panel)?)
}

/// The power of ten by which a panel's values are divided for display.
fn exponent_of<A: Allocator>(channel: &AnalogChannel<A>, panel: Panel) -> i16 {
    let size = if panel.high.abs() < panel.low.abs() {
        panel.low.abs()
    } else {
        panel.high.abs()
    };
    shown_exponent(unit_of(channel.unit.items()), size / 1.05)
}

/// The properties that all channels of a panel share: the unit, the side, the component.
fn put_title<A: Allocator>(
    sheet: &mut Sheet<A>,
    channel: &AnalogChannel<A>,
    exponent: i16,
    y: Down,
) {
    sheet.begin_text(LEFT, y, " class=\"f\" fill=\"#55595f\"");
    put_unit(sheet, unit_of(channel.unit.items()), exponent);
    sheet.text(match channel.side {
        Side::Primary => ", primary",
        Side::Secondary => ", secondary",
    });
    if !channel.component.items().is_empty() {
        sheet.text(", ");
        sheet.name(channel.component.items());
    }
    sheet.end_text();
}

/// The traces of a panel's channels.
pub(crate) fn put_traces<A: Allocator>(
    sheet: &mut Sheet<A>,
    chart: &Chart<'_, A>,
    panel: Panel,
    number: usize,
) {
    sheet.text(
        "<g fill=\"none\" stroke-width=\"1.2\" stroke-linecap=\"round\" stroke-linejoin=\"round\">\n",
    );
    for (i, its) in chart.panels.iter().enumerate() {
        if *its == number {
            put_channel(sheet, chart, panel, i);
        }
    }
    sheet.text("</g>\n");
}

/// The names of a panel's channels.
fn put_names<A: Allocator + Copy>(
    sheet: &mut Sheet<A>,
    chart: &Chart<'_, A>,
    number: usize,
    top: Down,
) {
    let mut y = top.below(90);
    for (i, its) in chart.panels.iter().enumerate() {
        if *its == number {
            y = put_legend(sheet, chart, i, y);
        }
    }
}

/// A panel's frame.
pub(crate) fn put_frame<A: Allocator>(sheet: &mut Sheet<A>, band: Band) {
    sheet.begin_box((LEFT, band.top.tenths), (ACROSS, band.height.tenths));
    sheet.text(" class=\"e\" fill=\"none\" stroke=\"#8a8f96\"/>\n");
}

/// Labels a panel without readings, away from the trigger's line.
fn put_empty<A: Allocator>(sheet: &mut Sheet<A>, chart: &Chart<'_, A>, band: Band) {
    let middle = (LEFT + RIGHT) / 2;
    let is_left = chart.frame.across(chart.trigger) < middle;
    sheet.label(
        if is_left {
            (middle + RIGHT) / 2
        } else {
            (LEFT + middle) / 2
        },
        band.top.below(band.height.tenths / 2),
        " text-anchor=\"middle\" class=\"f\" fill=\"#55595f\"",
        "no readings",
    );
}

/// A panel of one chart, or of two that are overlaid, in a band below its title.
pub(crate) fn put_panel<'a, A: Allocator + Copy>(
    sheet: &mut Sheet<A>,
    one: &Chart<'a, A>,
    other: Option<&Chart<'a, A>>,
    number: usize,
    band: Band,
) {
    let Some(first) = first_of(one, number) else {
        return;
    };
    put_gaps(sheet, one, band);
    if let Some(other) = other {
        put_gaps(sheet, other, band);
    }
    put_grid(sheet, one.frame, band);
    let title = band.top.above(50);
    if let Some(panel) = panel_of(one, other, number, band) {
        let exponent = exponent_of(first, panel);
        put_title(sheet, first, exponent, title);
        put_levels(sheet, panel, exponent);
        put_traces(sheet, one, panel, number);
        if let Some(other) = other {
            put_traces(sheet, other, panel, number);
        }
    } else {
        put_title(sheet, first, 0, title);
        put_empty(sheet, one, band);
    }
    put_trigger(sheet, one, band);
    if let Some(other) = other {
        put_trigger(sheet, other, band);
    }
    put_frame(sheet, band);
}

/// All panels, from a vertical position on.
pub(crate) fn put_panels<A: Allocator + Copy>(
    sheet: &mut Sheet<A>,
    chart: &Chart<'_, A>,
    top: Down,
) {
    let count = panel_count(chart.panels);
    let mut y = top;
    for number in 0..count {
        let band = Band {
            top: y.below(TITLE),
            height: height_of(chart, number, count),
        };
        put_panel(sheet, chart, None, number, band);
        put_names(sheet, chart, number, band.top);
        y = band.bottom();
    }
}
